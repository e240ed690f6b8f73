// Rules 25 to 39, of one accessor and of all.
ghost use Rattle.std.specs.Prelude.{◌≡◌, true, ◌+◌, ◌-◌, ◌*◌, ◌||◌};
ghost use Rattle.laws.specs.Search.{first_true};
ghost use Rattle.tables.specs.Accessors.{effective_stride, alignment, layout_of, uneven, misplaced, passes};
ghost use Rattle.tables.specs.Accessors.{element_tests, sparse_tests, accessor_fault, accessors_finding};
ghost use Rattle.tables.specs.Results.{broken_below, outcome_of};
ghost use Rattle.tables.specs.Stages.{own_layout, place_tests, packed_tests};

use crate::finding::{Finding, broken_if, first_of};
use crate::{Accessor, BufferView, Sparse, layout, view_at};

// How an accessor's elements lie in its view: bytes of a component, of an element and of the last one, the effective
// stride, what places are multiples of; and the bytes of a sparse index.
#[repr(C)]
#[derive(Clone, Copy)]
pub struct Layout {
    pub component: u32,
    pub element: u32,
    pub last: u32,
    pub stride: u32,
    pub alignment: u32,
    pub index: u32,
}

// How many views there are, and those that an accessor names.
#[derive(Clone, Copy)]
pub(crate) struct Named {
    pub views: u32,
    pub own: BufferView,
    pub indices: BufferView,
    pub values: BufferView,
}

#[tactic(auto, unfolding(crate::specs::Accessors::effective_stride))]
fn stride_of(v: BufferView, element: u32) -> u32
    ensures { result ≡ effective_stride v element }
{
    if v.has_byte_stride {
        v.byte_stride
    } else {
        element
    }
}

#[tactic(auto, unfolding(crate::specs::Accessors::alignment))]
fn alignment_of(size: u32, element_type: u32) -> u32
    ensures { result ≡ alignment size element_type }
{
    if 4 < element_type { 4 } else { size }
}

// The layout without sparse: no bytes of an index.
#[tactic(auto, using(crate::proofs::Elements::size_is), unfolding(crate::specs::Accessors::layout_of, crate::specs::Elements::last_element_bytes))]
pub(crate) fn own_layout(a: Accessor, v: BufferView) -> Layout
    ensures { result ≡ own_layout a v }
{
    let component = layout::component_size(a.component_type);
    let element = layout::element_bytes(component, a.element_type);
    let stride = stride_of(v, element);
    let alignment = alignment_of(component, a.element_type);
    Layout {
        component,
        element,
        last: element,
        stride,
        alignment,
        index: 0,
    }
}

#[tactic(auto, unfolding(crate::specs::Accessors::layout_of))]
pub fn layout_of(a: Accessor, v: BufferView) -> Layout
    ensures { result ≡ layout_of a v }
{
    let own = own_layout(a, v);
    let index = layout::component_size(a.sparse.indices_type);
    Layout { index, ..own }
}

// The component sizes are tested without a division.
#[tactic(auto, unfolding(crate::specs::Accessors::uneven))]
fn is_uneven(x: u64, m: u32) -> bool
    ensures { result ≡ uneven x m }
{
    if m == 4 {
        return x % 4 != 0;
    }
    if m == 2 {
        return x % 2 != 0;
    }
    if m < 2 {
        return (m == 0) & (x != 0);
    }
    x % u64::from(m) != 0
}

#[tactic(auto, unfolding(crate::specs::Accessors::misplaced))]
pub(crate) fn is_misplaced(byte_offset: u32, view_offset: u32, m: u32) -> bool
    ensures { result ≡ misplaced byte_offset view_offset m }
{
    let offset = u64::from(byte_offset);
    let own = is_uneven(offset, m);
    let sum = is_uneven(offset + u64::from(view_offset), m);
    own | sum
}

// The sum fits 64 bits for all numbers.
#[tactic(auto, unfolding(crate::specs::Accessors::passes))]
pub(crate) fn is_past(byte_offset: u32, step: u32, count: u32, last: u32, byte_length: u32) -> bool
    ensures { result ≡ passes byte_offset step count last byte_length }
{
    let before = count.saturating_sub(1);
    let end = u64::from(byte_offset) + u64::from(step) * u64::from(before) + u64::from(last);
    u64::from(byte_length) < end
}

// The smallest of the rules 30 to 33 that the elements break in their view.
fn place_fault(a: Accessor, own: BufferView, l: Layout) -> Result<(), u32>
    ensures { result ≡ broken_below 34 (30 + first_true (place_tests a own l)) }
{
    broken_if(is_uneven(u64::from(l.stride), l.component), 30)?;
    broken_if(l.stride < l.element, 31)?;
    let misplaced = is_misplaced(a.byte_offset, own.byte_offset, l.alignment);
    broken_if(misplaced, 32)?;
    let past = is_past(a.byte_offset, l.stride, a.count, l.last, own.byte_length);
    broken_if(past, 33)
}

// The smallest of the rules 25 to 33 that the accessor breaks.
fn element_fault(placed: bool, a: Accessor, v: Named, l: Layout) -> Result<(), u32>
    ensures { result ≡ broken_below 34 (25 + first_true (element_tests v.views placed a v.own l)) }
{
    let has = a.has_buffer_view;
    let t = a.component_type;
    broken_if((has & (v.views <= a.buffer_view)) | (!has & placed), 25)?;
    let unknown = (t != 5120) & (t != 5121) & (t != 5122) & (t != 5123) & (t != 5125) & (t != 5126);
    broken_if(unknown, 26)?;
    broken_if((a.element_type == 0) | (7 < a.element_type), 27)?;
    broken_if(a.count == 0, 28)?;
    broken_if(a.normalized & ((t == 5125) | (t == 5126)), 29)?;
    if has {
        place_fault(a, v.own, l)
    } else {
        Ok(())
    }
}

// Rules 38 and 39 of the two views of sparse: 38, 39, or 40 if none is broken.
// Stays: numbers and no Result here and in `sparse_fault`, which each reading takes in: with Results it took 1.2 times as long.
fn packed_fault(s: Sparse, indices: BufferView, values: BufferView, l: Layout) -> u32
    ensures { result ≡ 38 + first_true (packed_tests s indices values l) }
{
    let misplaced_values = is_misplaced(s.values_offset, values.byte_offset, l.alignment);
    let misplaced_indices = is_misplaced(s.indices_offset, indices.byte_offset, l.index);
    if misplaced_values | misplaced_indices {
        return 38;
    }
    let past_indices = is_past(
        s.indices_offset,
        l.index,
        s.count,
        l.index,
        indices.byte_length,
    );
    let past_values = is_past(
        s.values_offset,
        l.element,
        s.count,
        l.last,
        values.byte_length,
    );
    if past_indices | past_values { 39 } else { 40 }
}

// The smallest of the rules 34 to 39 that an accessor with sparse breaks, 40 if none.
pub(crate) fn sparse_fault(
    views: u32,
    a: Accessor,
    indices: BufferView,
    values: BufferView,
    l: Layout,
) -> u32
    requires { a.has_sparse ≡ true }
    ensures { result ≡ 34 + first_true (sparse_tests views a indices values l) }
{
    let s = a.sparse;
    let shaped = indices.has_byte_stride
        | indices.has_target
        | values.has_byte_stride
        | values.has_target;
    if (s.count == 0) | (a.count < s.count) {
        return 34;
    }
    if (views <= s.indices_view) | (views <= s.values_view) {
        return 35;
    }
    if shaped {
        return 36;
    }
    if (s.indices_type != 5121) & (s.indices_type != 5123) & (s.indices_type != 5125) {
        return 37;
    }
    packed_fault(s, indices, values, l)
}

// The smallest of the rules 25 to 39 that the accessor breaks. `placed`: byteOffset is there.
pub(crate) fn accessor_fault(placed: bool, a: Accessor, v: Named) -> Result<(), u32>
    ensures { result ≡ broken_below 40 (accessor_fault v.views placed a v.own v.indices v.values) }
{
    let l = layout_of(a, v.own);
    element_fault(placed, a, v, l)?;
    if a.has_sparse {
        let rule = sparse_fault(v.views, a, v.indices, v.values, l);
        broken_if(rule < 40, rule)
    } else {
        Ok(())
    }
}

// Rules 25 to 39 over the first count records, of at most 128. `placed`: for each, whether byteOffset is there.
// Stays: arrays of the tables' capacity with a count, as Tables has them for C; `accessors_finding` cuts a count above it.
pub fn check_accessors(
    views: u32,
    view_records: [BufferView; 64],
    records: [Accessor; 128],
    placed: [bool; 128],
    count: u32,
) -> Result<(), Finding>
    ensures { result ≡ outcome_of (accessors_finding views view_records records placed count) }
{
    let mut found = Ok(());
    for i in 0..count.min(128) {
        let a = records[i as usize];
        let own = view_at(&view_records, a.buffer_view);
        let indices = view_at(&view_records, a.sparse.indices_view);
        let values = view_at(&view_records, a.sparse.values_view);
        let named = Named {
            views,
            own,
            indices,
            values,
        };
        if let Err(rule) = accessor_fault(placed[i as usize], a, named) {
            found = first_of(found, Finding { rule, item: i });
        }
    }
    found
}
