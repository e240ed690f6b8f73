// The values of a component, where nothing is refused: in a sparse entry, in the accessor's own view.
ghost use Rattle.std.specs.Prelude.{◌≡◌, true, false, ◌||◌, ◌+◌, ◌*◌, ◌^◌, ◌<◌, ◌≤◌, eqb, length};
ghost use Rattle.tables.specs.Elements.{is_size, component_count};
ghost use Rattle.tables.specs.Fitness.{accessor_unfit};
ghost use Rattle.tables.specs.Stages.{own_fit};
ghost use Rattle.access.specs.Readings.{sparse_find, entry_for, own_value, entry_value};
ghost use Rattle.access.specs.Results.{found};

use crate::numbers;
use tables::layout;
use tables::selection::{Fit, Selection};

fn sum(a: u32, b: u32, c: u32) -> u64
    ensures { result ≡ a + b + c }
{
    u64::from(a) + u64::from(b) + u64::from(c)
}

// Where the part at `inner` of item k starts, the items lying `step` bytes apart.
fn place(first: u64, step: u32, k: u32, inner: u64) -> u64
    requires { first + step * k + inner < 2 ^ 63 }
    ensures { result ≡ first + step * k + inner }
{
    first + u64::from(step) * u64::from(k) + inner
}

// The first of `count` indices, each of `size` bytes from `first` on, that is the element.
fn sparse_find(file: &[u8], first: usize, size: u32, count: u32, element: u32) -> Option<u32>
    requires count_in_bounds { first + size * count ≤ length file.now }
    requires size_value { (is_size size || eqb size 0) ≡ true }
    ensures { result ≡ found count (sparse_find file.now first size count element) }
{
    for k in 0..count {
        let index = numbers::little_at(file, first + (size as usize) * (k as usize), size);
        if index == u64::from(element) {
            return Some(k);
        }
    }
    None
}

// The sparse entry for the element.
pub(crate) fn entry_for(file: &[u8], s: Selection, element: u32) -> Option<u32>
    requires s_value { accessor_unfit (length file.now) s ≡ false }
    requires has_sparse_value { s.accessor.has_sparse ≡ true }
    ensures { result ≡ found s.accessor.sparse.count (entry_for file.now s element) }
{
    let p = s.accessor.sparse;
    let size = layout::component_size(p.indices_type);
    let first = sum(
        s.extent.buffer_start,
        s.indices.byte_offset,
        p.indices_offset,
    );
    sparse_find(file, first as usize, size, p.count, element)
}

// The component in values element k.
pub(crate) fn entry_value(file: &[u8], s: Selection, f: Fit, k: u32, component: u32) -> i64
    requires s_value { accessor_unfit (length file.now) s ≡ false }
    requires f_value { f ≡ own_fit (length file.now) s }
    requires has_sparse_value { s.accessor.has_sparse ≡ true }
    requires k_lt_count { (k < s.accessor.sparse.count) × (component < component_count s.accessor.element_type) }
    ensures { result ≡ entry_value file.now s k component }
{
    let a = s.accessor;
    let inner = layout::component_place(f.component, a.element_type, component);
    let first = sum(
        s.extent.buffer_start,
        s.values.byte_offset,
        a.sparse.values_offset,
    );
    let at = place(first, f.element, k, inner);
    numbers::number_at(file, a.component_type, f.component, at as usize)
}

// The component in the accessor's own view, zero without one.
pub(crate) fn own_value(file: &[u8], s: Selection, f: Fit, element: u32, component: u32) -> i64
    requires s_value { accessor_unfit (length file.now) s ≡ false }
    requires f_value { f ≡ own_fit (length file.now) s }
    requires element_lt_count { (element < s.accessor.count) × (component < component_count s.accessor.element_type) }
    ensures { result ≡ own_value file.now s element component }
{
    let a = s.accessor;
    let own = s.own;
    if a.has_buffer_view {
        let inner = layout::component_place(f.component, a.element_type, component);
        let first = sum(s.extent.buffer_start, own.byte_offset, a.byte_offset);
        let at = place(first, f.stride, element, inner);
        return numbers::number_at(file, a.component_type, f.component, at as usize);
    }
    0
}
