// Readings of components and buffer views, for any bytes and any tables: the numbers 60 to 63 and 67.
#![tactic(auto)]

ghost use Rattle.std.specs.Prelude.{◌≡◌, true, false, length};
ghost use Rattle.tables.specs.Fitness.{selection_of, accessor_unfit};
ghost use Rattle.tables.specs.Stages.{own_fit};
ghost use Rattle.access.specs.Readings.{component_in, component_of};
ghost use Rattle.access.specs.Stages.{own_reading};
ghost use Rattle.access.specs.Views.{view_number_in, view_number_of, view_place_of, view_of, StartsAt};
ghost use Rattle.access.specs.Results.{number_of, reading_of, view_number_said, place_said, view_place_in};

use tables::selection::{Fit, Selection, ViewSelection};
use tables::{Tables, layout, selection};

mod numbers;
mod values;

// Why a reading or a view lookup is refused.
#[derive(Clone, Copy, Debug, PartialEq, Eq, Hash)]
pub enum Refusal {
    // The accessor index is not below the count or 128.
    NoAccessor,
    // The element is not below the accessor's count.
    NoElement,
    // The component is not below the number of the accessor's type.
    NoComponent,
    // A record concerned breaks a rule, or the buffer passes the lent bytes.
    Unfit,
    // The view index is not below the count or 64.
    NoView,
}

impl Refusal {
    // The number that a C caller sees.
    pub fn number(self) -> u32
        ensures { result ≡ number_of self }
    {
        match self {
            Refusal::NoAccessor => 60,
            Refusal::NoElement => 61,
            Refusal::NoComponent => 62,
            Refusal::Unfit => 63,
            Refusal::NoView => 67,
        }
    }
}

// A reading as C sees it: the number of the refusal, 0 where the component is answered; the value, 0 where it is refused.
// Stays: the C interface and the definition `component_of` have the number and the value.
#[repr(C)]
#[derive(Clone, Copy, Debug, PartialEq, Eq, Hash)]
pub struct Reading {
    pub number: u32,
    pub value: i64,
}

impl From<Result<i64, Refusal>> for Reading {
    ghost from_gives = { λ r reading. reading ≡ reading_of r };

    fn from(answer: Result<i64, Refusal>) -> Reading {
        match answer {
            Ok(value) => Reading { number: 0, value },
            Err(refusal) => Reading {
                number: refusal.number(),
                value: 0,
            },
        }
    }
}

// Where a part lies in the file.
#[repr(C)]
#[derive(Clone, Copy, Debug, PartialEq, Eq, Hash)]
pub struct Place {
    pub start: usize,
    pub length: usize,
}

// The records concerned in readings of one accessor, for many readings of it.
pub fn select(t: Tables, accessor: u32) -> Selection
    ensures { result ≡ selection_of t accessor }
{
    selection::select(t, accessor)
}

// 61, 62, or the component in the accessor's own view, where 63 is not given.
// Stays: file, selection and fit are parameters, and what is known of them clauses of each function. Tried as one struct
// with these facts as ghost fields: it lies in memory, and a reading took a quarter longer, alone and in a loop.
fn own_in(file: &[u8], s: Selection, f: Fit, element: u32, component: u32) -> Result<i64, Refusal>
    requires s_value { accessor_unfit (length file.now) s ≡ false }
    requires f_value { f ≡ own_fit (length file.now) s }
    ensures { reading_of result ≡ own_reading file.now s element component }
{
    if s.accessor.count <= element {
        return Err(Refusal::NoElement);
    }
    if layout::component_count(s.accessor.element_type) <= component {
        return Err(Refusal::NoComponent);
    }
    Ok(values::own_value(file, s, f, element, component))
}

// The reading of an accessor with sparse, where 63 is not given by all else.
fn sparse_in(
    file: &[u8],
    s: Selection,
    f: Fit,
    element: u32,
    component: u32,
) -> Result<i64, Refusal>
    requires f_value { f ≡ own_fit (length file.now) s }
    requires s_value { (own_fit (length file.now) s).unfit ≡ false }
    requires has_sparse_value { s.accessor.has_sparse ≡ true }
    ensures { reading_of result ≡ component_in file.now s element component }
{
    if selection::sparse_unfit(s) {
        return Err(Refusal::Unfit);
    }
    let own = own_in(file, s, f, element, component)?;
    match values::entry_for(file, s, element) {
        Some(k) => Ok(values::entry_value(file, s, f, k, component)),
        None => Ok(own),
    }
}

// The component of the accessor selected: 63, 61, 62. The selection is trusted no more than tables.
pub fn component_in(file: &[u8], s: Selection, element: u32, component: u32) -> Result<i64, Refusal>
    ensures { reading_of result ≡ component_in file.now s element component }
{
    let fit = selection::own_fit(file.len(), s);
    if fit.unfit {
        return Err(Refusal::Unfit);
    }
    if s.accessor.has_sparse {
        return sparse_in(file, s, fit, element, component);
    }
    own_in(file, s, fit, element, component)
}

// The component of an accessor of the tables: 60, then as above.
pub fn component(
    file: &[u8],
    t: Tables,
    accessor: u32,
    element: u32,
    component: u32,
) -> Result<i64, Refusal>
    ensures { reading_of result ≡ component_of file.now t accessor element component }
{
    if (t.accessors <= accessor) | (128 <= accessor) {
        return Err(Refusal::NoAccessor);
    }
    let s = selection::select(t, accessor);
    component_in(file, s, element, component)
}

// Where the view selected lies in the file, over so many lent bytes: 67, 63. The selection is trusted no more than tables.
pub fn view_place_in(bytes: usize, s: ViewSelection, view: u32) -> Result<Place, Refusal>
    ensures number { view_number_said result ≡ view_number_in bytes s view }
    ensures place { place_said result ≡ view_place_in bytes s view }
{
    if (s.extent.views <= view) | (64 <= view) {
        return Err(Refusal::NoView);
    }
    if selection::view_unfit(bytes, s) {
        return Err(Refusal::Unfit);
    }
    Ok(Place {
        start: s.extent.buffer_start as usize + s.view.byte_offset as usize,
        length: s.view.byte_length as usize,
    })
}

// Where a view of the tables lies in the file: 67, 63.
pub fn view_place(file: &[u8], t: Tables, view: u32) -> Result<Place, Refusal>
    ensures number { view_number_said result ≡ view_number_of file.now t view }
    ensures place { place_said result ≡ view_place_of file.now t view }
{
    view_place_in(file.len(), selection::select_view(t, view), view)
}

// The view's bytes, a part of the file lent and no copy: it starts that far into the file. Refused, an empty part.
pub fn view(file: &[u8], t: Tables, view: u32) -> &[u8]
    ensures { (result.now ≡ view_of file.now t view)
        × StartsAt result file.entry (view_place_of file.now t view).start }
{
    match view_place(file, t, view) {
        Ok(place) => &file[place.start..place.start + place.length],
        Err(_) => &file[0..0],
    }
}
