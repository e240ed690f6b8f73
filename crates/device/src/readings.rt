// Component readings and buffer views, from the words of the records concerned.
ghost use Rattle.std.specs.Prelude.{◌≡◌};
ghost use Rattle.access.specs.Readings.{component_of};
ghost use Rattle.access.specs.Results.{reading_of, view_number_said, place_said};
ghost use Rattle.access.specs.Views.{view_number_of, view_place_of};
ghost use Rattle.device.specs.Words.{tables_of};

use crate::records;
use access::{Place, Refusal};

// 60, then the reading of the records that the accessor names.
pub(crate) fn component(
    file: &[u8],
    words: &[u32; 4000],
    accessor: u32,
    element: u32,
    component: u32,
) -> Result<i64, Refusal>
    ensures { reading_of result ≡ component_of file.now (tables_of words.now) accessor element component }
{
    if (words[2] <= accessor) | (128 <= accessor) {
        return Err(Refusal::NoAccessor);
    }
    let s = records::selection(words, accessor);
    access::component_in(file, s, element, component)
}

pub(crate) fn view(file: &[u8], words: &[u32; 4000], view: u32) -> Result<Place, Refusal>
    ensures number { view_number_said result ≡ view_number_of file.now (tables_of words.now) view }
    ensures place { place_said result ≡ view_place_of file.now (tables_of words.now) view }
{
    access::view_place_in(file.len(), records::view_selection(words, view), view)
}
