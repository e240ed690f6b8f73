// What the C interface calls, through `device_c`: check, and readings over tables that are 4,000 words. glb.h has the layout and
// says what is lent.
// Stays: numbers for refusals and lent places for answers, since `device_c` hands these on to C, with these clauses.
#![tactic(auto)]

ghost use Rattle.std.specs.Prelude.{◌≡◌};
ghost use Rattle.access.specs.Readings.{component_of};
ghost use Rattle.access.specs.Views.{view_number_of};
ghost use Rattle.scene.specs.Walk.{walk_of};
ghost use Rattle.device.specs.Places.{place_of};
ghost use Rattle.glb.specs.Check.{check_of};
ghost use Rattle.device.specs.Words.{tables_of, words_of};

use access::Reading;
use scene::Walked;

mod lists;
pub mod put;
mod readings;
mod records;

// The verdict on a file, the item, and the tables as words; refused, they are 0 but for the item.
pub fn glb_check(file: &[u8], words: &mut [u32; 4000], item: &mut u32) -> u32
    ensures { (result ≡ (check_of file.now).verdict)
        × (words.new ≡ words_of (check_of file.now).tables)
        × (tables_of words.new ≡ (check_of file.now).tables)
        × (item.new ≡ (check_of file.now).item) }
{
    let mut tables = tables::empty();
    match glb::check_into(file, &mut tables) {
        Ok(()) => {
            put::put(words, &tables);
            *item = 0;
            0
        }
        Err(fault) => {
            put::put_none(words);
            *item = fault.item;
            fault.rule
        }
    }
}

// One component of an accessor: 60, 63, 61, 62, or 0. Refused, the value is 0.
pub fn glb_component(
    file: &[u8],
    words: &[u32; 4000],
    accessor: u32,
    element: u32,
    component: u32,
    value: &mut i64,
) -> u32
    ensures { (result ≡ (component_of file.now (tables_of words.now) accessor element component).number)
        × (value.new ≡ (component_of file.now (tables_of words.now) accessor element component).value) }
{
    let r = Reading::from(readings::component(file, words, accessor, element, component));
    *value = r.value;
    r.number
}

// Where a view starts in the file and how long it is, both 0 when refused: 67, 63, or 0.
pub fn glb_view(file: &[u8], words: &[u32; 4000], view: u32, place: &mut [u64; 2]) -> u32
    ensures { (result ≡ view_number_of file.now (tables_of words.now) view)
        × (place.new ≡ place_of file.now (tables_of words.now) view) }
{
    match readings::view(file, words, view) {
        Ok(p) => {
            *place = [p.start as u64, p.length as u64];
            0
        }
        Err(refusal) => {
            *place = [0, 0];
            refusal.number()
        }
    }
}

// The nodes of a scene into a lent list, and how many they are: 64, 66, 65, or 0.
pub fn glb_walk(words: &[u32; 4000], scene: u32, list: &mut [u16], count: &mut u32) -> u32
    ensures { (result ≡ (walk_of (tables_of words.now) scene list.old).walked.number)
        × (count.new ≡ (walk_of (tables_of words.now) scene list.old).walked.count)
        × (list.new ≡ (walk_of (tables_of words.now) scene list.old).list) }
{
    let w = Walked::from(lists::walk(words, scene, list));
    *count = w.count as u32;
    w.number
}
