// The top-level arrays of records: buffers, bufferViews, accessors.
// Rule 16 is asked of every element, also past the capacity.
ghost use Rattle.std.specs.Prelude.{◌≡◌, ◌≤◌, Bool, List, [], length, drop};
ghost use Rattle.std.proofs.Math.Option.{Option};
ghost use Rattle.nav.specs.Members.{FoundTree};
ghost use Rattle.nav.specs.Results.{Placed};
ghost use Rattle.json_text.specs.Tree.{Json, Values};
ghost use Rattle.nav.specs.Places.{Walk};
ghost use Rattle.document.specs.Arrays.{elements, every, is_array_of, elements_in};
ghost use Rattle.document.specs.Results.{kept, counted_in, TakesTo};

use crate::members::Unfit;
use nav::Step;

pub(crate) mod accessors;
pub(crate) mod buffers;
pub(crate) mod sparse;
pub(crate) mod views;

// The records of an array's elements, as far as there is room.
// Stays: `none` and `take` stand in each of the three impls, since accessors have two arrays, and an array of a type parameter
// would owe its size at every call.
pub(crate) trait Records: Copy {
    // Rule 16 of an element.
    ghost fits: { Json → Bool };
    // What is kept of these elements.
    ghost keeps: { List Json → Self };

    // Of no element.
    fn none() -> Self
        ensures { result ≡ keeps [] };

    // Reads the element at `at`, behind `count` others, and keeps it if there is room. The answer is the place past it.
    fn take(&mut self, s: &[u8], at: usize, count: usize) -> Result<usize, Unfit>
        ensures { TakesTo s.now (drop at s.now) count self.old self.new result fits keeps };
}

// How many elements there are, and the records that are kept of them.
// Stays: fixed arrays with a count beside them, since there is no heap, and the count may pass their length (rule 17).
#[derive(Clone, Copy)]
pub(crate) struct Counted<R> {
    pub count: usize,
    pub kept: R,
}

// The elements from `at` on, into a place that holds none. All are checked, and counted.
fn read_from<R: Records>(s: &[u8], at: usize, records: &mut R) -> Result<usize, Unfit>
    requires within { at ≤ length s.now }
    requires none { records.old ≡ R.keeps [] }
    ensures { (js : Values) → Walk (drop at s.now) js
        → counted_in records.new result
        ≡ kept (every R.fits (elements js)) (record { count = length (elements js); kept = R.keeps (elements js) }) }
{
    // Stays: no `for`, since reading an element gives the place past it, from which the next one is found: an iterator over
    // places would read each twice.
    let mut count = 0;
    let mut i = at;
    loop {
        let past = records.take(s, i, count)?;
        count += 1;
        match nav::next_past(s, past) {
            Step::More(q) => i = q,
            Step::End(_) => return Ok(count),
            Step::Bad => return Err(Unfit),
        }
    }
}

// The elements of the array at a place, which may be none, into a lent place that holds none. The answer is how many they are.
// Stays: the records are lent, since an answer by value would be copied at each `?` on its way.
pub(crate) fn read<R: Records>(s: &[u8], at: Option<usize>, records: &mut R) -> Result<usize, Unfit>
    requires { records.old ≡ R.keeps [] }
    ensures { (o : Option Json) → Placed (FoundTree s.now o) at
        → counted_in records.new result
        ≡ kept (is_array_of R.fits o) (record { count = length (elements_in o); kept = R.keeps (elements_in o) }) }
{
    let Some(at) = at else {
        return Ok(0);
    };
    match nav::open(s, at) {
        Step::More(q) => read_from(s, q, records),
        Step::End(_) => Err(Unfit),
        Step::Bad => Err(Unfit),
    }
}
