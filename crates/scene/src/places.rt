// The places of packed lists as two lists of numbers, which a walk lends.
ghost use Rattle.std.specs.Prelude.{◌≡◌};
ghost use Rattle.scene.specs.Lists.{starts_of, lengths_of};

use graph::packed::Packed;
use tables::List;

// Where each list starts, and how long it is.
// Stays: two arrays, since the definitions `packed_lists`, `misplaced` and `walk_packed`, and the theorems on them, have
// the starts and the lengths as two lists.
#[derive(Clone, Copy)]
pub(crate) struct Places<const N: usize> {
    pub starts: [u16; N],
    pub lengths: [u16; N],
}

impl<const N: usize> From<[List; N]> for Places<N> {
    ghost from_gives = { λ lists places. places ≡ record { starts = starts_of lists; lengths = lengths_of lists } };

    fn from(lists: [List; N]) -> Places<N> {
        let mut starts = [0u16; N];
        let mut lengths = [0u16; N];
        for (i, list) in lists.iter().enumerate() {
            starts[i] = list.start;
            lengths[i] = list.length;
        }
        Places { starts, lengths }
    }
}

impl<const N: usize> Places<N> {
    // So many lists of these places, packed in the entries.
    pub(crate) fn packed<'a>(&'a self, entries: &'a [u16], count: usize) -> Packed<'a>
        ensures { (result.starts.now ≡ self.now.starts) × (result.lengths.now ≡ self.now.lengths)
            × (result.entries.now ≡ entries.now) × (result.count ≡ count) }
    {
        Packed {
            starts: &self.starts,
            lengths: &self.lengths,
            entries,
            count,
        }
    }
}
