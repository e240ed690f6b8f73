// Steps on numbers and lists of numbers that children and roots share.
ghost use Rattle.std.specs.Prelude.{◌≡◌, get_or, length, replicate};
ghost use Rattle.graph.specs.Stream.{earlier};

// Puts v into every entry: the length of the list of parents, before the first child.
pub fn fill(list: &mut [u16], v: u16)
    ensures { list.new ≡ replicate (length list.old) v }
{
    list.fill(v);
}

// The number i where the test holds and i is the smaller, else what was found before.
#[tactic(auto, unfolding(crate::specs::Stream::earlier))]
pub fn earlier_of(test: bool, i: u16, found: u16) -> u16
    ensures { result ≡ earlier test i found }
{
    if test { found.min(i) } else { found }
}

// Entry x, and another number past the end.
pub fn entry(list: &[u16], x: usize, other: usize) -> usize
    ensures { result ≡ get_or list.now x other }
{
    match list.get(x) {
        Some(entry) => *entry as usize,
        None => other,
    }
}
