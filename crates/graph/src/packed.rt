// The verdict on lists that lie packed in one, each at its start and of its length.
ghost use Rattle.std.specs.Prelude.{◌≡◌, ◌<◌, true, false, length, MatchOption};
ghost use Rattle.graph.specs.Graph.{graph_fault};
ghost use Rattle.graph.specs.Stream.{feed, link_past, link_parents, root_step, marked};
ghost use Rattle.graph.specs.Stream.{children_past, children_parents, roots_found};
ghost use Rattle.graph.specs.Packing.{list_at, misplaced, packed_lists, packed_fault_of, packed_refused};
ghost use Rattle.graph.specs.Results.{outcome_of};

use crate::links::link;
use crate::lists::fill;
use crate::roots::{Roots, root};
use crate::verdict::{Fault, verdict};

// Lists that lie packed in one. List i starts at entry starts[i] and is lengths[i] long.
// Stays: starts and lengths are two slices with a count beside them, since the definitions `packed_lists` and `misplaced`,
// and the theorems on them, have two lists and a count, which may be above or below their lengths.
#[derive(Clone, Copy)]
pub struct Packed<'a> {
    pub starts: &'a [u16],
    pub lengths: &'a [u16],
    pub entries: &'a [u16],
    pub count: usize,
}

// Packed lists, at most so many, that are all in their places.
#[derive(Clone, Copy)]
struct Placed<'a, const CAPACITY: usize> {
    lists: Packed<'a>,
    ghost in_place: { misplaced CAPACITY lists.starts.now lists.lengths.now lists.entries.now lists.count ≡ false },
}

impl<'a> Packed<'a> {
    // Whether the count passes the capacity or the records, or a list below the count passes the entries.
    #[tactic(auto, using(crate::proofs::Placing::outside, laws::proofs::Search::any_none), unfolding(crate::specs::Packing::misplaced))]
    pub fn is_misplaced(&self, capacity: usize) -> bool
        ensures { result
            ≡ misplaced capacity self.now.starts.now self.now.lengths.now self.now.entries.now self.now.count }
    {
        if (capacity < self.count)
            | (self.starts.len() < self.count)
            | (self.lengths.len() < self.count)
        {
            return true;
        }
        for i in 0..self.count {
            if self.entries.len() < (self.starts[i] as usize) + (self.lengths[i] as usize) {
                return true;
            }
        }
        false
    }

    // The same lists, if they are all in their places.
    fn placed<const CAPACITY: usize>(self) -> Option<Placed<'a, CAPACITY>>
        ensures { MatchOption result
            (misplaced CAPACITY self.entry.starts.now self.entry.lengths.now self.entry.entries.now self.entry.count
            ≡ true)
            (λ placed. placed.lists ≡ self.entry) }
    {
        if self.is_misplaced(CAPACITY) {
            return None;
        }
        Some(Placed { lists: self })
    }
}

impl<'a, const CAPACITY: usize> Placed<'a, CAPACITY> {
    // List i, a part of the entries themselves.
    #[tactic(auto, using(crate::proofs::Placing::placed))]
    fn list_at(&self, i: u16) -> &'a [u16]
        requires { i < self.now.lists.count }
        ensures { result.now
            ≡ list_at self.now.lists.starts.now self.now.lists.lengths.now self.now.lists.entries.now i }
    {
        let start = self.lists.starts[i as usize] as usize;
        let end = start + (self.lists.lengths[i as usize] as usize);
        &self.lists.entries[start..end]
    }
}

// All children of one node.
#[tactic(auto, using(crate::proofs::Feeding::feed_next), unfolding(crate::specs::Stream::feed))]
pub fn link_list(first: u16, parents: &mut [u16], node: u16, list: &[u16]) -> u16
    ensures { (result ≡ feed (link_past (length parents.old)) first node list.now)
        × (parents.new ≡ feed link_parents parents.old node list.now) }
{
    let mut past = first;
    for child in list {
        past = link(past, parents, node, *child as u32);
    }
    past
}

// All roots of one scene.
// Stays: a twin of `link_list` in its loop alone, for the reason beside `roots_found`.
#[tactic(auto, using(crate::proofs::Feeding::feed_next), unfolding(crate::specs::Stream::feed))]
pub fn root_list(
    first: Roots,
    marks: &mut [u16],
    parents: &[u16],
    scene: u16,
    list: &[u16],
) -> Roots
    ensures { marked result marks.new
        ≡ feed (root_step parents.now) (marked first marks.old) scene list.now }
{
    let mut found = first;
    for node in list {
        found = root(found, marks, parents, scene, *node as u32);
    }
    found
}

// All children from the first: the list of parents is filled anew.
#[tactic(auto, using(crate::proofs::Placing::placed), unfolding(crate::specs::Packing::packed_lists, crate::specs::Stream::feed_all))]
fn children_past(nodes: &Placed<128>, parents: &mut [u16]) -> u16
    requires { length parents.old ≡ nodes.now.lists.count }
    ensures { let kids = packed_lists nodes.now.lists.starts.now nodes.now.lists.lengths.now
        nodes.now.lists.entries.now nodes.now.lists.count in
        (result ≡ children_past kids) × (parents.new ≡ children_parents kids) }
{
    let none = nodes.lists.count as u16;
    fill(parents, none);
    let mut past = none;
    for node in 0..none {
        past = link_list(past, parents, node, nodes.list_at(node));
    }
    past
}

// All roots from the first: the marks are set anew.
// Stays: its loop is a twin of that in `children_past`; one fold over the lists would take the step as a closure that
// writes a lent list, with a `requires` that it may be called and clauses on what it wrote, longer than the two loops.
#[tactic(auto, using(crate::proofs::Placing::placed), unfolding(crate::specs::Packing::packed_lists, crate::specs::Stream::feed_all))]
fn roots_found(scenes: &Placed<8>, marks: &mut [u16], parents: &[u16]) -> Roots
    requires { length marks.old ≡ length parents.now }
    ensures { result ≡ roots_found parents.now
        (packed_lists scenes.now.lists.starts.now scenes.now.lists.lengths.now scenes.now.lists.entries.now
        scenes.now.lists.count) }
{
    let none = scenes.lists.count as u16;
    fill(marks, none);
    let mut found = Roots {
        past: none,
        twice: none,
        parented: none,
    };
    for scene in 0..none {
        found = root_list(found, marks, parents, scene, scenes.list_at(scene));
    }
    found
}

// The verdict where all lists are in their places.
#[tactic(auto, using(crate::proofs::Placing::placed, crate::proofs::Placing::taken))]
fn placed_fault(nodes: &Placed<128>, scenes: &Placed<8>) -> Result<(), Fault>
    ensures { result ≡ outcome_of (graph_fault
        (packed_lists nodes.now.lists.starts.now nodes.now.lists.lengths.now nodes.now.lists.entries.now
        nodes.now.lists.count)
        (packed_lists scenes.now.lists.starts.now scenes.now.lists.lengths.now scenes.now.lists.entries.now
        scenes.now.lists.count)) }
{
    let mut parents = [0u16; 128];
    let mut marks = [0u16; 128];
    let count = nodes.lists.count;
    let parents = &mut parents[..count];
    let past = children_past(nodes, parents);
    let found = roots_found(scenes, &mut marks[..count], parents);
    verdict(past, parents, scenes.lists.count as u16, found)
}

// Rules 41 to 46 on packed lists of at most 128 nodes and 8 scenes; 66 where a count or a list passes its capacity.
#[tactic(auto, unfolding(crate::specs::Packing::packed_fault_of, crate::specs::Results::outcome_of))]
pub fn packed_fault(nodes: Packed, scenes: Packed) -> Result<(), Fault>
    ensures { result ≡ outcome_of (packed_fault_of
        nodes.entry.starts.now nodes.entry.lengths.now nodes.entry.entries.now nodes.entry.count
        scenes.entry.starts.now scenes.entry.lengths.now scenes.entry.entries.now scenes.entry.count) }
{
    let unfit = Err(Fault {
        number: 66,
        item: 0,
    });
    let Some(nodes) = nodes.placed() else {
        return unfit;
    };
    let Some(scenes) = scenes.placed() else {
        return unfit;
    };
    placed_fault(&nodes, &scenes)
}

// Refusal 66: a count or a list passes its capacity, or one of rules 41 to 46 is broken.
#[tactic(auto, unfolding(crate::specs::Packing::packed_refused, crate::specs::Results::outcome_of))]
pub fn is_refused(nodes: Packed, scenes: Packed) -> bool
    ensures { result ≡ packed_refused
        nodes.entry.starts.now nodes.entry.lengths.now nodes.entry.entries.now nodes.entry.count
        scenes.entry.starts.now scenes.entry.lengths.now scenes.entry.entries.now scenes.entry.count }
{
    packed_fault(nodes, scenes).is_err()
}
