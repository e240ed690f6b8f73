// Rule 43, and the smallest rule broken.
ghost use Rattle.std.specs.Prelude.{◌≡◌, ◌==◌, length, position};
ghost use Rattle.graph.specs.Stream.{endless_in, first_endless, roots_verdict, verdict_of};
ghost use Rattle.graph.specs.Results.{item_below, outcome_of};

use crate::lists::entry;
use crate::roots::Roots;

// A rule's number and the smallest item that breaks it.
// Stays: a number, since `graph_fault`, the theorems on it and glb's rule table have the rules by their numbers.
#[derive(Clone, Copy, Debug, PartialEq, Eq)]
pub struct Fault {
    pub number: u32,
    pub item: usize,
}

// The smallest child met twice.
fn first_twice(parents: &[u16]) -> Option<usize>
    ensures { result ≡ position (λ x. x == 65535) parents.now }
{
    parents.iter().position(|parent| *parent == 65535)
}

// Whether the way up from x does not end in as many steps as there are nodes.
#[tactic(auto, unfolding(crate::specs::Stream::endless_in))]
fn is_endless(parents: &[u16], x: usize) -> bool
    ensures { result ≡ endless_in parents.now x }
{
    let n = parents.len();
    let mut at = x;
    for _ in 0..n {
        if n <= at {
            return false;
        }
        at = entry(parents, at, n);
    }
    at < n
}

// The smallest node from which the way up does not end.
fn first_endless(parents: &[u16]) -> Option<usize>
    ensures { result ≡ item_below (length parents.now) (first_endless parents.now) }
{
    for x in 0..parents.len() {
        if is_endless(parents, x) {
            return Some(x);
        }
    }
    None
}

// The smallest of rules 44 to 46 that is broken, after all roots.
#[tactic(auto, unfolding(crate::specs::Stream::roots_verdict, crate::specs::Results::outcome_of))]
fn roots_verdict(scenes: u16, found: Roots) -> Result<(), Fault>
    ensures { result ≡ outcome_of (roots_verdict scenes found) }
{
    let Roots {
        past,
        twice,
        parented,
    } = found;
    if past < scenes {
        return Err(Fault {
            number: 44,
            item: past as usize,
        });
    }
    if twice < scenes {
        return Err(Fault {
            number: 45,
            item: twice as usize,
        });
    }
    if parented < scenes {
        return Err(Fault {
            number: 46,
            item: parented as usize,
        });
    }
    Ok(())
}

// The smallest rule broken, after all children and all roots.
#[tactic(auto, unfolding(crate::specs::Stream::verdict_of, crate::specs::Results::outcome_of, crate::specs::Results::item_below))]
pub fn verdict(past: u16, parents: &[u16], scenes: u16, found: Roots) -> Result<(), Fault>
    ensures { result ≡ outcome_of (verdict_of past parents.now scenes found) }
{
    if (past as usize) < parents.len() {
        return Err(Fault {
            number: 41,
            item: past as usize,
        });
    }
    if let Some(item) = first_twice(parents) {
        return Err(Fault { number: 42, item });
    }
    if let Some(item) = first_endless(parents) {
        return Err(Fault { number: 43, item });
    }
    roots_verdict(scenes, found)
}
