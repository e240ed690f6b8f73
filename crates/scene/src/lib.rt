// The walk of a scene, numbers 64 to 66: the nodes at or under its roots, written into a lent list.
#![tactic(auto)]

ghost use Rattle.std.specs.Prelude.{◌≡◌};
ghost use Rattle.scene.specs.Results.{number_of, walked_of};
ghost use Rattle.scene.specs.Walk.{walk_of};

use crate::lists::walk_packed;
use crate::places::Places;
use tables::Tables;

pub mod lists; // lists.rt: the walk on packed lists
mod places; // places.rt: packed lists of the tables
mod roots; // roots.rt: the roots of a scene
mod size; // size.rt: how many nodes are found
mod subtree; // subtree.rt: the nodes written
mod tree; // tree.rt: lists of children that are all nodes

// Why a scene is not walked.
#[derive(Clone, Copy, Debug, PartialEq, Eq, Hash)]
pub enum Refusal {
    // The scene index is not below the count or 8.
    NoScene,
    // The list is shorter than the nodes that are found.
    NoRoom,
    // A count or a list passes its capacity, or one of rules 41 to 46 is broken.
    Unfit,
}

impl Refusal {
    // The refusal's number: 64, 65 or 66.
    pub fn number(self) -> u32
        ensures { result ≡ number_of self }
    {
        match self {
            Refusal::NoScene => 64,
            Refusal::NoRoom => 65,
            Refusal::Unfit => 66,
        }
    }
}

// A walk's answer as C has it: the number is 0 where the scene is walked, the count then how many entries of the list
// were written.
// Stays: the C interface and the definition `walk_of` have the number and the count.
#[repr(C)]
#[derive(Clone, Copy)]
pub struct Walked {
    pub number: u32,
    pub count: usize,
}

impl From<Result<usize, Refusal>> for Walked {
    ghost from_gives = { λ answer walked. walked ≡ walked_of answer };

    fn from(answer: Result<usize, Refusal>) -> Walked {
        match answer {
            Ok(count) => Walked { number: 0, count },
            Err(refusal) => Walked {
                number: refusal.number(),
                count: 0,
            },
        }
    }
}

// How many nodes of the scene were written into the list. Refused, the list is unchanged; entries past the count stay.
// Stays: children and roots are copied out. Where they were lent from `t` itself, a walk copied all of the tables.
pub fn walk(t: Tables, scene: u32, list: &mut [u16]) -> Result<usize, Refusal>
    ensures { (walked_of result ≡ (walk_of t scene list.old).walked)
        × (list.new ≡ (walk_of t scene list.old).list) }
{
    let over = (1 < t.buffers) | (64 < t.views) | (128 < t.accessors);
    let nodes = Places::from(t.node_lists);
    let scenes = Places::from(t.scene_lists);
    let children = t.children;
    let roots = t.roots;
    walk_packed(
        over,
        nodes.packed(&children, t.nodes as usize),
        scenes.packed(&roots, t.scenes as usize),
        scene as usize,
        list,
    )
}
