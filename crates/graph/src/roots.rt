// Roots, one at a time.
ghost use Rattle.std.specs.Prelude.{◌≡◌, set};
ghost use Rattle.graph.specs.Stream.{root_of};

use crate::lists::{earlier_of, entry};

// The smallest scene so far with a root that is no node (44), with one that it lists twice (45), with one that has a
// parent (46).
// Stays: the number of scenes for no such scene, since the definitions `root_of` and `roots_found`, and the theorems on
// them, speak of the numbers.
#[derive(Clone, Copy)]
pub struct Roots {
    pub past: u16,
    pub twice: u16,
    pub parented: u16,
}

// One root of a scene. Entry x of the marks is the last scene that listed x.
#[tactic(auto, unfolding(crate::specs::Stream::root_of, crate::specs::Stream::earlier))]
pub fn root(found: Roots, marks: &mut [u16], parents: &[u16], scene: u16, node: u32) -> Roots
    ensures { (result ≡ root_of found marks.old parents.now scene node)
        × (marks.new ≡ set marks.old node scene) }
{
    let n = marks.len();
    let x = node as usize;
    let parent = entry(parents, x, parents.len());
    let parented = earlier_of(parent < parents.len(), scene, found.parented);
    if n <= x {
        return Roots {
            past: found.past.min(scene),
            parented,
            ..found
        };
    }
    let twice = earlier_of(marks[x] == scene, scene, found.twice);
    marks[x] = scene;
    Roots {
        twice,
        parented,
        ..found
    }
}
