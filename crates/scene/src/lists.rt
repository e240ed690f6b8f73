// The walk on packed lists: 64, then 66, then 65.
ghost use Rattle.std.specs.Prelude.{◌≡◌, ◌<◌};
ghost use Rattle.scene.specs.Results.{walked_of};
ghost use Rattle.scene.specs.Steps.{walk_lists, walk_packed};

use crate::Refusal;
use crate::tree::{Nodes, Tree};
use graph::packed::{Packed, is_refused};

// The children lists of the nodes, the root lists of the scenes, and one of these scenes.
#[tactic(auto, unfolding(crate::specs::Steps::walk_lists))]
fn walk_lists<'a>(
    nodes: Packed<'a>,
    scenes: Packed<'a>,
    scene: usize,
    list: &mut [u16],
) -> Result<usize, Refusal>
    requires { scene < scenes.count }
    ensures { let walk = walk_lists
        nodes.entry.starts.now nodes.entry.lengths.now nodes.entry.entries.now nodes.entry.count
        scenes.entry.starts.now scenes.entry.lengths.now scenes.entry.entries.now scenes.entry.count
        scene list.old in
        (walked_of result ≡ walk.walked) × (list.new ≡ walk.list) }
{
    if is_refused(nodes, scenes) {
        return Err(Refusal::Unfit);
    }
    let tree = Tree {
        starts: &nodes.starts[..nodes.count],
        lengths: &nodes.lengths[..nodes.count],
        children: nodes.entries,
    };
    let start = scenes.starts[scene] as usize;
    let end = start + (scenes.lengths[scene] as usize);
    let roots = Nodes {
        tree: &tree,
        list: &scenes.entries[start..end],
    };
    roots.walk(128, list)
}

// The same for any scene number. `over`: one of the counts that are not asked here passes its capacity.
#[tactic(auto, unfolding(crate::specs::Steps::walk_packed))]
pub fn walk_packed(
    over: bool,
    nodes: Packed,
    scenes: Packed,
    scene: usize,
    list: &mut [u16],
) -> Result<usize, Refusal>
    ensures { let walk = walk_packed over
        nodes.entry.starts.now nodes.entry.lengths.now nodes.entry.entries.now nodes.entry.count
        scenes.entry.starts.now scenes.entry.lengths.now scenes.entry.entries.now scenes.entry.count
        scene list.old in
        (walked_of result ≡ walk.walked) × (list.new ≡ walk.list) }
{
    if (scenes.count <= scene) | (8 <= scene) {
        return Err(Refusal::NoScene);
    }
    if over {
        return Err(Refusal::Unfit);
    }
    walk_lists(nodes, scenes, scene, list)
}
