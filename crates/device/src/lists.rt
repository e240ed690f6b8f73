// The walk of a scene, over the lists that the words are.
ghost use Rattle.std.specs.Prelude.{◌≡◌, ◌+◌, ◌*◌, ◌<◌, ◌≤◌, length};
ghost use Rattle.scene.specs.Results.{walked_of};
ghost use Rattle.scene.specs.Walk.{walk_of};
ghost use Rattle.device.specs.Words.{short, entries, tables_of};

use graph::packed::Packed;
use scene::Refusal;
use scene::lists::walk_packed;

// Every `step`th word from `from` on, as a u16.
fn shorts(words: &[u32; 4000], from: usize, step: usize, out: &mut [u16])
    requires { (0 < step) × (from + step * length out.old ≤ 4000) }
    ensures { out.new ≡ entries (length out.old) (λ i. short words.now (from + step * i)) }
{
    for (i, x) in out.iter_mut().enumerate() {
        *x = words[from + step * i].min(65535) as u16;
    }
}

// Only the counts and the lists are copied.
// Stays: starts and lengths in lists of their own, on the stack: `walk_packed` takes them so, and there is no heap.
pub(crate) fn walk(words: &[u32; 4000], scene: u32, list: &mut [u16]) -> Result<usize, Refusal>
    ensures { (walked_of result ≡ (walk_of (tables_of words.now) scene list.old).walked)
        × (list.new ≡ (walk_of (tables_of words.now) scene list.old).list) }
{
    let over = (1 < words[0]) | (64 < words[1]) | (128 < words[2]);
    let mut node_starts = [0u16; 128];
    let mut node_lengths = [0u16; 128];
    let mut children = [0u16; 128];
    let mut scene_starts = [0u16; 8];
    let mut scene_lengths = [0u16; 8];
    let mut roots = [0u16; 1024];
    shorts(words, 2576, 2, &mut node_starts);
    shorts(words, 2577, 2, &mut node_lengths);
    shorts(words, 2832, 1, &mut children);
    shorts(words, 2960, 2, &mut scene_starts);
    shorts(words, 2961, 2, &mut scene_lengths);
    shorts(words, 2976, 1, &mut roots);
    let nodes = Packed {
        starts: &node_starts,
        lengths: &node_lengths,
        entries: &children,
        count: words[3] as usize,
    };
    let scenes = Packed {
        starts: &scene_starts,
        lengths: &scene_lengths,
        entries: &roots,
        count: words[4] as usize,
    };
    walk_packed(over, nodes, scenes, scene as usize, list)
}
