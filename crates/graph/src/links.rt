// Children, one at a time. Entry x of the list of parents is the node that lists x as a child, the list's length while
// none does, and 65535 once x was met twice.
ghost use Rattle.std.specs.Prelude.{◌≡◌, length};
ghost use Rattle.graph.specs.Stream.{link_past, link_parents};

// Stays: the list's length for no parent, 65535 for two, and the list's length for no such node are numbers, since the
// definitions `link_past` and `link_parents`, and the theorems on them, speak of the numbers.
// One child of a node. The answer is the smallest node so far with a child that is no node.
#[tactic(auto, unfolding(crate::specs::Stream::link_past, crate::specs::Stream::link_parents, crate::specs::Stream::earlier))]
pub fn link(past: u16, parents: &mut [u16], node: u16, child: u32) -> u16
    ensures { (result ≡ link_past (length parents.old) past node child)
        × (parents.new ≡ link_parents parents.old node child) }
{
    let n = parents.len();
    let x = child as usize;
    if n <= x {
        return past.min(node);
    }
    if (parents[x] as usize) == n {
        parents[x] = node;
    } else {
        parents[x] = 65535;
    }
    past
}
