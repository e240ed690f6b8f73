// How many nodes a walk finds.
ghost use Rattle.std.specs.Prelude.{◌≡◌, ◌<◌, min, [], get_or, length};
ghost use Rattle.scene.specs.Trees.{kids_of_tree, order_from};

use crate::tree::Nodes;

impl<'a> Nodes<'a> {
    // The children of a node.
    pub(crate) fn children_of(&self, node: u16) -> Nodes<'a>
        requires { node < length self.now.tree.now.starts.now }
        ensures { (result.tree ≡ self.now.tree)
            × (result.list.now ≡ get_or (kids_of_tree self.now.tree.now) node []) }
    {
        let tree = self.tree;
        let start = tree.starts[node as usize] as usize;
        let end = start + (tree.lengths[node as usize] as usize);
        Nodes {
            tree,
            list: &tree.children[start..end],
        }
    }

    // How many nodes `write` would write, but no more than cap.
    #[tactic(auto, using(crate::proofs::Unders::walking))]
    pub(crate) fn size(&self, left: u32, cap: usize) -> usize
        ensures { result ≡ min cap (length (order_from self.now left)) }
    {
        if left == 0 {
            return 0;
        }
        let mut count: usize = 0;
        for node in self.list {
            if count == cap {
                return cap;
            }
            count += 1 + self.children_of(*node).size(left - 1, cap - count - 1);
        }
        count
    }
}
