// Nodes and all under them, into a lent list.
ghost use Rattle.std.specs.Prelude.{◌≡◌, ◌+◌, ◌≤◌, length};
ghost use Rattle.scene.specs.Steps.{written};
ghost use Rattle.scene.specs.Trees.{order_from};

use crate::tree::Nodes;

impl<'a> Nodes<'a> {
    // Writes the nodes in listed order, each with all under it, from `at` on. The answer is the place after them.
    #[tactic(auto, using(crate::proofs::Unders::walking))]
    pub(crate) fn write(&self, left: u32, list: &mut [u16], at: usize) -> usize
        requires { at + length (order_from self.now left) ≤ length list.old }
        ensures { (result ≡ at + length (order_from self.now left))
            × (list.new ≡ written list.old at (order_from self.now left)) }
    {
        if left == 0 {
            return at;
        }
        let mut next = at;
        for node in self.list {
            list[next] = *node;
            next = self.children_of(*node).write(left - 1, list, next + 1);
        }
        next
    }
}
