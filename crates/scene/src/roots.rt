// All roots of a scene, each with all under it.
ghost use Rattle.std.specs.Prelude.{◌≡◌};
ghost use Rattle.scene.specs.Results.{walked_of};
ghost use Rattle.scene.specs.Trees.{order_from};
ghost use Rattle.scene.specs.Walk.{listed};

use crate::Refusal;
use crate::tree::Nodes;

impl<'a> Nodes<'a> {
    // Counts first, so that a list that is too short (65) stays as it is.
    #[tactic(auto, using(crate::proofs::Laws::written_front), unfolding(crate::specs::Walk::listed))]
    pub(crate) fn walk(&self, left: u32, list: &mut [u16]) -> Result<usize, Refusal>
        ensures { (walked_of result ≡ (listed (order_from self.now left) list.old).walked)
            × (list.new ≡ (listed (order_from self.now left) list.old).list) }
    {
        let room = list.len();
        let count = self.size(left, room + 1);
        if room < count {
            return Err(Refusal::NoRoom);
        }
        self.write(left, list, 0);
        Ok(count)
    }
}
