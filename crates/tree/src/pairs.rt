// The pairs: leaves 2k and 2k+1 end the z-chains from one node's X and Y children, 2k under X.
ghost use Rattle.std.specs.Prelude.{◌≡◌, ◌<◌};
ghost use Rattle.tree.specs.Pairs.{chain_end, pair_under, pair_right, pairs_right};

use crate::table;
use crate::table::TreeTable;

impl TreeTable<'_> {
    // The code that ends the z-chain from this one.
    fn chain_end(&self, code: usize) -> usize
        ensures { result ≡ chain_end self.now.modes self.now.tree.now self.now.modes code }
    {
        let mut at = code;
        for _ in 0..self.modes {
            if self.modes <= at {
                return at;
            }
            at = table::child(self.tree, at, 2);
        }
        at
    }

    // Pair k ends the z-chains from this node's X and Y children.
    #[tactic(auto, unfolding(crate::specs::Pairs::pair_under))]
    fn pair_under(&self, k: usize, node: usize) -> bool
        requires { (k < self.now.modes) × (node < self.now.modes) }
        ensures { result ≡ pair_under self.now.modes self.now.tree.now k node }
    {
        let even = self.modes + 2 * k;
        self.chain_end(table::child(self.tree, node, 0)) == even
            && self.chain_end(table::child(self.tree, node, 1)) == even + 1
    }

    // Pair k ends the z-chains from some node's X and Y children.
    fn pair_right(&self, k: usize) -> bool
        requires { k < self.now.modes }
        ensures { result ≡ pair_right self.now.modes self.now.tree.now k }
    {
        (0..self.modes).any(|node| self.pair_under(k, node))
    }

    // How many pairs are right before the least k whose pair is wrong.
    pub(crate) fn pairs_right(&self) -> usize
        ensures { result ≡ pairs_right self.now.modes self.now.tree.now }
    {
        (0..self.modes)
            .position(|k| !self.pair_right(k))
            .unwrap_or(self.modes)
    }
}
