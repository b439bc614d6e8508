// One tree: each leaf, the absent child and each node but the root once, and every node reached from the root.
ghost use Rattle.std.specs.Prelude.{◌≡◌, cond, eqb};
ghost use Rattle.lists.specs.Counting.{occurrences};
ghost use Rattle.lists.specs.Members.{every};
ghost use Rattle.tree.specs.Table.{nodes, climb as climbed};
ghost use Rattle.tree.specs.OneTree.{leaves_once, one_tree};

use crate::table;
use crate::table::TreeTable;
use entities::codes;

// How often a node is to stand in the table: the root nowhere, any other once.
fn times_due(node: usize, root: usize) -> usize
    ensures { result ≡ cond (eqb node root) 0 1 }
{
    usize::from(node != root)
}

impl TreeTable<'_> {
    // Each leaf stands once.
    fn leaves_once(&self) -> bool
        ensures { result ≡ leaves_once self.now.modes self.now.tree.now }
    {
        (self.modes..3 * self.modes).all(|leaf| table::count(self.tree, leaf) == 1)
    }

    // Each node but the root stands once, and the root nowhere.
    fn nodes_once(&self, root: usize) -> bool
        ensures { result ≡ every (λ node. eqb (occurrences node self.now.tree.now) (cond (eqb node root) 0 1)) (nodes self.now.modes) }
    {
        (0..self.modes).all(|node| table::count(self.tree, node) == times_due(node, root))
    }

    // The way up from each node arrives at the root.
    fn all_reached(&self, root: usize) -> bool
        ensures { result ≡ every (λ node. eqb (climbed self.now.tree.now self.now.modes node) root) (nodes self.now.modes) }
    {
        (0..self.modes).all(|node| table::climb(self.tree, self.modes, node) == root)
    }

    // One root, every node reached, each other node and each leaf exactly once, one absent child.
    #[tactic(auto, unfolding(crate::specs::OneTree::one_tree, crate::specs::OneTree::absent_once, crate::specs::OneTree::nodes_once, crate::specs::OneTree::all_reached, crate::specs::OneTree::root_of))]
    pub(crate) fn one_tree(&self) -> bool
        ensures { result ≡ one_tree self.now.modes self.now.tree.now }
    {
        if !self.leaves_once() || table::count(self.tree, codes::ABSENT as usize) != 1 {
            return false;
        }
        let root = table::climb(self.tree, self.modes, 0);
        self.nodes_once(root) && self.all_reached(root)
    }
}
