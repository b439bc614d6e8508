// What is known of the given tree in a round, the Rust's `TreeRestrictions`, and the slots of its nodes.
ghost use Rattle.std.specs.Prelude.{◌≡◌, ◌+◌, ◌*◌, ◌≤◌, ◌<◌, length};
ghost use Rattle.entities.specs.Limits.{most_modes};
ghost use Rattle.slots.specs.code.Promises.{SlotsAre};
ghost use Rattle.slots.specs.Slots.{slot as slot_at, stands_as};

use entities::Triple;
use tree::table;

// The given tree in a round: its codes, and the mode of each pair of leaves or, where it has none yet, the number of modes.
#[derive(Clone, Copy)]
pub struct TreeRestrictions<'a> {
    pub modes: usize,
    pub tree: &'a [u16],
    pub assigned: &'a [u16],
    pub ghost few: { modes ≤ most_modes },
    pub ghost whole: { length tree.now ≡ 3 * modes },
    pub ghost by_pair: { length assigned.now ≡ modes },
}

impl TreeRestrictions<'_> {
    // The number of a node's slot under X (edge 0), Y (1) or Z (2).
    #[tactic(auto, unfolding(crate::specs::Slots::slot))]
    fn slot(&self, node: usize, edge: usize) -> u16
        requires { (node < self.now.modes) × (edge < 3) }
        ensures { (result ≡ stands_as self.now.modes (slot_at self.now.modes self.now.tree.now self.now.assigned.now node edge)) × (result ≤ 3 * self.now.modes + 2) }
    {
        crate::slot_of(
            self.modes,
            self.assigned,
            table::child(self.tree, node, edge),
        )
    }

    // A node's three slots.
    pub fn slots(&self, node: usize) -> Triple
        requires { node < self.now.modes }
        ensures { SlotsAre self.now.modes self.now.tree.now self.now.assigned.now node result }
    {
        Triple {
            x: self.slot(node, 0),
            y: self.slot(node, 1),
            z: self.slot(node, 2),
        }
    }
}
