// The choice of a round: the least weight over the choices of its nodes, on a tie the largest z, y, x.
#![tactic(auto)]

ghost use Rattle.std.specs.Prelude.{◌≡◌, true, ◌*◌, ◌≤◌, eqb, ltb, length, take};
ghost use Rattle.lists.specs.Members.{every, some_of};
ghost use Rattle.entities.specs.Limits.{most_modes, most_terms, row_width};
ghost use Rattle.terms.specs.Rows.{terms_of};
ghost use Rattle.choice.specs.Choices.{unassigned};
ghost use Rattle.choice.specs.code.Seeking.{worst, sought_over};

mod comparing;
mod seeking;

use crate::seeking::Seeking;
use entities::Triple;
use slots::nodes;
use slots::restrictions::TreeRestrictions;
use tallying::gathered::GatheredRows;

// The best choice so far: its weight, its node, and the numbers that the node's three slots are to stand as.
#[derive(Clone, Copy)]
pub struct Selection {
    pub min_weight: usize,
    pub min_parent: u16,
    pub leaf_indices: Triple,
}

// Whether `mode` is one of the pairs'.
fn is_assigned(assigned: &[u16], mode: u16) -> bool
    ensures { result ≡ some_of (eqb mode) assigned.now }
{
    assigned.contains(&mode)
}

// Whether no mode is unassigned.
pub fn all_assigned(modes: usize, assigned: &[u16]) -> bool
    requires { modes ≤ most_modes }
    ensures { result ≡ eqb (length (unassigned modes assigned.now)) 0 }
{
    (0..modes).all(|mode| is_assigned(assigned, mode as u16))
}

// Puts the modes that no pair has yet, ascending, at the front of `free`; returns how many there are.
pub fn fill_unassigned(modes: usize, assigned: &[u16], free: &mut [u16]) -> usize
    requires { (modes ≤ most_modes) × (modes ≤ length free.old) }
    ensures { (result ≤ modes) × (take result free.new ≡ unassigned modes assigned.now) }
{
    let mut count = 0;
    for mode in 0..modes {
        let taken = is_assigned(assigned, mode as u16);
        count = nodes::put_if(free, count, mode as u16, !taken);
    }
    count
}

// The best of all choices of the nodes in `active`, weighed in the first `count` rows; in how many of these each leaf is odd is counted once for all nodes.
pub fn select<'a>(
    gathered: &GatheredRows<'a>,
    given: &TreeRestrictions<'a>,
    free: &'a [u16],
    active: &'a [u16],
) -> Selection
    requires free_value { free.now ≡ unassigned given.now.modes given.now.assigned.now }
    requires active_value { every (λ node. ltb node given.now.modes) active.now ≡ true }
    ensures { result ≡ sought_over given.now.modes given.now.tree.now given.now.assigned.now (terms_of row_width gathered.now.count gathered.now.rows.now) (worst gathered.now.count) active.now }
{
    let mut odds = [0u16; 512];
    tallying::odds::count_odds(gathered, &mut odds);
    let seeking = Seeking {
        given: *given,
        free,
        gathered: *gathered,
        odds: &odds,
    };
    seeking.best_of_nodes(active)
}
