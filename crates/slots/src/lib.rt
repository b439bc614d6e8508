// What stands in a node's three slots, the Rust's `NodeRestriction`: a child, an empty place, a fixed leaf, or a leaf whose pair has no mode yet; each is the number that it stands as. And, by that, the nodes of a round.
#![tactic(auto)]

ghost use Rattle.std.specs.Prelude.{◌≡◌, ◌+◌, ◌*◌, ◌≤◌, ◌<◌, length};
ghost use Rattle.entities.specs.Limits.{most_modes};
ghost use Rattle.slots.specs.code.Numbers.{number_unfixed, number_leaf};
ghost use Rattle.slots.specs.Slots.{leaf_slot, slot_of, stands_as};

use entities::parents;

pub mod heuristics;
pub mod nodes;
pub mod restrictions;

// A leaf's number once its pair has a mode; until then a number behind all others.
fn leaf_slot(modes: usize, mode: usize, parity: usize) -> u16
    requires { (modes ≤ most_modes) × (parity ≤ 1) }
    ensures { (result ≡ stands_as modes (leaf_slot modes mode parity)) × (result ≤ 3 * modes + 2) }
{
    if mode < modes {
        return (2 * mode + parity) as u16;
    }
    (3 * modes + 1 + parity) as u16
}

// The number of the slot of a child code, where `assigned` has the mode of each pair or, where it has none, the number of modes.
pub fn slot_of(modes: usize, assigned: &[u16], code: usize) -> u16
    requires { (modes ≤ most_modes) × (length assigned.now ≡ modes) }
    ensures { (result ≡ stands_as modes (slot_of modes assigned.now code)) × (result ≤ 3 * modes + 2) }
{
    if code < modes {
        return parents::parent_number(modes, code);
    }
    if 3 * modes <= code {
        return (2 * modes) as u16;
    }
    let leaf = code - modes;
    let pair = leaf / 2;
    leaf_slot(modes, usize::from(assigned[pair]), leaf % 2)
}

// The slot is a leaf that isn't fixed yet.
#[tactic(auto, unfolding(crate::specs::code::Numbers::number_unfixed))]
pub fn unfixed(modes: usize, slot: u16) -> bool
    requires { modes ≤ most_modes }
    ensures { result ≡ number_unfixed modes slot }
{
    3 * modes < usize::from(slot)
}

// The leaf that an unfixed slot takes of a mode: its parity.
#[tactic(auto, unfolding(crate::specs::code::Numbers::number_leaf))]
pub fn leaf_of(modes: usize, slot: u16, mode: u16) -> u16
    requires { (modes ≤ most_modes) × (mode < modes) × (3 * modes < slot) × (slot ≤ 3 * modes + 2) }
    ensures { result ≡ number_leaf modes slot mode }
{
    2 * mode + (slot - (3 * modes + 1) as u16)
}
