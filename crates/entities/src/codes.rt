// The codes of children.
ghost use Rattle.std.specs.Prelude.{◌≡◌, ◌≤◌};
ghost use Rattle.entities.specs.Codes.{child_code};
ghost use Rattle.entities.specs.Limits.{most_modes};

use crate::parents;

// The code of the one absent child.
pub const ABSENT: u16 = 65535;

// The child code of an entity; the leaf at the root's z-end is the absent child.
pub fn code(modes: usize, end: u16, entity: u16) -> u16
    requires { modes ≤ most_modes }
    ensures { result ≡ child_code modes end entity }
{
    if entity == end {
        return ABSENT;
    }
    let leaves = parents::parent_number(modes, 0);
    if entity < leaves {
        return entity + modes as u16;
    }
    entity - leaves
}
