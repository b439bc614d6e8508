// Names of a text, read before the number of modes is known, and their codes once it is.
ghost use Rattle.std.specs.Prelude.{◌≡◌, cond, Some, None, ◌≤◌, length};
ghost use Rattle.entities.specs.Limits.{most_modes};
ghost use Rattle.newick.specs.Names.{in_range, code_of};
ghost use Rattle.newick.specs.code.Promises.{Coded};

use entities::codes;

// The code of `name` in a tree of `modes` modes; none where it is no label, leaf or absent child of it.
#[tactic(auto, unfolding(crate::specs::Names::in_range, crate::specs::Names::code_of))]
fn code_of(modes: usize, name: usize) -> Option<u16>
    requires { modes ≤ most_modes }
    ensures { result ≡ cond (in_range modes name) (Some (code_of modes name)) None }
{
    if name < modes {
        return Some(name as u16);
    }
    if name == 131072 {
        return Some(codes::ABSENT);
    }
    if (65536..65536 + 2 * modes).contains(&name) {
        return Some((modes + (name - 65536)) as u16);
    }
    None
}

// The codes of as many names, where all of them are in range.
// A yes or no: what is read stands in the lent room, and an Option would hold nothing.
pub fn put_codes(modes: usize, names: &[u32], codes: &mut [u16]) -> bool
    requires { (modes ≤ most_modes) × (length codes.old ≡ length names.now) }
    ensures { Coded modes names.now codes.new result }
{
    for (at, name) in names.iter().enumerate() {
        let Some(code) = code_of(modes, *name as usize) else {
            return false;
        };
        codes[at] = code;
    }
    true
}
