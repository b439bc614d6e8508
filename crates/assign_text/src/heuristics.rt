// The heuristics by their names.
ghost use Rattle.std.specs.Prelude.{◌≡◌};
ghost use Rattle.assign_text.specs.Assigning.{heuristic_of};

use fields::parts;

// The number of the heuristic with this name, and one that no heuristic has where there is none, so that 17 comes in its turn, behind the refusals of the tree.
pub fn heuristic_of(name: &[u8]) -> usize
    ensures { result ≡ heuristic_of name.now }
{
    if parts::same_bytes(name, b"min_weight") {
        return 0;
    }
    if parts::same_bytes(name, b"x_first") {
        return 1;
    }
    if parts::same_bytes(name, b"z_first") {
        return 2;
    }
    3
}
