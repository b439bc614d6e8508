// The numbers of parents.
ghost use Rattle.std.specs.Prelude.{◌≡◌, ◌≤◌};
ghost use Rattle.entities.specs.Parents.{parent_number};
ghost use Rattle.entities.specs.Limits.{most_modes};

// "Its parent is 2n+1+i", and a node's number in a row is its parent's.
pub fn parent_number(modes: usize, node: usize) -> u16
    requires { (modes ≤ most_modes) × (node ≤ most_modes) }
    ensures { result ≡ parent_number modes node }
{
    (2 * modes + 1 + node) as u16
}
