// How long the text of a tree is, before a byte of it is written.
ghost use Rattle.std.specs.Prelude.{◌≡◌, ◌+◌, ◌*◌, ◌≤◌};
ghost use Rattle.entities.specs.Limits.{most_modes};
ghost use Rattle.newick.specs.Writing.{mode_length, text_length};

use fields::decimal;

// How many bytes a mode takes up: its node's parentheses, commas and name, and the names of its two leaves.
fn mode_length(mode: usize) -> usize
    requires { mode ≤ most_modes }
    ensures { (result ≡ mode_length mode) × (result ≤ 67) }
{
    let label = decimal::digit_count(mode as u64);
    let even = decimal::digit_count((2 * mode) as u64);
    let odd = decimal::digit_count((2 * mode + 1) as u64);
    7 + label + even + odd
}

// How many bytes the text of a tree of so many modes has, whatever the tree.
pub fn text_length(modes: usize) -> usize
    requires { modes ≤ most_modes }
    ensures { (result ≡ text_length modes) × (result ≤ 2 + 67 * modes) }
{
    2 + (0..modes).map(mode_length).sum::<usize>()
}
