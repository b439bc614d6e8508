// How long the text of a tree's strings is, before a byte of it is written.
ghost use Rattle.std.specs.Prelude.{◌≡◌, ◌≤◌};
ghost use Rattle.entities.specs.Limits.{most_modes};
ghost use Rattle.strings.specs.Text.{strings_length};

use fields::decimal;

// Counts the bytes that the strings of `modes` modes take up, whatever the tree.
pub fn strings_length(modes: usize) -> usize
    requires { modes ≤ most_modes }
    ensures { result ≡ strings_length modes }
{
    (0..2 * modes)
        .map(|majorana| decimal::digit_count(majorana as u64) + (modes + 2))
        .sum()
}
