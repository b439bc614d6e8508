// What `check` answers to a tree's text, and how that is printed.
ghost use Rattle.std.specs.Prelude.{◌≡◌};
ghost use Rattle.entities.specs.Limits.{most_modes};
ghost use Rattle.nodes_text.specs.TreeInput.{tree_said};
ghost use Rattle.text.specs.code.Printing.{Puts};
ghost use Rattle.tree_text.specs.Answers.{checked_as, check_printed};

use crate::trees;
use refusal::Refusal;
use text::output;

// The check of what a text says, in lent room for its rows and its table.
pub fn check_said(
    tree: &[u8],
    rows: &mut [u16; 1024],
    table: &mut [u16; 768],
) -> Result<(), Refusal>
    ensures { result ≡ checked_as most_modes (tree_said most_modes tree.now) }
{
    let modes = trees::read_tree(tree, rows, table)?;
    let end = 3 * modes;
    tree::check_tree(modes, &table[..end])
}

// A check printed over the front; how many bytes that is.
pub fn put_checked(out: &mut [u8; 16384], found: Result<(), Refusal>) -> usize
    ensures { Puts (check_printed found) out.old out.new result }
{
    match found {
        Ok(()) => 0,
        Err(refusal) => output::put_refusal(out, refusal),
    }
}
