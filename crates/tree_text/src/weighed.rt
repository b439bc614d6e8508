// What `weigh` answers to the text of a tree and the text of its terms, and how that is printed.
ghost use Rattle.std.specs.Prelude.{◌≡◌};
ghost use Rattle.entities.specs.Limits.{most_modes, most_terms};
ghost use Rattle.terms_text.specs.Input.{said};
ghost use Rattle.nodes_text.specs.TreeInput.{tree_said};
ghost use Rattle.text.specs.code.Printing.{Puts};
ghost use Rattle.tree_text.specs.Answers.{weighed_with, weighed_as, weigh_printed};

use crate::trees;
use refusal::Refusal;
use text::output;

// The weight of a table for the text of terms, in lent room for their numbers.
fn weigh_read(table: &[u16], input: &[u8], numbers: &mut [u16; 16384]) -> Result<u64, Refusal>
    ensures { result ≡ weighed_with most_modes table.now (said most_terms input.now) }
{
    let given = terms_text::read_input(input, numbers)?;
    let end = 8 * given.count;
    tree_weight::tree_weight(given.modes, table, &numbers[..end])
}

// The same with room of its own.
fn weigh_terms(table: &[u16], input: &[u8]) -> Result<u64, Refusal>
    ensures { result ≡ weighed_with most_modes table.now (said most_terms input.now) }
{
    let mut numbers = [0u16; 16384];
    weigh_read(table, input, &mut numbers)
}

// The weight of what two texts say, in lent room for the tree's rows and its table.
pub fn weigh_said(
    tree: &[u8],
    input: &[u8],
    rows: &mut [u16; 1024],
    table: &mut [u16; 768],
) -> Result<u64, Refusal>
    ensures { result ≡ weighed_as most_modes (tree_said most_modes tree.now) (said most_terms input.now) }
{
    let modes = trees::read_tree(tree, rows, table)?;
    let end = 3 * modes;
    weigh_terms(&table[..end], input)
}

// A weight printed over the front; how many bytes that is.
pub fn put_weighed(out: &mut [u8; 16384], found: Result<u64, Refusal>) -> usize
    ensures { Puts (weigh_printed found) out.old out.new result }
{
    match found {
        Err(refusal) => output::put_refusal(out, refusal),
        Ok(weight) => output::put_value(out, 0, b"weight\t", weight),
    }
}
