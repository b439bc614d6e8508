// A tree's text as its table: the nodes' rows read, and laid out by label.
ghost use Rattle.entities.specs.Limits.{most_modes};
ghost use Rattle.nodes_text.specs.TreeInput.{tree_said};
ghost use Rattle.tree_text.specs.code.Reading.{ReadsTree};

use refusal::Refusal;
use tree::laying;

// What a text says, its rows and their table put over the fronts of what is lent.
pub fn read_tree(
    text: &[u8],
    rows: &mut [u16; 1024],
    table: &mut [u16; 768],
) -> Result<usize, Refusal>
    ensures { ReadsTree most_modes (tree_said most_modes text.now) rows.new table.new result }
{
    let count = nodes_text::read_nodes(text, rows)?;
    let end = 4 * count;
    laying::lay_front(&rows[..end], table);
    Ok(count)
}
