// The lines of a tree's text read as rows of four numbers: label, X, Y, Z.
#![tactic(auto)]

ghost use Rattle.std.specs.Prelude.{◌≡◌, ◌+◌, ◌*◌, ◌≤◌, length};
ghost use Rattle.entities.specs.Limits.{most_modes};
ghost use Rattle.nodes_text.specs.TreeInput.{tree_said};
ghost use Rattle.nodes_text.specs.code.Reading.{NodeRead, NodePut, Reads};

use entities::codes;
use fields::{lines, numbers};
use refusal::Refusal;

mod code_fields;

// The row of the node that a line, LF included, says.
// A yes or no: what is read stands in the lent room, and an Option would hold nothing.
fn read_node(line: &[u8], row: &mut [u16]) -> bool
    requires { length row.old ≡ 4 }
    ensures { NodeRead line.now row.new result }
{
    if !numbers::opens(line, b"node\t") {
        return false;
    }
    let end = line.len() - 1;
    if !code_fields::read_codes(&line[5..end], row) {
        return false;
    }
    // a label is a number
    row[0] != codes::ABSENT
}

// The row of a line put behind the first `count` rows. `terms_text::put_term` is this with another width and reader: a closure for the reader would need a longer contract than the two have.
// A yes or no: what is read stands in the lent room, and an Option would hold nothing.
fn put_row(line: &[u8], rows: &mut [u16], count: usize) -> bool
    requires { 4 * count + 4 ≤ length rows.old }
    ensures { NodePut line.now (4 * count) rows.old rows.new result }
{
    let from = 4 * count;
    let end = from + 4;
    read_node(line, &mut rows[from..end])
}

// What a text says, its nodes' rows put over the front of the lent ones.
pub fn read_nodes(text: &[u8], rows: &mut [u16; 1024]) -> Result<usize, Refusal>
    ensures { Reads most_modes (tree_said most_modes text.now) rows.new result }
{
    let mut count = 0;
    for line in lines::lines_of(text) {
        if count == 256 {
            return Err(Refusal::Malformed(count));
        }
        if !put_row(line, rows, count) {
            return Err(Refusal::Malformed(count));
        }
        count += 1;
    }
    // bytes behind the last LF are a line without one
    if lines::kept_bytes(text) < text.len() {
        return Err(Refusal::Malformed(count));
    }
    if count == 0 {
        return Err(Refusal::Malformed(0));
    }
    Ok(count)
}
