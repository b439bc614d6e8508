// The tree that a text's run ends in, printed as a Newick line.
#![tactic(auto)]

ghost use Rattle.std.specs.Prelude.{◌≡◌};
ghost use Rattle.entities.specs.Limits.{most_modes};
ghost use Rattle.tree.specs.Writing.{text_after};
ghost use Rattle.newick.specs.Writing.{newick_text};
ghost use Rattle.newick.specs.Calls.{newick_written};
ghost use Rattle.text.specs.Running.{program_rooms, printed_room};
ghost use Rattle.text.specs.Output.{Prints};
ghost use Rattle.newick_line.specs.NewickLine.{newick_answer_text};
ghost use Rattle.newick_line.specs.code.Lines.{table_line, line_room};
ghost use Rattle.text.specs.code.Printing.{Puts};

use newick::writing;
use refusal::Refusal;
use terms::rules::Rule;
use terms_text::jobs::Request;
use text::{Printed, output};

// A tree's text written over the front, with room for a byte behind it.
fn write_text(out: &mut [u8; 16384], modes: usize, tree: &[u16]) -> Result<usize, Refusal>
    ensures value { result ≡ newick_written most_modes modes tree.now line_room }
    ensures out_after { out.new ≡ text_after result (newick_text modes tree.now) out.old }
{
    writing::write_newick(modes, tree, &mut out[..16383])
}

// A tree's line printed over the front; how many bytes that is.
fn put_line(out: &mut [u8; 16384], modes: usize, tree: &[u16]) -> usize
    ensures { Puts (table_line most_modes line_room modes tree.now) out.old out.new result }
{
    match write_text(out, modes, tree) {
        Err(refusal) => output::put_refusal(out, refusal),
        Ok(count) => {
            out[count] = b'\n';
            count + 1
        }
    }
}

// The answer to a text printed over the front, in lent room for its table; how many bytes that is.
fn print_newick(input: &[u8], table: &mut [u16; 768], out: &mut [u8; 16384]) -> usize
    ensures { Puts (newick_answer_text program_rooms input.now) out.old out.new result }
{
    let asks = Request {
        rule: Rule::Published,
        text: input,
    };
    match ran_tree::run_tree(&asks, table) {
        Err(refusal) => output::put_refusal(out, refusal),
        Ok(modes) => {
            let end = 3 * modes;
            put_line(out, modes, &table[..end])
        }
    }
}

// The answer to a text as a Newick line.
pub fn answer_newick(input: &[u8]) -> Printed<[u8; 16384]>
    ensures { Prints printed_room (newick_answer_text program_rooms input.now) result }
{
    let mut table = [0u16; 768];
    Printed::by([0; 16384], |out| print_newick(input, &mut table, out))
}
