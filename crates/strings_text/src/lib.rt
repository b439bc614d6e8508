// The answers of `strings` to the text of a tree or of terms, from bytes to bytes.
#![tactic(auto)]

ghost use Rattle.std.specs.Prelude.{IfOk, ◌≤◌};
ghost use Rattle.entities.specs.Limits.{most_modes};
ghost use Rattle.terms_text.specs.Jobs.{requested};
ghost use Rattle.text.specs.Running.{program_rooms};
ghost use Rattle.text.specs.Output.{Prints};
ghost use Rattle.text.specs.code.Printing.{Puts};
ghost use Rattle.strings_text.specs.Printing.{table_strings, hatt_strings_text, tree_strings_text, strings_room};
ghost use Rattle.strings_text.specs.code.Reading.{read_strings};

use refusal::Refusal;
use terms_text::jobs::Request;
use text::{Printed, output};
use tree_text::trees;

// A tree's strings printed over the front; how many bytes that is.
fn put_strings(out: &mut [u8; 133522], modes: usize, tree: &[u16]) -> usize
    ensures { Puts (table_strings most_modes modes tree.now) out.old out.new result }
{
    match strings::write_strings(modes, tree, out) {
        Err(refusal) => output::put_refusal(out, refusal),
        Ok(count) => count,
    }
}

// The strings of the tree that was read into the front of the table, or why none was, printed over the front; how many bytes that is.
fn put_read(out: &mut [u8; 133522], read: Result<usize, Refusal>, table: &[u16; 768]) -> usize
    requires { IfOk read (λ modes. modes ≤ most_modes) }
    ensures { Puts (read_strings read table.now) out.old out.new result }
{
    match read {
        Err(refusal) => output::put_refusal(out, refusal),
        Ok(modes) => {
            let end = 3 * modes;
            put_strings(out, modes, &table[..end])
        }
    }
}

// What `put_read` puts over zeros; `Printed::by` would hold so large an array twice.
fn print_read(read: Result<usize, Refusal>, table: &[u16; 768]) -> Printed<[u8; 133522]>
    requires { IfOk read (λ modes. modes ≤ most_modes) }
    ensures { Prints strings_room (read_strings read table.now) result }
{
    let mut printed = Printed {
        bytes: [0; 133522],
        count: 0,
    };
    printed.count = put_read(&mut printed.bytes, read, table);
    printed
}

// The strings of the tree that HATT builds for what is asked.
pub fn hatt_strings_answer(asks: &Request) -> Printed<[u8; 133522]>
    ensures { Prints strings_room (hatt_strings_text program_rooms (requested asks.now)) result }
{
    let mut table = [0u16; 768];
    let read = ran_tree::run_tree(asks, &mut table);
    print_read(read, &table)
}

// The strings of a tree's text.
pub fn tree_strings_answer(tree: &[u8]) -> Printed<[u8; 133522]>
    ensures { Prints strings_room (tree_strings_text most_modes tree.now) result }
{
    let mut rows = [0u16; 1024];
    let mut table = [0u16; 768];
    let read = trees::read_tree(tree, &mut rows, &mut table);
    print_read(read, &table)
}
