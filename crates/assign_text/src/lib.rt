// The answer of `assign` to the text of a tree, a heuristic's name and the text of the terms, from bytes to bytes.
#![tactic(auto)]

ghost use Rattle.std.specs.Prelude.{◌≡◌, ◌*◌, ◌≤◌, length};
ghost use Rattle.terms.specs.Rules.{rule_number};
ghost use Rattle.entities.specs.Limits.{most_modes, most_terms};
ghost use Rattle.tree.specs.Laying.{modes_in};
ghost use Rattle.terms_text.specs.Input.{given, said};
ghost use Rattle.terms_text.specs.Jobs.{requested};
ghost use Rattle.text.specs.Running.{program_rooms, printed_room};
ghost use Rattle.text.specs.Output.{Prints};
ghost use Rattle.text.specs.code.Printing.{Puts};
ghost use Rattle.assign_text.specs.Assigning.{assign_text};
ghost use Rattle.tree_text.specs.code.Reading.{RowsFit};
ghost use Rattle.assign_text.specs.code.Finding.{found_text, meant_text};

use refusal::Refusal;
use terms::rules::Rule;
use terms_text::jobs::Request;
use text::{Printed, output};
use tree_text::trees;

mod assigned_rows;
mod heuristics;

// An assignment on a table, in lent room for work and for the assigned table: its children are put into the rows.
fn assign_in(
    rows: &mut [u16],
    modes: usize,
    table: &[u16],
    rule: Rule,
    heuristic: usize,
    numbers: &[u16],
    work: &mut [u16; 18432],
    assigned: &mut [u16; 768],
) -> Result<u64, Refusal>
    requires { RowsFit most_modes rows.old × (length table.now ≤ 3 * most_modes) }
    ensures { found_text result rows.new ≡ meant_text rows.old table.now (rule_number rule) heuristic (given modes numbers.now) }
{
    let weight = topphatt::assign(
        modes,
        usize::from(rule),
        table,
        heuristic,
        numbers,
        work,
        assigned,
    )?;
    let end = table.len();
    assigned_rows::assign_rows(rows, &assigned[..end]);
    Ok(weight)
}

// The same in room of its own.
fn assign_given(
    rows: &mut [u16],
    modes: usize,
    table: &[u16],
    rule: Rule,
    heuristic: usize,
    numbers: &[u16],
) -> Result<u64, Refusal>
    requires { RowsFit most_modes rows.old × (length table.now ≤ 3 * most_modes) }
    ensures { found_text result rows.new ≡ meant_text rows.old table.now (rule_number rule) heuristic (given modes numbers.now) }
{
    let mut work = [0u16; 18432];
    let mut assigned = [0u16; 768];
    assign_in(
        rows,
        modes,
        table,
        rule,
        heuristic,
        numbers,
        &mut work,
        &mut assigned,
    )
}

// The assignment for what is asked, in lent room for its numbers.
fn assign_read(
    rows: &mut [u16],
    table: &[u16],
    asks: &Request,
    heuristic: usize,
    numbers: &mut [u16; 16384],
) -> Result<u64, Refusal>
    requires { RowsFit most_modes rows.old × (length table.now ≤ 3 * most_modes) }
    ensures { found_text result rows.new ≡ meant_text rows.old table.now (rule_number asks.now.rule) heuristic (said most_terms asks.now.text.now) }
{
    let given = terms_text::read_input(asks.text, numbers)?;
    let end = 8 * given.count;
    assign_given(
        rows,
        given.modes,
        table,
        asks.rule,
        heuristic,
        &numbers[..end],
    )
}

// An assignment and its rows printed over the front; how many bytes that is.
fn put_found(out: &mut [u8; 16384], found: Result<u64, Refusal>, rows: &[u16]) -> usize
    requires { modes_in rows.now ≤ most_modes }
    ensures { Puts (found_text found rows.now) out.old out.new result }
{
    match found {
        Err(refusal) => output::put_refusal(out, refusal),
        Ok(weight) => {
            let end = output::put_value(out, 0, b"weight\t", weight);
            output::put_nodes(out, end, rows)
        }
    }
}

// The assignment for what is asked printed over the front; how many bytes that is.
fn put_terms(
    out: &mut [u8; 16384],
    rows: &mut [u16],
    table: &[u16],
    asks: &Request,
    heuristic: usize,
) -> usize
    requires { RowsFit most_modes rows.old × (length table.now ≤ 3 * most_modes) }
    ensures { Puts (meant_text rows.old table.now (rule_number asks.now.rule) heuristic (said most_terms asks.now.text.now)) out.old out.new result }
{
    let mut numbers = [0u16; 16384];
    let found = assign_read(rows, table, asks, heuristic, &mut numbers);
    put_found(out, found, rows)
}

// The answer printed over the front, in lent room for the tree's rows and its table; how many bytes that is.
fn print_assign(
    asks: &Request,
    tree: &[u8],
    name: &[u8],
    rows: &mut [u16; 1024],
    table: &mut [u16; 768],
    out: &mut [u8; 16384],
) -> usize
    ensures { Puts (assign_text program_rooms tree.now name.now (requested asks.now)) out.old out.new result }
{
    let heuristic = heuristics::heuristic_of(name);
    match trees::read_tree(tree, rows, table) {
        Err(refusal) => output::put_refusal(out, refusal),
        Ok(modes) => {
            let last = 4 * modes;
            let end = 3 * modes;
            put_terms(out, &mut rows[..last], &table[..end], asks, heuristic)
        }
    }
}

// What `assign` prints for what is asked, a tree and the name of a heuristic.
pub fn assign_answer(asks: &Request, tree: &[u8], heuristic: &[u8]) -> Printed<[u8; 16384]>
    ensures { Prints printed_room (assign_text program_rooms tree.now heuristic.now (requested asks.now)) result }
{
    let mut rows = [0u16; 1024];
    let mut table = [0u16; 768];
    Printed::by(
        [0; 16384],
        |out| print_assign(asks, tree, heuristic, &mut rows, &mut table, out),
    )
}
