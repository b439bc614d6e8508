// The tree that a text's run ends in, laid out as a table by label, for whatever is printed of it.
#![tactic(auto)]

ghost use Rattle.std.specs.Prelude.{[]};
ghost use Rattle.entities.specs.Limits.{most_modes};
ghost use Rattle.terms_text.specs.Jobs.{requested};
ghost use Rattle.text.specs.Running.{program_rooms, ran};
ghost use Rattle.ran_tree.specs.code.Ending.{EndsIn};

use refusal::Refusal;
use terms_text::jobs::Request;
use text::running;
use tree::laying;

// Makes the run that is asked for, in lent room for its rows and its journal, and lays its tree out in the front of a lent table.
fn grow(
    asks: &Request,
    rows: &mut [u16; 1024],
    journal: &mut [u8; 5392],
    table: &mut [u16; 768],
) -> Result<usize, Refusal>
    ensures { EndsIn most_modes (ran program_rooms (requested asks.now) []) table.new result }
{
    let run = running::run_text(asks, b"", rows, journal)?;
    let end = 4 * run.modes;
    laying::lay_front(&rows[..end], table);
    Ok(run.modes)
}

// Grows the tree of the run that is asked for in the front of a lent table, with rows and a journal of its own.
pub fn run_tree(asks: &Request<'_>, table: &mut [u16; 768]) -> Result<usize, Refusal>
    ensures { EndsIn most_modes (ran program_rooms (requested asks.now) []) table.new result }
{
    let mut rows = [0u16; 1024];
    let mut journal = [0u8; 5392];
    grow(asks, &mut rows, &mut journal, table)
}
