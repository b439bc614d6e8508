// The answer of `drops` to the text of terms and a journal, from bytes to bytes: how many of the terms were dropped in each step.
#![tactic(auto)]

ghost use Rattle.std.specs.Prelude.{◌≡◌, ◌+◌, ◌≤◌, ◌<◌, length};
ghost use Rattle.lists.specs.Written.{written_at};
ghost use Rattle.entities.specs.Limits.{most_modes};
ghost use Rattle.terms_text.specs.Jobs.{requested};
ghost use Rattle.text.specs.Running.{program_rooms, printed_room};
ghost use Rattle.text.specs.Output.{Prints};
ghost use Rattle.text.specs.code.Printing.{Puts};
ghost use Rattle.drops_text.specs.Dropping.{drop_line, drop_lines, drops_text};

use fields::decimal;
use terms_text::jobs::Request;
use text::{Printed, output, running};

// A step's line written at this place; the place after it.
fn put_drop(out: &mut [u8], at: usize, step: usize, count: usize) -> usize
    requires { (at + 12 ≤ length out.old) × (step ≤ most_modes) × (count < 65536) }
    ensures value { (result ≡ at + length (drop_line step count)) × (result ≤ at + 12) }
    ensures out_after { out.new ≡ written_at at (drop_line step count) out.old }
{
    let end = decimal::put_field(out, at, step as u64, 9);
    decimal::put_field(out, end, count as u64, 10)
}

// The lines of the steps that these are the drops of, written over the front; how many bytes that is.
fn put_drops(drops: &[u16], out: &mut [u8; 16384]) -> usize
    requires { length drops.now ≤ most_modes }
    ensures { Puts (drop_lines 0 drops.now) out.old out.new result }
{
    let mut at = 0;
    for (step, count) in drops.iter().enumerate() {
        at = put_drop(out, at, step, usize::from(*count));
    }
    at
}

// The lines of the run that a journal leads to, or its refusal, printed over the front, in lent room for what the run writes.
fn print_drops(
    asks: &Request,
    read: &[u8],
    rows: &mut [u16; 1024],
    journal: &mut [u8; 5392],
    drops: &mut [u16; 256],
    out: &mut [u8; 16384],
) -> usize
    ensures { Puts (drops_text program_rooms (requested asks.now) read.now) out.old out.new result }
{
    match running::run_drops(asks, read, rows, journal, drops) {
        Err(refusal) => output::put_refusal(out, refusal),
        Ok(run) => {
            let end = run.modes;
            put_drops(&drops[..end], out)
        }
    }
}

// How many terms each step of the run drops that a journal leads to, for what is asked.
pub fn drops_answer(asks: &Request, read: &[u8]) -> Printed<[u8; 16384]>
    ensures { Prints printed_room (drops_text program_rooms (requested asks.now) read.now) result }
{
    let mut rows = [0u16; 1024];
    let mut journal = [0u8; 5392];
    let mut drops = [0u16; 256];
    Printed::by(
        [0; 16384],
        |out| print_drops(asks, read, &mut rows, &mut journal, &mut drops, out),
    )
}
