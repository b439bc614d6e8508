// A run resumed from a journal as it is printed: `hatt`'s lines of it, or its new lines alone.
ghost use Rattle.terms_text.specs.Jobs.{requested};
ghost use Rattle.text.specs.Running.{program_rooms, printed_room};
ghost use Rattle.text.specs.Output.{resume_text, continue_text, Prints};
ghost use Rattle.text.specs.code.Printing.{Puts};

use crate::{Printed, output, running};
use fields::parts;
use terms_text::jobs::Request;

// The lines of a resumed run printed over the front, in lent room for its rows and its new lines; how many bytes that is.
fn print_resumed(
    asks: &Request,
    read: &[u8],
    rows: &mut [u16; 1024],
    journal: &mut [u8; 5392],
    out: &mut [u8; 16384],
) -> usize
    ensures { Puts (resume_text program_rooms (requested asks.now) read.now) out.old out.new result }
{
    match running::run_text(asks, read, rows, journal) {
        Err(refusal) => output::put_refusal(out, refusal),
        Ok(run) => {
            let end = 4 * run.modes;
            output::put_done(out, run.weight, run.trials, &rows[..end])
        }
    }
}

// What `hatt` prints of the run that is asked for, resumed from the journal that is read.
pub fn resume_answer(asks: &Request, read: &[u8]) -> Printed<[u8; 16384]>
    ensures { Prints printed_room (resume_text program_rooms (requested asks.now) read.now) result }
{
    let mut rows = [0u16; 1024];
    let mut journal = [0u8; 5392];
    Printed::by(
        [0; 16384],
        |out| print_resumed(asks, read, &mut rows, &mut journal, out),
    )
}

// The new lines of a resumed run printed over the front, in lent room for its rows and those lines; how many bytes that is.
fn print_new(
    asks: &Request,
    read: &[u8],
    rows: &mut [u16; 1024],
    journal: &mut [u8; 5392],
    out: &mut [u8; 16384],
) -> usize
    ensures { Puts (continue_text program_rooms (requested asks.now) read.now) out.old out.new result }
{
    match running::run_text(asks, read, rows, journal) {
        Err(refusal) => output::put_refusal(out, refusal),
        Ok(run) => parts::put_bytes(out, 0, &journal[..run.new]),
    }
}

// The lines that continue the journal that is read: behind what is kept of it they make the journal of the run that is asked for.
pub fn continue_answer(asks: &Request, read: &[u8]) -> Printed<[u8; 16384]>
    ensures { Prints printed_room (continue_text program_rooms (requested asks.now) read.now) result }
{
    let mut rows = [0u16; 1024];
    let mut journal = [0u8; 5392];
    Printed::by(
        [0; 16384],
        |out| print_new(asks, read, &mut rows, &mut journal, out),
    )
}
