// What people need to write journals by hand and to mend them: merges made into a journal, and what a refused line lacks.
#![tactic(auto)]

ghost use Rattle.std.specs.Prelude.{List, ℕ};
ghost use Rattle.terms.specs.Job.{Job};
ghost use Rattle.terms.specs.code.Sized.{job_sized};
ghost use Rattle.terms.specs.code.Held.{Spread};
ghost use Rattle.merging.specs.code.State.{history_of};
ghost use Rattle.merging.specs.code.Runs.{Holds};
ghost use Rattle.obeying.specs.Obeying.{went, obeyed_by_hand};
ghost use Rattle.terms_text.specs.Jobs.{requested};
ghost use Rattle.text.specs.Running.{program_rooms, printed_room};
ghost use Rattle.text.specs.Output.{Prints};
ghost use Rattle.text.specs.code.Printing.{Puts};
ghost use Rattle.steering.specs.Steering.{steered_as, steer_printed, steer_text};

use fields::lines;
use journal::new_lines;
use merging::asked;
use merging::run::Run;
use refusal::Refusal;
use terms::job::JobSize;
use terms::rules::Rule;
use terms::{counted, row};
use terms_text::jobs;
use terms_text::jobs::Request;
use text::{Printed, output};

pub mod reasons;

// The journal of a run's merges printed over the front; a last line without LF breaks the form.
fn put_journal(run: Run, rows: &[u16], merges: &[u8], out: &mut [u8; 16384]) -> usize
    requires { (job : Job) × Holds job rows.now run }
    ensures { (job : Job) → Holds job rows.now run → Puts (steer_printed (steered_as job merges.now (went (history_of run)))) out.old out.new result }
{
    if lines::kept_bytes(merges) != merges.len() {
        return output::put_refusal(out, Refusal::LineForm(asked::merges(run) + 1));
    }
    new_lines::write_new(run, 0, 0, out)
}

// Merges by hand obeyed on the work rows of good terms, and their journal or the refusal printed over the front.
fn steer_job(size: JobSize, rows: &mut [u16], merges: &[u8], out: &mut [u8; 16384]) -> usize
    requires { (numbers : List ℕ) × Spread size.count numbers rows.old }
    ensures { (numbers : List ℕ) → Spread size.count numbers rows.old → Puts (steer_printed (steered_as (job_sized size numbers) merges.now (obeyed_by_hand (job_sized size numbers) merges.now))) out.old out.new result }
{
    let obeyed = obeying::obey_by_hand(size, rows, merges);
    match obeyed.verdict {
        Ok(_) => put_journal(obeyed.run, rows, merges, out),
        Err(why) => output::put_refusal(out, why),
    }
}

// Merges by hand obeyed on the terms that are asked for, in lent room for their numbers.
fn print_steered(
    asks: &Request,
    merges: &[u8],
    numbers: &mut [u16; 16384],
    out: &mut [u8; 16384],
) -> usize
    ensures { Puts (steer_text program_rooms (requested asks.now) merges.now) out.old out.new result }
{
    match jobs::read_job(asks, numbers) {
        Err(why) => output::put_refusal(out, why),
        Ok(size) => {
            let end = row::WIDTH * size.count;
            let mut own = counted::own_rows(&numbers[..end], size.count);
            steer_job(size, &mut own, merges, out)
        }
    }
}

// The journal of merges by hand, for what is asked.
pub fn steer_answer(asks: &Request, merges: &[u8]) -> Printed<[u8; 16384]>
    ensures { Prints printed_room (steer_text program_rooms (requested asks.now) merges.now) result }
{
    let mut numbers = [0u16; 16384];
    Printed::by(
        [0; 16384],
        |out| print_steered(asks, merges, &mut numbers, out),
    )
}
