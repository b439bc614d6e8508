// What a refused line of a journal lacks, for whoever has to mend it.
ghost use Rattle.std.specs.Prelude.{◌≡◌, List, ℕ};
ghost use Rattle.refusal.specs.Numbers.{number_of};
ghost use Rattle.terms.specs.Job.{Job};
ghost use Rattle.terms.specs.code.Sized.{job_sized};
ghost use Rattle.terms.specs.code.Held.{Spread};
ghost use Rattle.merging.specs.code.State.{history_of};
ghost use Rattle.merging.specs.code.Runs.{Holds};
ghost use Rattle.obeying.specs.Obeying.{refused, obeyed};
ghost use Rattle.terms_text.specs.Jobs.{requested};
ghost use Rattle.text.specs.Running.{program_rooms, printed_room};
ghost use Rattle.text.specs.Output.{Prints};
ghost use Rattle.text.specs.code.Printing.{Puts};
ghost use Rattle.steering.specs.Reasons.{first_closed, reason_of, reason_in, reason_text};

use entities::Triple;
use fields::lines;
use merging::asked;
use merging::run::Run;
use obeying::merge_line;
use refusal::Refusal;
use terms::job::JobSize;
use terms::rules::Rule;
use terms::{counted, row};
use terms_text::jobs;
use terms_text::jobs::Request;
use text::{Printed, output};

// The first of x, y and z that isn't open.
fn first_closed(run: Run, triple: Triple) -> u16
    ensures { (job : Job) (rows : List ℕ) → Holds job rows run → result ≡ first_closed job.modes (history_of run) triple }
{
    if !asked::is_open(run, triple.x) {
        return triple.x;
    }
    if !asked::is_open(run, triple.y) {
        return triple.y;
    }
    triple.z
}

// What is wrong with a line that says this triple after this run, printed over the front; of most refusals there is no more to tell.
fn put_reason(run: Run, rows: &[u16], why: Refusal, triple: Triple, out: &mut [u8; 16384]) -> usize
    requires { (job : Job) × Holds job rows.now run }
    ensures { (job : Job) → Holds job rows.now run → Puts (reason_of job (history_of run) (number_of why) triple) out.old out.new result }
{
    match why {
        Refusal::StepNotNext(_) => output::put_value(out, 0, b"due\t", asked::merges(run) as u64),
        Refusal::ChildNotOpen(_) => {
            output::put_value(out, 0, b"closed\t", first_closed(run, triple) as u64)
        }
        Refusal::WeightUntrue(_) => {
            let weight = asked::weight_of(run, rows, triple);
            output::put_value(out, 0, b"weight\t", weight as u64)
        }
        _ => 0,
    }
}

// The refused line read again.
fn put_refused(run: Run, rows: &[u16], why: Refusal, read: &[u8], out: &mut [u8; 16384]) -> usize
    requires { (job : Job) × Holds job rows.now run }
    ensures { (job : Job) → Holds job rows.now run → Puts (reason_in job read.now (refused (history_of run) why)) out.old out.new result }
{
    let line = lines::line_at(read, refusal::place(why));
    match merge_line::read_merge(line) {
        Some(said) => put_reason(run, rows, why, said.triple, out),
        None => 0,
    }
}

// A journal obeyed on the work rows of good terms, and what its refused line lacks.
fn reason_job(size: JobSize, rows: &mut [u16], read: &[u8], out: &mut [u8; 16384]) -> usize
    requires { (numbers : List ℕ) × Spread size.count numbers rows.old }
    ensures { (numbers : List ℕ) → Spread size.count numbers rows.old → Puts (reason_in (job_sized size numbers) read.now (obeyed (job_sized size numbers) read.now)) out.old out.new result }
{
    let obeyed = obeying::obey(size, rows, read);
    match obeyed.verdict {
        Ok(_) => 0,
        Err(why) => put_refused(obeyed.run, rows, why, read, out),
    }
}

// A journal obeyed on the terms that are asked for, in lent room for their numbers.
fn print_reason(
    asks: &Request,
    read: &[u8],
    numbers: &mut [u16; 16384],
    out: &mut [u8; 16384],
) -> usize
    ensures { Puts (reason_text program_rooms (requested asks.now) read.now) out.old out.new result }
{
    match jobs::read_job(asks, numbers) {
        Err(_) => 0,
        Ok(size) => {
            let end = row::WIDTH * size.count;
            let mut own = counted::own_rows(&numbers[..end], size.count);
            reason_job(size, &mut own, read, out)
        }
    }
}

// What the refused line of the journal that is read lacks, for what is asked.
pub fn reason_answer(asks: &Request, read: &[u8]) -> Printed<[u8; 16384]>
    ensures { Prints printed_room (reason_text program_rooms (requested asks.now) read.now) result }
{
    let mut numbers = [0u16; 16384];
    Printed::by(
        [0; 16384],
        |out| print_reason(asks, read, &mut numbers, out),
    )
}
