// The answer of `letters` to the text of terms, a journal and a step, from bytes to bytes: which letter each live row gets there.
#![tactic(auto)]

ghost use Rattle.std.specs.Prelude.{◌≡◌, List, ℕ, ◌<◌, Ok};
ghost use Rattle.terms.specs.Job.{Job};
ghost use Rattle.terms.specs.code.Sized.{job_sized};
ghost use Rattle.terms.specs.Good.{checked};
ghost use Rattle.terms.specs.code.Held.{Spread};
ghost use Rattle.merging.specs.code.State.{history_of};
ghost use Rattle.obeying.specs.Obeying.{obeyed};
ghost use Rattle.terms_text.specs.Jobs.{requested};
ghost use Rattle.text.specs.Running.{program_rooms, printed_room};
ghost use Rattle.text.specs.Output.{Prints};
ghost use Rattle.text.specs.code.Printing.{Puts};
ghost use Rattle.letters_text.specs.Lettering.{asked as step_asked, shows, step_lines, lettered_at, lettered_after, letters_printed, letters_text};
ghost use Rattle.letters_text.specs.code.Replaying.{Finished};

use merging::asked;
use merging::run::Run;
use refusal::Refusal;
use terms::job::JobSize;
use terms::rules::Rule;
use terms::{counted, row};
use terms_text::jobs;
use terms_text::jobs::Request;
use text::{Printed, output};

mod replay;
mod row_lines;
mod steps;

// The lines of a step of a finished run printed over the front, from the work rows of the job's terms.
fn put_step(run: Run, rows: &mut [u16], step: usize, out: &mut [u8; 16384]) -> usize
    requires { (job : Job) × ((own : List ℕ) × (Finished job own run rows.old × (step < job.modes))) }
    ensures { (job : Job) (own : List ℕ) → Finished job own run rows.old → Puts (letters_printed (shows (step_lines job (history_of run) step))) out.old out.new result }
{
    let triple = asked::merge_of(run, step);
    replay::rows_before(run, rows, step);
    row_lines::put_letters(rows, asked::count(run), triple, out)
}

// The lines of the step that a word asks for, or how many steps there are.
fn put_asked(run: Run, rows: &mut [u16], word: &[u8], out: &mut [u8; 16384]) -> usize
    requires { (job : Job) × ((own : List ℕ) × Finished job own run rows.old) }
    ensures { (job : Job) (own : List ℕ) → Finished job own run rows.old → Puts (letters_printed (lettered_at job (history_of run) (step_asked job.modes word.now))) out.old out.new result }
{
    let modes = asked::modes(run);
    match steps::asked_step(word, modes) {
        Some(step) => put_step(run, rows, step, out),
        None => output::put_value(out, 0, b"steps\t", modes as u64),
    }
}

// A journal obeyed on the work rows of the terms, the run finished there, and the answer printed over the front from such rows again.
fn letters_own(
    size: JobSize,
    own: &mut [u16],
    again: &mut [u16],
    read: &[u8],
    word: &[u8],
    out: &mut [u8; 16384],
) -> usize
    requires { (numbers : List ℕ) × (Spread size.count numbers own.old × Spread size.count numbers again.old) }
    ensures { (numbers : List ℕ) → Spread size.count numbers own.old → Spread size.count numbers again.old → Puts (letters_printed (lettered_after (job_sized size numbers) word.now (obeyed (job_sized size numbers) read.now))) out.old out.new result }
{
    let obeyed = obeying::obey(size, own, read);
    match obeyed.verdict {
        Ok(_) => put_asked(obeyed.run.finished(own), again, word, out),
        Err(why) => output::put_refusal(out, why),
    }
}

// The same of good terms: their work rows twice, since the journal's run ends in the first.
fn letters_job(
    size: JobSize,
    terms: &[u16],
    read: &[u8],
    word: &[u8],
    out: &mut [u8; 16384],
) -> usize
    requires { checked size.modes terms.now ≡ Ok size.count }
    ensures { Puts (letters_printed (lettered_after (job_sized size terms.now) word.now (obeyed (job_sized size terms.now) read.now))) out.old out.new result }
{
    let mut own = counted::own_rows(terms, size.count);
    let mut again = counted::own_rows(terms, size.count);
    letters_own(size, &mut own, &mut again, read, word, out)
}

// The letters for the terms that are asked for, in lent room for their numbers.
fn print_letters(
    asks: &Request,
    read: &[u8],
    word: &[u8],
    numbers: &mut [u16; 16384],
    out: &mut [u8; 16384],
) -> usize
    ensures { Puts (letters_text program_rooms (requested asks.now) read.now word.now) out.old out.new result }
{
    match jobs::read_job(asks, numbers) {
        Err(why) => output::put_refusal(out, why),
        Ok(size) => {
            let end = row::WIDTH * size.count;
            letters_job(size, &numbers[..end], read, word, out)
        }
    }
}

// The letters of a step of the run that a journal leads to, for what is asked.
pub fn letters_answer(asks: &Request, read: &[u8], step: &[u8]) -> Printed<[u8; 16384]>
    ensures { Prints printed_room (letters_text program_rooms (requested asks.now) read.now step.now) result }
{
    let mut numbers = [0u16; 16384];
    Printed::by(
        [0; 16384],
        |out| print_letters(asks, read, step, &mut numbers, out),
    )
}
