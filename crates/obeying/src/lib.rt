// Lines obeyed one after the other, a journal's or merges by hand: each merge that they say is judged and made, until a line is refused.
#![tactic(auto)]

ghost use Rattle.std.specs.Prelude.{◌≡◌, List, [], ℕ};
ghost use Rattle.fields.specs.Lines.{lines};
ghost use Rattle.terms.specs.code.Held.{Spread};
ghost use Rattle.terms.specs.code.Sized.{job_sized, Sized};
ghost use Rattle.terms.specs.Job.{Job};
ghost use Rattle.merging.specs.code.State.{history_of};
ghost use Rattle.merging.specs.code.Runs.{Holds};
ghost use Rattle.obeying.specs.LineForms.{header_of};
ghost use Rattle.obeying.specs.Obeying.{went, obeyed_next, obeyed_header, obeyed_lines, obeyed, obeyed_by_hand};
ghost use Rattle.obeying.specs.code.Obeys.{came_to, obeying, Obeys};

use fields::lines;
use merging::run;
use merging::run::Run;
use refusal::Refusal;
use terms::job::JobSize;

mod by_hand;
mod header;
mod judging;
pub mod merge_line;

// Whether every line was obeyed, and the run after the merges that were made.
#[derive(Clone, Copy)]
pub struct Obeying {
    pub verdict: Result<(), Refusal>,
    pub run: Run,
}

// One line after a run: its merge made, where it is judged good; where it is refused, the run stays as it was.
fn obey_line(run: &mut Run, rows: &mut [u16], bytes: &[u8], by_hand: bool) -> Result<(), Refusal>
    requires { (job : Job) × Holds job rows.old run.old }
    ensures { (job : Job) → Holds job rows.old run.old → Obeys job (obeyed_next by_hand job bytes.now (went (history_of run.old))) rows.old rows.new (obeying result run.new) }
{
    let said = judging::judge_line(*run, rows, bytes, by_hand)?;
    *run = run.merged(rows, said.triple, usize::from(said.weight));
    Ok(())
}

// The header, which has to say the call's rule, modes and terms.
fn obey_header(size: JobSize, bytes: &[u8]) -> Result<(), Refusal>
    ensures { (job : Job) → Sized job size → came_to result [] ≡ obeyed_header job (header_of bytes.now) }
{
    let said = header::read_header(bytes).ok_or(Refusal::LineForm(0))?;
    if said.rule != size.rule {
        return Err(Refusal::Header);
    }
    if usize::from(said.modes) != size.modes {
        return Err(Refusal::Header);
    }
    if usize::from(said.terms) != size.count {
        return Err(Refusal::Header);
    }
    Ok(())
}

// The complete lines, one after the other, up to the first that is refused.
fn obey_lines(run: &mut Run, rows: &mut [u16], read: &[u8], by_hand: bool) -> Result<(), Refusal>
    requires { (job : Job) × Holds job rows.old run.old }
    ensures { (job : Job) → Holds job rows.old run.old → Obeys job (obeyed_lines by_hand job (went (history_of run.old)) (lines read.now)) rows.old rows.new (obeying result run.new) }
{
    for line in lines::lines_of(read) {
        obey_line(run, rows, line, by_hand)?;
    }
    Ok(())
}

// A journal's bytes after the first state: the header, then the merges.
fn obey_journal(run: &mut Run, size: JobSize, rows: &mut [u16], read: &[u8]) -> Result<(), Refusal>
    requires { (job : Job) × (Holds job rows.old run.old × ((history_of run.old ≡ []) × Sized job size)) }
    ensures { (job : Job) → Holds job rows.old run.old → history_of run.old ≡ [] → Sized job size → Obeys job (obeyed job read.now) rows.old rows.new (obeying result run.new) }
{
    let end = lines::line_end(read, 0);
    if end == 0 {
        return Ok(());
    }
    obey_header(size, &read[..end])?;
    obey_lines(run, rows, &read[end..], false)
}

// A journal obeyed from the first state on, on the work rows of input rows.
pub fn obey(size: JobSize, rows: &mut [u16], read: &[u8]) -> Obeying
    requires { (numbers : List ℕ) × Spread size.count numbers rows.old }
    ensures { (numbers : List ℕ) → Spread size.count numbers rows.old → Obeys (job_sized size numbers) (obeyed (job_sized size numbers) read.now) rows.old rows.new result }
{
    let mut run = run::fresh(size);
    let verdict = obey_journal(&mut run, size, rows, read);
    Obeying { verdict, run }
}

// Merges by hand obeyed from the first state on.
pub fn obey_by_hand(size: JobSize, rows: &mut [u16], read: &[u8]) -> Obeying
    requires { (numbers : List ℕ) × Spread size.count numbers rows.old }
    ensures { (numbers : List ℕ) → Spread size.count numbers rows.old → Obeys (job_sized size numbers) (obeyed_by_hand (job_sized size numbers) read.now) rows.old rows.new result }
{
    let mut run = run::fresh(size);
    let verdict = obey_lines(&mut run, rows, read, true);
    Obeying { verdict, run }
}
