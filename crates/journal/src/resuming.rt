// The calls `hatt` and `resume`: a journal obeyed, the run that goes on from it, and what it leaves in the lent slices.
ghost use Rattle.std.specs.Prelude.{◌≡◌, true, List, ℕ, length, Ok};
ghost use Rattle.entities.specs.Limits.{most_modes};
ghost use Rattle.fields.specs.Lines.{kept_of};
ghost use Rattle.terms.specs.code.Held.{Spread};
ghost use Rattle.terms.specs.code.Sized.{job_sized};
ghost use Rattle.terms.specs.Job.{Job};
ghost use Rattle.terms.specs.Good.{checked};
ghost use Rattle.merging.specs.code.State.{history_of};
ghost use Rattle.obeying.specs.Obeying.{obeyed};
ghost use Rattle.journal.specs.Resuming.{done, ending, with_journal, roomy, with_terms, resumed, hatt_run};
ghost use Rattle.journal.specs.Promises.{lent, rooms_of, Answers};
ghost use Rattle.journal.specs.code.Finishing.{Finishing, FromOwn};

use crate::new_lines;
use fields::lines;
use history::trials;
use merging::asked;
use merging::run::Run;
use refusal::Refusal;
use terms::job::JobSize;
use terms::rules::Rule;
use terms::{checking, counted, row, slices};

// The four numbers of a run: greedy weight, trials, kept bytes and new bytes.
#[derive(Clone, Copy)]
pub struct Numbers {
    pub weight: u64,
    pub trials: u64,
    pub kept: usize,
    pub new: usize,
}

// The steps that are left, in the lent work, and then the rows, the drops, the new lines and the zeros; nothing can refuse any more.
fn finish_run(
    run: Run,
    kept: usize,
    work: &mut [u16],
    rows: &mut [u16],
    journal: &mut [u8],
    drops: &mut [u16],
) -> Result<Numbers, Refusal>
    requires { (job : Job) × Finishing job run (lent work.old rows.old journal.old drops.old) }
    ensures { (job : Job) (bytes : List ℕ) → Finishing job run (lent work.old rows.old journal.old drops.old) → kept ≡ length (kept_of bytes) → Answers (λ given. done (ending job bytes (history_of run)))
        (lent work.old rows.old journal.old drops.old) (lent work.new rows.new journal.new drops.new) result }
{
    let from = asked::merges(run);
    let end = run.finished(work);
    flatpack::write_flatpack(end, rows);
    asked::put_drops(end, drops);
    let new = new_lines::write_new(end, from, kept, journal);
    slices::clear_front(work, row::WORK_WIDTH * asked::count(run));
    Ok(Numbers {
        weight: asked::greedy_weight(end) as u64,
        trials: trials::trial_total(asked::modes(run) - from),
        kept: kept,
        new: new,
    })
}

// The run's own rows put into the lent work, and the run finished there.
fn finish_lent(
    run: Run,
    own: &[u16],
    kept: usize,
    work: &mut [u16],
    rows: &mut [u16],
    journal: &mut [u8],
    drops: &mut [u16],
) -> Result<Numbers, Refusal>
    requires { (job : Job) × FromOwn job run own.now (lent work.old rows.old journal.old drops.old) }
    ensures { (job : Job) (bytes : List ℕ) → FromOwn job run own.now (lent work.old rows.old journal.old drops.old) → kept ≡ length (kept_of bytes) → Answers (λ given. done (ending job bytes (history_of run)))
        (lent work.old rows.old journal.old drops.old) (lent work.new rows.new journal.new drops.new) result }
{
    let end = row::WORK_WIDTH * asked::count(run);
    slices::put_front(&own[..end], work);
    finish_run(run, kept, work, rows, journal, drops)
}

// The journal obeyed on rows of the call's own, and the run that goes on from it.
fn resume_own(
    size: JobSize,
    own: &mut [u16],
    read: &[u8],
    work: &mut [u16],
    rows: &mut [u16],
    journal: &mut [u8],
    drops: &mut [u16],
) -> Result<Numbers, Refusal>
    requires by_index { (numbers : List ℕ) × Spread size.count numbers own.old }
    requires room { roomy (rooms_of most_modes (lent work.old rows.old journal.old drops.old)) size.modes size.count ≡ true }
    ensures { (numbers : List ℕ) → Spread size.count numbers own.old → Answers (λ given. with_journal (job_sized size numbers) read.now (obeyed (job_sized size numbers) read.now))
        (lent work.old rows.old journal.old drops.old) (lent work.new rows.new journal.new drops.new) result }
{
    let obeyed = obeying::obey(size, own, read);
    obeyed.verdict?;
    let kept = lines::kept_bytes(read);
    finish_lent(obeyed.run, own, kept, work, rows, journal, drops)
}

// A run from good terms with room for all it writes: the journal is obeyed on rows of the call's own, so that a refusal alters nothing.
fn resume_copy(
    size: JobSize,
    terms: &[u16],
    read: &[u8],
    work: &mut [u16],
    rows: &mut [u16],
    journal: &mut [u8],
    drops: &mut [u16],
) -> Result<Numbers, Refusal>
    requires checked { checked size.modes terms.now ≡ Ok size.count }
    requires room { roomy (rooms_of most_modes (lent work.old rows.old journal.old drops.old)) size.modes size.count ≡ true }
    ensures { Answers (λ given. with_journal (job_sized size terms.now) read.now (obeyed (job_sized size terms.now) read.now))
        (lent work.old rows.old journal.old drops.old) (lent work.new rows.new journal.new drops.new) result }
{
    let mut own = counted::own_rows(terms, size.count);
    resume_own(size, &mut own, read, work, rows, journal, drops)
}

// Good terms: the rooms, and then the run.
fn resume_good(
    size: JobSize,
    terms: &[u16],
    read: &[u8],
    work: &mut [u16],
    rows: &mut [u16],
    journal: &mut [u8],
    drops: &mut [u16],
) -> Result<Numbers, Refusal>
    requires { checked size.modes terms.now ≡ Ok size.count }
    ensures { Answers (λ given. with_terms (rooms_of most_modes given) size.modes size.rule terms.now read.now (Ok size.count))
        (lent work.old rows.old journal.old drops.old) (lent work.new rows.new journal.new drops.new) result }
{
    if work.len() < row::WORK_WIDTH * size.count {
        return Err(Refusal::Room);
    }
    if rows.len() < 4 * size.modes {
        return Err(Refusal::Room);
    }
    if journal.len() < 16 + 21 * size.modes {
        return Err(Refusal::Room);
    }
    if drops.len() < size.modes {
        return Err(Refusal::Room);
    }
    resume_copy(size, terms, read, work, rows, journal, drops)
}

// The run by this rule that a journal leads to, from its last complete line to the end.
// By its number, as the C interface has it: refusal 20 is of a number that no rule has.
pub fn resume(
    modes: usize,
    rule: usize,
    terms: &[u16],
    read: &[u8],
    work: &mut [u16],
    rows: &mut [u16],
    journal: &mut [u8],
    drops: &mut [u16],
) -> Result<Numbers, Refusal>
    ensures { Answers (λ given. resumed (rooms_of most_modes given) modes rule terms.now read.now)
        (lent work.old rows.old journal.old drops.old) (lent work.new rows.new journal.new drops.new) result }
{
    checking::check_modes(modes)?;
    let rule = Rule::try_from(rule)?;
    let count = checking::check_terms(modes, terms)?;
    let size = JobSize { modes, rule, count };
    resume_good(size, terms, read, work, rows, journal, drops)
}

// An unbroken run by this rule: resuming from an empty journal.
// By its number, as `resume` takes it.
pub fn hatt(
    modes: usize,
    rule: usize,
    terms: &[u16],
    work: &mut [u16],
    rows: &mut [u16],
    journal: &mut [u8],
    drops: &mut [u16],
) -> Result<Numbers, Refusal>
    ensures { Answers (λ given. hatt_run (rooms_of most_modes given) modes rule terms.now)
        (lent work.old rows.old journal.old drops.old) (lent work.new rows.new journal.new drops.new) result }
{
    resume(modes, rule, terms, b"", work, rows, journal, drops)
}
