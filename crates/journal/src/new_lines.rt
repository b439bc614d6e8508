// What is written of a run: the header if nothing was kept, and a line for each merge that was not kept.
ghost use Rattle.std.specs.Prelude.{◌≡◌, List, ℕ, ◌+◌, ◌≤◌, length};
ghost use Rattle.lists.specs.Written.{written_at};
ghost use Rattle.terms.specs.Job.{Job};
ghost use Rattle.merging.specs.code.State.{history_of};
ghost use Rattle.merging.specs.code.Runs.{Holds};
ghost use Rattle.journal.specs.Writing.{header_behind};
ghost use Rattle.journal.specs.code.NewLines.{noted_line, noted_from, noted_behind, StepFits, StepsFit, TextFits};

use crate::writing;
use merging::asked;
use merging::run::Run;

// The line of one step written at this place; the place after it.
fn put_step(run: Run, step: usize, journal: &mut [u8], at: usize) -> usize
    requires { (job : Job) × ((own : List ℕ) × StepFits job own run step at (length journal.old)) }
    ensures { (job : Job) (own : List ℕ) → StepFits job own run step at (length journal.old) → (result ≡ at + length (noted_line job (history_of run) step)) × (journal.new ≡ written_at at (noted_line job (history_of run) step) journal.old) }
{
    let triple = asked::merge_of(run, step);
    let weight = asked::step_weight(run, step);
    at + writing::put_merge(&mut journal[at..], step as u16, triple, weight)
}

// The lines of the steps from this one on, written behind so many bytes; how many bytes there are then.
fn put_steps(run: Run, from: usize, journal: &mut [u8], start: usize) -> usize
    requires { (job : Job) × ((own : List ℕ) × StepsFit job own run from start (length journal.old)) }
    ensures { (job : Job) (own : List ℕ) → StepsFit job own run from start (length journal.old) → (result ≡ start + length (noted_from job (history_of run) from)) × (journal.new ≡ written_at start (noted_from job (history_of run) from) journal.old) }
{
    let mut at = start;
    for step in from..asked::merges(run) {
        at = put_step(run, step, journal, at);
    }
    at
}

// The header of the run's job, if nothing was kept; how many bytes it has.
fn put_first(run: Run, kept: usize, journal: &mut [u8]) -> usize
    requires { (job : Job) × ((own : List ℕ) × (Holds job own run × (length (header_behind job kept) ≤ length journal.old))) }
    ensures { (job : Job) (own : List ℕ) → Holds job own run → (result ≡ length (header_behind job kept)) × (journal.new ≡ written_at 0 (header_behind job kept) journal.old) }
{
    if kept != 0 {
        return 0;
    }
    let modes = asked::modes(run) as u16;
    writing::put_header(
        journal,
        asked::rule_of(run),
        modes,
        asked::count(run) as u16,
    )
}

// The lines of a run's merges from one on, behind the header if nothing was kept, written over the front; how many bytes that is.
pub fn write_new(run: Run, from: usize, kept: usize, journal: &mut [u8]) -> usize
    requires { (job : Job) × ((own : List ℕ) × TextFits job own run from kept (length journal.old)) }
    ensures { (job : Job) (own : List ℕ) → TextFits job own run from kept (length journal.old) → (result ≡ length (noted_behind job kept (history_of run) from)) × (journal.new ≡ written_at 0 (noted_behind job kept (history_of run) from) journal.old) }
{
    let start = put_first(run, kept, journal);
    put_steps(run, from, journal, start)
}
