// A merge by hand: x, y, z alone, its step and weight filled in as of a run.
ghost use Rattle.std.specs.Prelude.{◌≡◌};
ghost use Rattle.terms.specs.Job.{Job};
ghost use Rattle.merging.specs.code.State.{history_of};
ghost use Rattle.merging.specs.code.Runs.{Holds};
ghost use Rattle.obeying.specs.Obeying.{completed, merge_by_hand, line_said};

use crate::merge_line;
use crate::merge_line::MergeLine;
use entities::Triple;
use fields::numbers;
use merging::asked;
use merging::run::Run;

// A merge of these three, with the step and the weight that it has after this run.
fn complete(run: Run, rows: &[u16], triple: Triple) -> MergeLine
    requires { (job : Job) × Holds job rows.now run }
    ensures { (job : Job) → Holds job rows.now run → result ≡ completed job (history_of run) triple }
{
    MergeLine {
        step: asked::merges(run) as u16,
        triple: triple,
        weight: asked::weight_of(run, rows, triple) as u16,
    }
}

// The merge that a line by hand, LF included, says after this run.
fn read_by_hand(run: Run, rows: &[u16], line: &[u8]) -> Option<MergeLine>
    requires { (job : Job) × Holds job rows.now run }
    ensures { (job : Job) → Holds job rows.now run → result ≡ merge_by_hand job (history_of run) line.now }
{
    let [x, y, z] = numbers::line_numbers::<3>(line, b"")?;
    Some(complete(run, rows, Triple { x, y, z }))
}

// What a line says after this run, by hand or as a journal's.
// By a flag, which the definition `line_said` has: every law of the lines is of either.
pub fn read_said(run: Run, rows: &[u16], line: &[u8], by_hand: bool) -> Option<MergeLine>
    requires { (job : Job) × Holds job rows.now run }
    ensures { (job : Job) → Holds job rows.now run → result ≡ line_said by_hand job (history_of run) line.now }
{
    if by_hand {
        return read_by_hand(run, rows, line);
    }
    merge_line::read_merge(line)
}
