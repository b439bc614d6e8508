// A merge line judged against a run: it says the next merge, lawful and truly weighed, or it is refused.
ghost use Rattle.std.specs.Prelude.{◌≡◌};
ghost use Rattle.terms.specs.Job.{Job};
ghost use Rattle.merging.specs.code.State.{history_of};
ghost use Rattle.merging.specs.code.Runs.{Holds};
ghost use Rattle.obeying.specs.Obeying.{line_after, judged_merge, judged_line};

use crate::by_hand;
use crate::merge_line::MergeLine;
use merging::asked;
use merging::run::Run;
use refusal::Refusal;

// The number of the line that follows the merges of a run: each line before it but the header has made one.
fn line_after(run: Run, rows: &[u16]) -> usize
    requires { (job : Job) × Holds job rows.now run }
    ensures { result ≡ line_after (history_of run) }
{
    asked::merges(run) + 1
}

// What the line of this number says, tested in the order of the refusals.
fn judge_merge(run: Run, rows: &[u16], said: MergeLine, line: usize) -> Result<MergeLine, Refusal>
    requires holds { (job : Job) × Holds job rows.now run }
    requires line_value { line ≡ line_after (history_of run) }
    ensures { (job : Job) → Holds job rows.now run → result ≡ judged_merge job (history_of run) said }
{
    if usize::from(said.step) != asked::merges(run) {
        return Err(Refusal::StepNotNext(line));
    }
    if !asked::three_open(run, said.triple) {
        return Err(Refusal::ChildNotOpen(line));
    }
    if !asked::are_paired(run, said.triple) {
        return Err(Refusal::NotLawful(line));
    }
    if usize::from(said.weight) != asked::weight_of(run, rows, said.triple) {
        return Err(Refusal::WeightUntrue(line));
    }
    Ok(said)
}

// One line after a run; a line after the last merge is refused unread.
pub fn judge_line(run: Run, rows: &[u16], bytes: &[u8], by_hand: bool) -> Result<MergeLine, Refusal>
    requires { (job : Job) × Holds job rows.now run }
    ensures { (job : Job) → Holds job rows.now run → result ≡ judged_line by_hand job (history_of run) bytes.now }
{
    let line = line_after(run, rows);
    if asked::modes(run) <= asked::merges(run) {
        return Err(Refusal::LineAfterLast(line));
    }
    let said = by_hand::read_said(run, rows, bytes, by_hand).ok_or(Refusal::LineForm(line))?;
    judge_merge(run, rows, said, line)
}
