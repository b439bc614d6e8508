// What a caller asks of a run: it needs no table and no size of one.
ghost use Rattle.std.specs.Prelude.{◌≡◌, true, List, ℕ, ◌≤◌, ◌<◌, length};
ghost use Rattle.lists.specs.Written.{written_at};
ghost use Rattle.terms.specs.Job.{Job};
ghost use Rattle.history.specs.History.{merge_of, history_before, is_open};
ghost use Rattle.history.specs.Lawful.{three_open, paired};
ghost use Rattle.history.specs.Choice.{weight_in};
ghost use Rattle.history.specs.Run.{run_weight};
ghost use Rattle.history.specs.Drops.{drops as drops_of};
ghost use Rattle.merging.specs.code.State.{history_of};
ghost use Rattle.merging.specs.code.Runs.{Holds};

use crate::run::Run;
use entities::Triple;
use terms::rules::Rule;
use terms::{row, weight};

// How many merges were made.
pub fn merges(run: Run) -> usize
    ensures { result ≡ length (history_of run) }
{
    run.step
}

// How many modes its job has.
pub fn modes(run: Run) -> usize
    ensures { (job : Job) (rows : List ℕ) → Holds job rows run → result ≡ job.modes }
{
    run.modes
}

// How many rows its job has.
pub fn count(run: Run) -> usize
    ensures { (job : Job) (rows : List ℕ) → Holds job rows run → result ≡ length job.terms }
{
    run.count
}

// The rule by which it reduces its rows.
pub fn rule_of(run: Run) -> Rule
    ensures { (job : Job) (rows : List ℕ) → Holds job rows run → result ≡ job.rule }
{
    run.rule
}

// The sum of their weights.
pub fn greedy_weight(run: Run) -> usize
    ensures { (job : Job) (rows : List ℕ) → Holds job rows run → result ≡ run_weight job (history_of run) }
{
    run.weight
}

// The entity is open.
pub fn is_open(run: Run, entity: u16) -> bool
    ensures { (job : Job) (rows : List ℕ) → Holds job rows run → result ≡ is_open job.modes (history_of run) entity }
{
    run.tables.marked(entity)
}

// Three open entities.
pub fn three_open(run: Run, triple: Triple) -> bool
    ensures { (job : Job) (rows : List ℕ) → Holds job rows run → result ≡ three_open job.modes (history_of run) triple }
{
    run.tables.three_open(triple)
}

// Three different entities, x's z-end an even 2k below 2n and y's 2k+1.
pub fn are_paired(run: Run, triple: Triple) -> bool
    requires { (job : Job) × ((rows : List ℕ) × (Holds job rows run × (three_open job.modes (history_of run) triple ≡ true))) }
    ensures { (job : Job) (rows : List ℕ) → Holds job rows run → result ≡ paired job.modes (history_of run) triple }
{
    run.tables.paired(run.modes, triple)
}

// What the triple weighs in the run's rows.
pub fn weight_of(run: Run, rows: &[u16], triple: Triple) -> usize
    requires { (job : Job) × Holds job rows.now run }
    ensures { (job : Job) → Holds job rows.now run → result ≡ weight_in job (history_of run) triple }
{
    weight::weight(rows, row::WORK_WIDTH, run.count, triple)
}

// The merge of a step that was made.
pub fn merge_of(run: Run, step: usize) -> Triple
    requires { (job : Job) × ((rows : List ℕ) × (Holds job rows run × (step < length (history_of run)))) }
    ensures { result ≡ merge_of (history_of run) step }
{
    run.merges[step]
}

// What that merge weighed.
pub fn step_weight(run: Run, step: usize) -> u16
    requires { (job : Job) × ((rows : List ℕ) × (Holds job rows run × (step < length (history_of run)))) }
    ensures { (job : Job) (rows : List ℕ) → Holds job rows run → result ≡ weight_in job (history_before (history_of run) step) (merge_of (history_of run) step) }
{
    run.weights[step]
}

// How many input rows were dropped in each step so far, written over the front of other numbers.
pub fn put_drops(run: Run, drops: &mut [u16])
    requires { (job : Job) × ((rows : List ℕ) × (Holds job rows run × (length (history_of run) ≤ length drops.old))) }
    ensures { (job : Job) (rows : List ℕ) → Holds job rows run → drops.new ≡ written_at 0 (drops_of job (history_of run)) drops.old }
{
    drops[..run.step].copy_from_slice(&run.drops[..run.step]);
}
