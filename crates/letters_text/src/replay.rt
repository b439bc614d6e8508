// The rows before a step: the work rows of the terms, reduced by the merges that came before it.
ghost use Rattle.std.specs.Prelude.{List, ℕ, ◌≤◌};
ghost use Rattle.terms.specs.Job.{Job};
ghost use Rattle.history.specs.History.{history_before};
ghost use Rattle.merging.specs.code.State.{history_of};
ghost use Rattle.letters_text.specs.code.Replaying.{RowsAre, Finished};

use entities::parents;
use merging::asked;
use merging::run::Run;

// The work rows of the job's terms become its rows before a step of the run.
pub fn rows_before(run: Run, rows: &mut [u16], step: usize)
    requires { (job : Job) × ((own : List ℕ) × (Finished job own run rows.old × (step ≤ job.modes))) }
    ensures { (job : Job) (own : List ℕ) → Finished job own run rows.old → RowsAre job (history_before (history_of run) step) rows.new }
{
    let modes = asked::modes(run);
    let count = asked::count(run);
    let rule = asked::rule_of(run);
    for at in 0..step {
        let parent = parents::parent_number(modes, at);
        reduction::reduce_hamiltonian(rows, count, rule, parent, asked::merge_of(run, at));
    }
}
