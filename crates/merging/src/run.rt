// The state of a run, the merge, and the steps to the end.
ghost use Rattle.std.specs.Prelude.{◌≡◌, List, [], ◌∷◌, ℕ, ◌+◌, ◌*◌, ◌≤◌, ◌<◌, get_or};
ghost use Rattle.lists.specs.Ranges.{listed};
ghost use Rattle.entities.specs.Limits.{most_modes, entity_room};
ghost use Rattle.terms.specs.code.Held.{Spread};
ghost use Rattle.terms.specs.code.Sized.{job_sized};
ghost use Rattle.terms.specs.Job.{Job};
ghost use Rattle.history.specs.History.{is_open};
ghost use Rattle.history.specs.computed.Choosing.{chosen};
ghost use Rattle.history.specs.computed.Greedy.{finished as finished_from};
ghost use Rattle.merging.specs.code.State.{history_of, EntitiesMerged, Noted};
ghost use Rattle.merging.specs.code.Runs.{Holds, Ready, Went};

use choosing::choice;
use choosing::entity_tables::Tables;
use entities::{Triple, parents};
use reduction::live_rows;
use std::array;
use tallying::gathered::GatheredRows;
use terms::job::JobSize;
use terms::rules::Rule;

// What a run holds: its modes, its rule and how many rows it has, the tables of the entities, and every merge, its weight and how many input rows
// were dropped with it.
#[derive(Clone, Copy)]
pub struct Run {
    pub modes: usize,
    pub rule: Rule,
    pub step: usize,
    pub count: usize,
    pub weight: usize,
    pub tables: Tables,
    pub merges: [Triple; 256],
    pub weights: [u16; 256],
    pub drops: [u16; 256],
}

// Every entity its own z-end and its own holder.
fn identity() -> [u16; 769]
    ensures { result ≡ listed (λ entity. entity) 0 entity_room }
{
    array::from_fn(|entity| entity as u16)
}

// The leaves open, and nothing else.
fn leaves(modes: usize) -> [bool; 769]
    requires { modes ≤ most_modes }
    ensures { result ≡ listed (is_open modes []) 0 entity_room }
{
    let mut opens = [false; 769];
    opens[..=2 * modes].fill(true);
    opens
}

// The state before the first step of a job of this size.
pub fn fresh(size: JobSize) -> Run
    ensures { (numbers rows : List ℕ) → Spread size.count numbers rows → Holds (job_sized size numbers) rows result × (history_of result ≡ []) }
{
    Run {
        modes: size.modes,
        rule: size.rule,
        step: 0,
        count: size.count,
        weight: 0,
        tables: Tables {
            opens: leaves(size.modes),
            ends: identity(),
            holders: identity(),
        },
        merges: [Triple { x: 0, y: 0, z: 0 }; 256],
        weights: [0; 256],
        drops: [0; 256],
    }
}

impl Run {
    // The three closed and their parent opened, with z's end, which it now holds.
    fn entities_merged(mut self, triple: Triple) -> Run
        requires modes_le_most_modes { (self.modes ≤ most_modes) × (self.step < most_modes) × (triple.x < entity_room) × (triple.y < entity_room) × (triple.z < entity_room) }
        requires z_bound { get_or self.tables.ends triple.z 0 < entity_room }
        ensures { EntitiesMerged triple self result }
    {
        let parent = parents::parent_number(self.modes, self.step);
        let at = usize::from(parent);
        let end = self.tables.ends[usize::from(triple.z)];
        self.tables.opens[usize::from(triple.x)] = false;
        self.tables.opens[usize::from(triple.y)] = false;
        self.tables.opens[usize::from(triple.z)] = false;
        self.tables.opens[at] = true;
        self.tables.ends[at] = end;
        self.tables.holders[usize::from(end)] = parent;
        self
    }

    // The merge written down as the next step.
    fn noted(mut self, triple: Triple, weight: u16, dropped: u16) -> Run
        requires { self.step < most_modes }
        ensures { Noted triple weight dropped self result }
    {
        let step = self.step;
        self.merges[step] = triple;
        self.weights[step] = weight;
        self.drops[step] = dropped;
        self.step += 1;
        self
    }

    // The next merge made: entities, rows and notes.
    pub fn merged(self, rows: &mut [u16], triple: Triple, weight: usize) -> Run
        requires { (job : Job) × Ready job rows.old self triple weight }
        ensures { (job : Job) → Ready job rows.old self triple weight → Went job (triple ∷ history_of self) rows.old result rows.new }
    {
        let parent = parents::parent_number(self.modes, self.step);
        let dropped = reduction::reduce_hamiltonian(rows, self.count, self.rule, parent, triple);
        let sum = self.weight + weight;
        let mut next = self
            .entities_merged(triple)
            .noted(triple, weight as u16, dropped as u16);
        next.weight = sum;
        next
    }

    // The next step: the least lawful triple merged. It is sought in the rows that are there, gathered once.
    fn stepped(self, rows: &mut [u16]) -> Run
        requires holds { (job : Job) × Holds job rows.old self }
        requires step_lt_modes { self.step < self.modes }
        ensures { (job : Job) → Holds job rows.old self → Went job (chosen job (history_of self) ∷ history_of self) rows.old result rows.new }
    {
        let mut live = [0u16; 16384];
        let kept = live_rows::put_live(rows, self.count, &mut live);
        let next = parents::parent_number(self.modes, self.step);
        let gathered = GatheredRows {
            rows: &live,
            count: kept,
        };
        let best = choice::choose(&self.tables, &gathered, self.modes, next);
        self.merged(rows, best.triple, best.weight)
    }

    // The steps that are left.
    pub fn finished(self, rows: &mut [u16]) -> Run
        requires { (job : Job) × Holds job rows.old self }
        ensures { (job : Job) → Holds job rows.old self → Went job (finished_from job (history_of self)) rows.old result rows.new }
    {
        let mut run = self;
        for _ in self.step..self.modes {
            run = run.stepped(rows);
        }
        run
    }
}
