// The rounds: a choice made, its leaves fixed, the rows reduced, until no mode is unassigned.
ghost use Rattle.std.specs.Prelude.{◌≡◌, ◌+◌, ◌*◌, ◌≤◌, ◌<◌, length, replicate};
ghost use Rattle.entities.specs.Limits.{most_terms, row_width};
ghost use Rattle.terms.specs.Rows.{terms_of};
ghost use Rattle.terms.specs.code.Held.{Held, Worked};
ghost use Rattle.terms.specs.Weight.{weight_of};
ghost use Rattle.choice.specs.code.Seeking.{choice_of};
ghost use Rattle.topphatt.specs.Rounds.{fixed};
ghost use Rattle.topphatt.specs.code.Going.{Among, Chose, Fixed, Going, RoundMade, Ended};

use crate::task::{Ready, Task};
use choice::Selection;
use entities::parents;
use reduction::live_rows;
use slots::restrictions::TreeRestrictions;
use tallying::gathered::GatheredRows;
use terms::{row, weight};
use tree::table;

// The weight of the choice of a round; where there was no choice, which never is, that of three zeros.
fn chosen_weight(rows: &[u16], count: usize, selection: Selection) -> usize
    requires held { Held row_width count rows.now }
    requires min_weight_value { selection.min_weight ≤ count → selection.min_weight ≡ weight_of selection.leaf_indices (terms_of row_width count rows.now) }
    ensures { (result ≡ weight_of selection.leaf_indices (terms_of row_width count rows.now)) × (result ≤ count) }
{
    // no weight is above the rows
    if count < selection.min_weight {
        return weight::weight(rows, row::WIDTH, count, selection.leaf_indices);
    }
    selection.min_weight
}

impl Task<'_> {
    // A leaf that isn't fixed yet is fixed as `number`: its pair gets the number's mode.
    fn fix(&self, node: usize, edge: usize, number: u16, assigned: &mut [u16])
        requires { (length assigned.old ≡ self.now.modes) × (node < self.now.modes) × (edge < 3) }
        ensures { (length assigned.new ≡ self.now.modes) × (assigned.new ≡ fixed self.now.modes self.now.tree.now node edge number assigned.old) }
    {
        let code = table::child(self.tree, node, edge);
        if !slots::unfixed(self.modes, slots::slot_of(self.modes, assigned, code)) {
            return;
        }
        let pair = (code - self.modes) / 2;
        assigned[pair] = number / 2;
    }

    // The X, Y and Z leaf of a choice fixed.
    fn fix_all(&self, selection: Selection, assigned: &mut [u16])
        requires { (length assigned.old ≡ self.now.modes) × (selection.min_parent < self.now.modes) }
        ensures { Fixed self.now.modes self.now.tree.now (choice_of selection) assigned.old assigned.new }
    {
        let node = usize::from(selection.min_parent);
        self.fix(node, 0, selection.leaf_indices.x, assigned);
        self.fix(node, 1, selection.leaf_indices.y, assigned);
        self.fix(node, 2, selection.leaf_indices.z, assigned);
    }
}

impl Ready<'_> {
    // The choice of a round, sought among the first `count` gathered rows.
    fn choose(&self, rows: &[u16], count: usize, assigned: &[u16]) -> Selection
        requires { Among self.now.task.modes rows.now count assigned.now }
        ensures { Chose self.now.task rows.now count assigned.now result }
    {
        let mut free = [0u16; 256];
        let unassigned = choice::fill_unassigned(self.task.modes, assigned, &mut free);
        let given = TreeRestrictions {
            modes: self.task.modes,
            tree: self.task.tree,
            assigned,
        };
        let mut active = [0u16; 256];
        let heuristic = usize::from(self.task.heuristic);
        let nodes = given.fill_active(self.distances, heuristic, &mut active);
        let gathered = GatheredRows { rows, count };
        choice::select(&gathered, &given, &free[..unassigned], &active[..nodes])
    }

    // One round; its choice is sought in the rows that are there, gathered once. The weight of the choice.
    fn round(&self, rows: &mut [u16], count: usize, assigned: &mut [u16]) -> usize
        requires { Going self.now.task.modes rows.old count assigned.old }
        ensures { RoundMade self.now.task rows.old count assigned.old rows.new assigned.new result }
    {
        let mut live = [0u16; 16384];
        let kept = live_rows::put_live(rows, count, &mut live);
        let selection = self.choose(&live, kept, assigned);
        let weight = chosen_weight(&live, kept, selection);
        self.task.fix_all(selection, assigned);
        let parent = parents::parent_number(self.task.modes, usize::from(selection.min_parent));
        reduction::reduce_hamiltonian(rows, count, self.task.rule, parent, selection.leaf_indices);
        weight
    }

    // All rounds; the sum of chosen weights.
    pub fn topphatt(&self, rows: &mut [u16], count: usize, assigned: &mut [u16]) -> usize
        requires count_le_most_terms { (count ≤ most_terms) × (assigned.old ≡ replicate self.now.task.modes self.now.task.modes) }
        requires worked { Worked count rows.old }
        ensures { Ended self.now.task count rows.old rows.new assigned.new result }
    {
        let mut weight = 0;
        for _ in 0..self.task.modes {
            if choice::all_assigned(self.task.modes, assigned) {
                return weight;
            }
            weight += self.round(rows, count, assigned);
        }
        weight
    }
}
