// TOPP-HATT: the leaves of a given tree assigned to modes, round by round, at the least weight.
#![tactic(auto)]

ghost use Rattle.std.specs.Prelude.{◌≡◌, ◌*◌, ◌≤◌, ◌<◌, length, replicate};
ghost use Rattle.lists.specs.Written.{written_at};
ghost use Rattle.entities.specs.Codes.{child_code};
ghost use Rattle.entities.specs.Limits.{most_modes, most_terms, row_width, work_width};
ghost use Rattle.terms.specs.Rows.{terms_of};
ghost use Rattle.terms.specs.code.Held.{Given, Worked};
ghost use Rattle.terms.specs.Good.{checked};
ghost use Rattle.tree.specs.Check.{tree_checked};
ghost use Rattle.slots.specs.Slots.{slot_of, stands_as};
ghost use Rattle.terms.specs.Rules.{rule_number};
ghost use Rattle.topphatt.specs.Answer.{answer_table, asked, task_of, done_by, with_room, with_terms, with_tree, outcome};
ghost use Rattle.topphatt.specs.Promises.{lent, rooms_of, Assigns};
ghost use Rattle.topphatt.specs.code.Going.{task_with, asked_by, Tabled};

use crate::task::{Ready, Task};
use entities::codes;
use refusal::Refusal;
use slots::heuristics::Heuristic;
use slots::nodes;
use slots::restrictions::TreeRestrictions;
use terms::rules::Rule;
use terms::{checking, counted, row, slices};

mod rounds;
mod task;

// The code of the slot that stands where the given tree has `given`.
fn answer_code(modes: usize, assigned: &[u16], given: u16) -> u16
    requires { (modes ≤ most_modes) × (length assigned.now ≡ modes) }
    ensures { result ≡ child_code modes (2 * modes) (stands_as modes (slot_of modes assigned.now given)) }
{
    let slot = slots::slot_of(modes, assigned, usize::from(given));
    codes::code(modes, (2 * modes) as u16, slot)
}

// The codes of the slots, where the given tree has its own, into the front of `table`.
fn write_table(restrictions: &TreeRestrictions<'_>, table: &mut [u16])
    requires { 3 * restrictions.now.modes ≤ length table.old }
    ensures { table.new ≡ written_at 0 (answer_table restrictions.now.modes restrictions.now.assigned.now restrictions.now.tree.now) table.old }
{
    for (at, given) in restrictions.tree.iter().enumerate() {
        table[at] = answer_code(restrictions.modes, restrictions.assigned, *given);
    }
}

impl Ready<'_> {
    // The rounds, and the leaves that they fixed written into the front of `table`; the sum of chosen weights.
    fn assign_pairs(
        &self,
        rows: &mut [u16],
        count: usize,
        assigned: &mut [u16],
        table: &mut [u16],
    ) -> usize
        requires count_le_most_terms { (count ≤ most_terms) × (assigned.old ≡ replicate self.now.task.modes self.now.task.modes) × (3 * self.now.task.modes ≤ length table.old) }
        requires worked { Worked count rows.old }
        ensures { Tabled self.now.task count rows.old table.old rows.new table.new result }
    {
        let weight = self.topphatt(rows, count, assigned);
        let restrictions = TreeRestrictions {
            modes: self.task.modes,
            tree: self.task.tree,
            assigned,
        };
        write_table(&restrictions, table);
        weight
    }
}

impl Task<'_> {
    // The rounds and the table from the start, where no pair has a mode; each node's distance is found once.
    fn assign_rows(&self, rows: &mut [u16], count: usize, table: &mut [u16]) -> usize
        requires count_le_most_terms { (count ≤ most_terms) × (3 * self.now.modes ≤ length table.old) }
        requires worked { Worked count rows.old }
        ensures { Tabled self.now count rows.old table.old rows.new table.new result }
    {
        let mut distances = [0usize; 256];
        nodes::fill_distances(self.modes, self.tree, &mut distances);
        let ready = Ready {
            task: *self,
            distances: &distances,
        };
        let mut assigned = [self.modes as u16; 256];
        ready.assign_pairs(rows, count, &mut assigned[..self.modes], table)
    }

    // The answer where nothing can refuse any more: the rows are worked on in the work that is lent, which is zeros then.
    fn assign_in(
        &self,
        terms: &[u16],
        count: usize,
        work: &mut [u16],
        table: &mut [u16],
    ) -> Result<u64, Refusal>
        requires count_le_most_terms { count ≤ most_terms }
        requires given { Given count terms.now }
        requires count_in_bounds { (work_width * count ≤ length work.old) × (3 * self.now.modes ≤ length table.old) }
        ensures { Assigns (λ given. done_by (task_with self.now (terms_of row_width count terms.now))) (lent work.old table.old) (lent work.new table.new) result }
    {
        counted::put_each_once(terms, count, work);
        let weight = self.assign_rows(work, count, table);
        slices::clear_front(work, row::WORK_WIDTH * count);
        Ok(weight as u64)
    }

    // The answer where all is good but perhaps the rooms.
    fn assign_good(
        &self,
        terms: &[u16],
        count: usize,
        work: &mut [u16],
        table: &mut [u16],
    ) -> Result<u64, Refusal>
        requires count_le_most_terms { count ≤ most_terms }
        requires given { Given count terms.now }
        ensures { Assigns (λ given. with_room (rooms_of most_modes given) (task_of (asked_by self.now terms.now) count)) (lent work.old table.old) (lent work.new table.new) result }
    {
        if work.len() < row::WORK_WIDTH * count {
            return Err(Refusal::Room);
        }
        if table.len() < 3 * self.modes {
            return Err(Refusal::Room);
        }
        self.assign_in(terms, count, work, table)
    }

    // The answer where the tree and the heuristic are good.
    fn assign_accepted(
        &self,
        terms: &[u16],
        work: &mut [u16],
        table: &mut [u16],
    ) -> Result<u64, Refusal>
        ensures { Assigns (λ given. with_terms (rooms_of most_modes given) (asked_by self.now terms.now) (checked self.now.modes terms.now)) (lent work.old table.old) (lent work.new table.new) result }
    {
        let count = checking::check_terms(self.modes, terms)?;
        self.assign_good(terms, count, work, table)
    }
}

// The answer where the modes and the rule are good.
fn assign_ruled(
    modes: usize,
    rule: Rule,
    tree: &[u16],
    heuristic: usize,
    terms: &[u16],
    work: &mut [u16],
    table: &mut [u16],
) -> Result<u64, Refusal>
    ensures { Assigns (λ given. with_tree (rooms_of most_modes given) (asked modes (rule_number rule) tree.now heuristic terms.now) (tree_checked most_modes modes tree.now)) (lent work.old table.old) (lent work.new table.new) result }
{
    tree::check_tree(modes, tree)?;
    let heuristic = Heuristic::try_from(heuristic)?;
    let task = Task {
        modes,
        rule,
        tree,
        heuristic,
    };
    task.assign_accepted(terms, work, table)
}

// The leaves of an accepted tree assigned to modes at the least weight, by this rule; or why the call is refused.
pub fn assign(
    modes: usize,
    rule: usize,
    tree: &[u16],
    heuristic: usize,
    terms: &[u16],
    work: &mut [u16],
    table: &mut [u16],
) -> Result<u64, Refusal>
    ensures { Assigns (λ given. outcome (rooms_of most_modes given) (asked modes rule tree.now heuristic terms.now)) (lent work.old table.old) (lent work.new table.new) result }
{
    checking::check_modes(modes)?;
    let rule = Rule::try_from(rule)?;
    assign_ruled(modes, rule, tree, heuristic, terms, work, table)
}
