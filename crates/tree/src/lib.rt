// The tree table: rows laid out as one, and its check, refusals 1 and 13 to 16 of document 01; and what writing a tree says.
#![tactic(auto)]

ghost use Rattle.refusal.specs.Numbers.{Tells};
ghost use Rattle.entities.specs.Limits.{most_modes};
ghost use Rattle.tree.specs.Check.{check_numbers, tree_checked};

use refusal::Refusal;
use table::TreeTable;
use terms::checking;

pub mod laying;
mod one_tree;
mod pairs;
pub mod table;

// The table is 3n good codes that make one tree with its pairs right; or the first of these that fails.
#[tactic(auto, using(refusal::proofs::Told::tells, refusal::proofs::Told::handed_on), unfolding(crate::specs::Check::tree_checked))]
pub fn check_tree(modes: usize, tree: &[u16]) -> Result<(), Refusal>
    ensures { Tells check_numbers (tree_checked most_modes modes tree.now) result }
{
    checking::check_modes(modes)?;
    if tree.len() != 3 * modes {
        return Err(Refusal::TreeLength);
    }
    let good = table::codes_good(modes, tree);
    if good < tree.len() {
        return Err(Refusal::ChildCode(good));
    }
    let table = TreeTable { modes, tree };
    if !table.one_tree() {
        return Err(Refusal::NotOneTree);
    }
    let right = table.pairs_right();
    if right < modes {
        return Err(Refusal::WrongPair(right));
    }
    Ok(())
}
