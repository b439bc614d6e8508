// The tree weight: over every operator of the rows and every node, 1 where the parities of its indices under X, Y, Z aren't all equal.
#![tactic(auto)]

ghost use Rattle.std.specs.Prelude.{◌≡◌, true, ◌*◌, ◌≤◌, ltb, length};
ghost use Rattle.lists.specs.Members.{every};
ghost use Rattle.refusal.specs.Numbers.{Tells};
ghost use Rattle.entities.specs.Limits.{most_modes, row_width, work_width};
ghost use Rattle.terms.specs.Rows.{terms_of};
ghost use Rattle.tree_weight.specs.code.Promises.{GoodRows, RowsBelow, own_weight, OperatorsOf};
ghost use Rattle.tree_weight.specs.Weight.{node_letter, row_weight, listed_weight, tree_weight, tree_weighed, weight_numbers};

use crate::climbing::PlacedTree;
use refusal::Refusal;
use terms::letters::Letter;
use terms::{checking, letters, row};

pub mod climbing;
mod operators;

// The letter of the term at the node: that of how many of its indices stand under X, Y and Z.
fn node_letter(placed: &PlacedTree<'_>, term: &[u16], node: usize) -> Letter
    requires { every (λ index. ltb index (2 * placed.now.modes)) term.now ≡ true }
    ensures { result ≡ node_letter placed.now.modes placed.now.tree.now term.now node }
{
    let mut xs: usize = 0;
    let mut ys: usize = 0;
    let mut zs: usize = 0;
    for index in term {
        let edge = placed.majorana_edge(node, usize::from(*index));
        xs += usize::from(edge == 0);
        ys += usize::from(edge == 1);
        zs += usize::from(edge == 2);
    }
    letters::counted_letter(xs, ys, zs)
}

// The term's weight over every node.
fn row_weight(placed: &PlacedTree<'_>, term: &[u16]) -> u64
    requires { every (λ index. ltb index (2 * placed.now.modes)) term.now ≡ true }
    ensures { (result ≡ row_weight placed.now.modes placed.now.tree.now term.now) × (result ≤ placed.now.modes) }
{
    let mut sum: u64 = 0;
    for node in 0..placed.modes {
        sum += letters::not_none(node_letter(placed, term, node)) as u64;
    }
    sum
}

// The weight of the first work rows, each counted.
fn rows_weight(placed: &PlacedTree<'_>, terms: &[u16], count: usize) -> u64
    requires { RowsBelow placed.now.modes count terms.now }
    ensures { result ≡ listed_weight placed.now.modes placed.now.tree.now (terms_of work_width count terms.now) }
{
    let mut sum: u64 = 0;
    for place in 0..count {
        sum += row_weight(placed, row::term_at(terms, row::WORK_WIDTH, place));
    }
    sum
}

// The operators of the first `count` rows, all good, in an array of the caller's own: they are found once and weighed in as many trees as the caller has.
pub fn own_operators(modes: usize, terms: &[u16], count: usize) -> [u16; 18432]
    requires modes_le_most_modes { modes ≤ most_modes }
    requires good_rows { GoodRows modes count terms.now }
    ensures { OperatorsOf modes count terms.now result }
{
    operators::operators(terms, count)
}

// What such operators weigh in a tree.
pub fn operators_weight(modes: usize, tree: &[u16], own: &[u16], count: usize) -> u64
    requires tree_len { (length tree.now ≡ 3 * modes) × (modes ≤ most_modes) }
    requires rows_below { RowsBelow modes count own.now }
    ensures { result ≡ own_weight modes count own.now tree.now }
{
    let mut places = [0usize; 768];
    climbing::fill_places(tree, &mut places);
    let placed = PlacedTree {
        modes,
        tree,
        places: &places,
    };
    rows_weight(&placed, own, count)
}

// The weight of the operators of the first `count` rows, all good, in an accepted tree.
fn accepted_weight(modes: usize, tree: &[u16], terms: &[u16], count: usize) -> u64
    requires tree_len { (length tree.now ≡ 3 * modes) × (modes ≤ most_modes) }
    requires good_rows { GoodRows modes count terms.now }
    ensures { result ≡ tree_weight modes tree.now (terms_of row_width count terms.now) }
{
    let own = own_operators(modes, terms, count);
    operators_weight(modes, tree, &own, count)
}

// The tree weight of the terms, or why tree or terms are refused.
pub fn tree_weight(modes: usize, tree: &[u16], terms: &[u16]) -> Result<u64, Refusal>
    ensures { Tells weight_numbers (tree_weighed most_modes modes tree.now terms.now) result }
{
    tree::check_tree(modes, tree)?;
    let count = checking::check_terms(modes, terms)?;
    Ok(accepted_weight(modes, tree, terms, count))
}
