// The letter that a triple gives a term, and its weight in all rows.
ghost use Rattle.std.specs.Prelude.{◌≡◌, ◌%◌, ◌≤◌};
ghost use Rattle.lists.specs.Counting.{occurrences};
ghost use Rattle.terms.specs.Rows.{terms_of};
ghost use Rattle.terms.specs.code.Held.{Held};
ghost use Rattle.terms.specs.Weight.{term_letter, weight_of};

use crate::letters::Letter;
use crate::{letters, row};
use entities::Triple;

// The letter that the triple gives the term.
pub fn qubit_term_weight(term: &[u16], triple: Triple) -> Letter
    ensures { result ≡ term_letter triple term.now }
{
    let mut xs: usize = 0;
    let mut ys: usize = 0;
    let mut zs: usize = 0;
    for index in term {
        xs += usize::from(*index == triple.x);
        ys += usize::from(*index == triple.y);
        zs += usize::from(*index == triple.z);
    }
    letters::counted_letter(xs, ys, zs)
}

// The sum of the triple's weights in the first `count` rows of this width.
pub fn weight(rows: &[u16], width: usize, count: usize, triple: Triple) -> usize
    requires { Held width count rows.now }
    ensures { (result ≡ weight_of triple (terms_of width count rows.now)) × (result ≤ count) }
{
    let mut sum: usize = 0;
    for place in 0..count {
        sum += letters::not_none(qubit_term_weight(row::term_at(rows, width, place), triple));
    }
    sum
}

// 1 where the number occurs in the term an odd number of times, else 0.
pub fn odd_in(term: &[u16], number: u16) -> usize
    ensures { (result ≡ occurrences number term.now % 2) × (result ≤ 1) }
{
    let mut odd: usize = 0;
    for index in term {
        odd = (odd + usize::from(*index == number)) % 2;
    }
    odd
}
