// The check of given terms: refusals 2, 3 and 4 of document 01.
ghost use Rattle.std.specs.Prelude.{◌≡◌, ◌*◌, ◌≤◌, length, OnOk};
ghost use Rattle.refusal.specs.Numbers.{Tells};
ghost use Rattle.entities.specs.Limits.{most_modes, row_width};
ghost use Rattle.terms.specs.Good.{ModesSaid, good_indices, good_row, good_rows, check_numbers, checked};

use crate::row;
use refusal::Refusal;

// The modes are 1 to 256, or refusal 1.
pub fn check_modes(modes: usize) -> Result<(), Refusal>
    ensures said { ModesSaid most_modes modes result }
    ensures between { OnOk result ((1 ≤ modes) × (modes ≤ most_modes)) }
{
    if modes < 1 || 256 < modes {
        return Err(Refusal::Modes);
    }
    Ok(())
}

// The indices are below twice the modes and never descend.
fn good_indices(modes: usize, indices: &[u16]) -> bool
    ensures { result ≡ good_indices (2 * modes) indices.now }
{
    // an index below 2n has a half below n; twice the modes may not fit
    indices.is_sorted() && indices.iter().all(|index| usize::from(*index) / 2 < modes)
}

// A length 1 to 7, that many good indices, then zeros.
fn good_row(modes: usize, numbers: &[u16]) -> bool
    requires { length numbers.now ≡ row_width }
    ensures { result ≡ good_row (2 * modes) numbers.now }
{
    let count = usize::from(numbers[0]);
    if count < 1 || 7 < count {
        return false;
    }
    good_indices(modes, row::term_of(numbers))
        && numbers[count + 1..].iter().all(|number| *number == 0)
}

// How many rows are good before the first bad one.
fn good_rows(modes: usize, terms: &[u16], count: usize) -> usize
    requires { row_width * count ≤ length terms.now }
    ensures { result ≡ good_rows (2 * modes) count terms.now }
{
    for place in 0..count {
        if !good_row(modes, row::row_at(terms, row::WIDTH, place)) {
            return place;
        }
    }
    count
}

// The terms are rows of eight, at most 2048, all good; or the first of these that fails.
pub fn check_terms(modes: usize, terms: &[u16]) -> Result<usize, Refusal>
    ensures { Tells check_numbers (checked modes terms.now) result }
{
    if terms.len() % 8 != 0 {
        return Err(Refusal::TermNumbers);
    }
    let count = terms.len() / 8;
    if 2048 < count {
        return Err(Refusal::TooManyTerms);
    }
    let good = good_rows(modes, terms, count);
    if good < count {
        return Err(Refusal::BadRow(good));
    }
    Ok(count)
}
