// A couple's tally: what its triples weigh in the rows, but for z's own part, which is looked up.
ghost use Rattle.std.specs.Prelude.{ℕ, ◌+◌, ◌%◌, ◌≤◌, ◌<◌, length, get_or};
ghost use Rattle.entities.specs.Limits.{row_width};
ghost use Rattle.terms.specs.Rows.{terms_of};
ghost use Rattle.tallying.specs.code.Tallies.{RowTallied, Tallied};

use crate::gathered::GatheredRows;
use crate::raising;
use terms::{row, weight};

// In how many rows one of the two is odd, or both are, and in how many only one is.
#[derive(Clone, Copy)]
pub struct Tally {
    pub all: usize,
    pub apart: usize,
}

// How many of x and y are odd in the term; the table goes up as many times at each number that is odd in it.
fn tally_row(term: &[u16], x: u16, y: u16, less: &mut [u16]) -> usize
    requires { (n : ℕ) → n < length less.old → get_or less.old n 0 < 65534 }
    ensures { RowTallied term.now x y less.old less.new result }
{
    let odd = weight::odd_in(term, x) + weight::odd_in(term, y);
    if odd == 0 {
        return odd;
    }
    raising::raise(term, less);
    if odd < 2 {
        return odd;
    }
    raising::raise(term, less);
    odd
}

// With z the couple weighs `all` of the tally and the rows in which z is odd, less z's entry; none once the rows in which only one of the two is odd reach the limit, since those weigh 1 whatever z is.
pub fn tally_couple(
    gathered: &GatheredRows<'_>,
    x: u16,
    y: u16,
    limit: usize,
    less: &mut [u16],
) -> Option<Tally>
    ensures { Tallied (terms_of row_width gathered.now.count gathered.now.rows.now) x y limit less.new result }
{
    less.fill(0);
    let mut all: usize = 0;
    let mut apart: usize = 0;
    for place in 0..gathered.count {
        let odd = tally_row(row::term_at(gathered.rows, row::WIDTH, place), x, y, less);
        all += (odd + 1) / 2;
        apart += odd % 2;
        if limit <= apart {
            return None;
        }
    }
    Some(Tally {
        all: all,
        apart: apart,
    })
}
