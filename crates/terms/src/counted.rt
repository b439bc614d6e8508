// Work rows: an input row's eight numbers and, behind them, how many input rows the row stands for.
ghost use Rattle.std.specs.Prelude.{◌≡◌, [], ◌∷◌, ◌++◌, ◌+◌, ◌*◌, ◌≤◌, length, take, drop};
ghost use Rattle.lists.specs.Written.{written_at};
ghost use Rattle.entities.specs.Limits.{most_terms, row_width, work_width};
ghost use Rattle.terms.specs.code.Held.{Given, Spread};

use crate::row;

// The input row at this place as the work row there, standing for itself.
fn put_once(terms: &[u16], place: usize, rows: &mut [u16])
    requires { (row_width * place + row_width ≤ length terms.now) × (work_width * place + work_width ≤ length rows.old) }
    ensures { rows.new ≡ written_at (work_width * place) (take row_width (drop (row_width * place) terms.now) ++ (1 ∷ [])) rows.old }
{
    row::put_row(
        rows,
        row::WORK_WIDTH,
        place,
        row::row_at(terms, row::WIDTH, place),
    );
    rows[row::WORK_WIDTH * place + row::WIDTH] = 1;
}

// The first `count` input rows as work rows over the front of other numbers, each standing for itself.
pub fn put_each_once(terms: &[u16], count: usize, rows: &mut [u16])
    requires given { Given count terms.now }
    requires count_in_bounds { work_width * count ≤ length rows.old }
    ensures spread { Spread count terms.now rows.new }
    ensures rows_unchanged { drop (work_width * count) rows.new ≡ drop (work_width * count) rows.old }
{
    for place in 0..count {
        put_once(terms, place, rows);
    }
}

// The same in an array of the caller's own; 2048 work rows fit.
pub fn own_rows(terms: &[u16], count: usize) -> [u16; 18432]
    requires { Given count terms.now × (count ≤ most_terms) }
    ensures { (length result ≡ work_width * most_terms) × Spread count terms.now result }
{
    let mut own = [0u16; 18432];
    put_each_once(terms, count, &mut own);
    own
}
