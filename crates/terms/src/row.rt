// One row of numbers, its term, and a row written over another.
ghost use Rattle.std.specs.Prelude.{◌≡◌, ◌+◌, ◌*◌, ◌≤◌, ◌<◌, length, get_or, take, drop};
ghost use Rattle.lists.specs.Written.{written_at};
ghost use Rattle.terms.specs.Rows.{term};

// The numbers of an input row, and of a work row, which has its count behind them.
pub const WIDTH: usize = 8;

pub const WORK_WIDTH: usize = 9;

// The row at this place of rows of this width, which stand one after the other.
pub fn row_at(rows: &[u16], width: usize, place: usize) -> &[u16]
    requires { width * place + width ≤ length rows.now }
    ensures { result.now ≡ take width (drop (width * place) rows.now) }
{
    let from = width * place;
    &rows[from..from + width]
}

// The term of a row: its indices, without the length before them and what stands after.
#[tactic(auto, unfolding(crate::specs::Rows::term))]
pub fn term_of(row: &[u16]) -> &[u16]
    requires { get_or row.now 0 0 < length row.now }
    ensures { result.now ≡ term row.now }
{
    &row[1..=usize::from(row[0])]
}

// The term of the row at this place.
pub fn term_at(rows: &[u16], width: usize, place: usize) -> &[u16]
    requires { (width * place + width ≤ length rows.now) × (get_or rows.now (width * place) 0 < width) }
    ensures { result.now ≡ term (take width (drop (width * place) rows.now)) }
{
    term_of(row_at(rows, width, place))
}

// The numbers of a row written over those of the row at this place, from its first on.
#[tactic(auto, unfolding(lists::specs::Written::written_at))]
pub fn put_row(rows: &mut [u16], width: usize, place: usize, row: &[u16])
    requires { width * place + length row.now ≤ length rows.old }
    ensures { rows.new ≡ written_at (width * place) row.now rows.old }
{
    let from = width * place;
    rows[from..from + row.len()].copy_from_slice(row);
}
