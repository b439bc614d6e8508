// The operators of rows: each row's surviving indices as a row of its own, and of equal ones the first.
ghost use Rattle.std.specs.Prelude.{◌≡◌, true, ◌+◌, ◌*◌, ◌≤◌, ◌<◌, length};
ghost use Rattle.lists.specs.Ranges.{ascends};
ghost use Rattle.entities.specs.Limits.{most_terms, row_width, work_width};
ghost use Rattle.tree_weight.specs.code.Promises.{AscendingRows, IndexPut, SurvivingRow, SurvivingRows, OperatorRows};

use entities::{Triple, codes};
use terms::row;
use terms::rules::Rule;

// The index put behind so many of the row; where it is the last of them, both are gone. How many there are then.
fn put_index(row: &mut [u16], count: usize, index: u16) -> usize
    requires { count + 1 < length row.old }
    ensures { IndexPut row.old count index row.new result }
{
    if count == 0 {
        row[1] = index;
        return 1;
    }
    if row[count] == index {
        return count - 1;
    }
    row[count + 1] = index;
    count + 1
}

// The surviving indices of a term, as a work row that counts none: no index descends, so equal ones stand beside each other.
fn surviving_row(term: &[u16]) -> [u16; 9]
    requires { (length term.now < row_width) × (ascends term.now ≡ true) }
    ensures { SurvivingRow term.now result }
{
    let mut row = [0u16; 9];
    let mut count: usize = 0;
    for index in term {
        count = put_index(&mut row, count, *index);
    }
    // cancelled indices may still stand behind the term; a row of none is zeros
    if count == 0 {
        return [0u16; 9];
    }
    row[0] = count as u16;
    row
}

// The surviving indices of each of the first rows, as work rows over the front of other numbers.
fn put_surviving(terms: &[u16], count: usize, own: &mut [u16])
    requires ascending_rows { AscendingRows count terms.now }
    requires count_in_bounds { work_width * count ≤ length own.old }
    ensures { SurvivingRows count terms.now own.new }
{
    for place in 0..count {
        let row = surviving_row(row::term_at(terms, row::WIDTH, place));
        row::put_row(own, row::WORK_WIDTH, place, &row);
    }
}

// The operators of the first rows, over the front of other numbers. Equal rows become one as in a reduction that keeps every row, here to a number that stands in none.
fn put_operators(terms: &[u16], count: usize, own: &mut [u16])
    requires ascending_rows { AscendingRows count terms.now }
    requires count_in_bounds { work_width * count ≤ length own.old }
    ensures { OperatorRows count terms.now own.new }
{
    put_surviving(terms, count, own);
    let nothing = Triple {
        x: codes::ABSENT,
        y: codes::ABSENT,
        z: codes::ABSENT,
    };
    reduction::reduce_hamiltonian(own, count, Rule::Keep, codes::ABSENT, nothing);
}

// The operators of the first rows, in an array of the caller's own; a row that is no new one is zeros.
pub fn operators(terms: &[u16], count: usize) -> [u16; 18432]
    requires { AscendingRows count terms.now }
    ensures { (length result ≡ work_width * most_terms) × OperatorRows count terms.now result }
{
    let mut own = [0u16; 18432];
    put_operators(terms, count, &mut own);
    own
}
