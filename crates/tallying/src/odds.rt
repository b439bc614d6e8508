// In how many rows each number is odd.
ghost use Rattle.std.specs.Prelude.{length};
ghost use Rattle.entities.specs.Limits.{row_width};
ghost use Rattle.terms.specs.Rows.{terms_of};
ghost use Rattle.tallying.specs.code.Tallies.{OddsAre};

use crate::gathered::GatheredRows;
use crate::raising;
use terms::row;

// For each number of the table, in how many of the gathered rows it is odd.
pub fn count_odds(gathered: &GatheredRows<'_>, table: &mut [u16])
    ensures { OddsAre (length table.new) (terms_of row_width gathered.now.count gathered.now.rows.now) table.new }
{
    table.fill(0);
    for place in 0..gathered.count {
        raising::raise(row::term_at(gathered.rows, row::WIDTH, place), table);
    }
}
