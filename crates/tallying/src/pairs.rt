// The weights of the leaves of every mode, 2k and 2k+1, with one z, from one reading of the rows.
ghost use Rattle.std.specs.Prelude.{◌≡◌, ℕ, ◌+◌, ◌*◌, ◌%◌, ◌≤◌, ◌<◌, length, get_or, take};
ghost use Rattle.entities.specs.Limits.{row_width};
ghost use Rattle.terms.specs.Rows.{terms_of};
ghost use Rattle.tallying.specs.code.Tallies.{AllBelow};
ghost use Rattle.tallying.specs.code.Pairs.{beside, PairTurned, RowWeighed, Lifted, PairsWeighed};

use crate::gathered::GatheredRows;
use crate::raising;
use terms::{row, weight};

// The other leaf of a leaf's mode.
fn partner(number: u16) -> u16
    ensures { (number % 2 ≡ 0 → result ≡ number + 1) × (number % 2 ≡ 1 → result + 1 ≡ number) }
{
    if number % 2 == 0 {
        number + 1
    } else {
        number - 1
    }
}

// One number more of the term, in which z is odd or not: the weight of its mode's leaves with z changes where their other leaf was odd just as z is.
fn turn_pair(term: &[u16], at: usize, odd: usize, table: &mut [u16])
    requires at_in_bounds { (at < length term.now) × (odd ≤ 1) }
    requires by_index { (k : ℕ) → k < length table.old → (beside odd k (take at term.now) ≤ get_or table.old k 0) × (get_or table.old k 0 < 65535 + beside odd k (take at term.now)) }
    ensures { PairTurned odd term.now at table.old table.new }
{
    let number = term[at];
    let mode = usize::from(number) / 2;
    if table.len() <= mode || weight::odd_in(&term[..at], partner(number)) != odd {
        return;
    }
    if weight::odd_in(&term[..at], number) == odd {
        table[mode] += 1;
    } else {
        table[mode] -= 1;
    }
}

// The same; where those before are all below both leaves of the mode, its weight goes up if z is not odd, and else stays.
fn turn_next(term: &[u16], at: usize, bound: usize, odd: usize, table: &mut [u16])
    requires at_in_bounds { (at < length term.now) × AllBelow term.now at bound × (odd ≤ 1) }
    requires by_index { (k : ℕ) → k < length table.old → (beside odd k (take at term.now) ≤ get_or table.old k 0) × (get_or table.old k 0 < 65535 + beside odd k (take at term.now)) }
    ensures { PairTurned odd term.now at table.old table.new }
{
    let number = term[at];
    let mode = usize::from(number) / 2;
    if table.len() <= mode {
        return;
    }
    if 2 * mode < bound {
        turn_pair(term, at, odd, table);
    } else if odd == 0 {
        table[mode] += 1;
    }
}

// Whether z is odd in the term; each entry goes up by what the mode's leaves weigh with z in it, less z's own parity.
fn weigh_row(term: &[u16], z: u16, table: &mut [u16]) -> usize
    requires { (k : ℕ) → k < length table.old → (1 ≤ get_or table.old k 0) × (get_or table.old k 0 < 65535) }
    ensures { RowWeighed term.now z table.old table.new result }
{
    let odd = weight::odd_in(term, z);
    let mut bound: usize = 0;
    for at in 0..term.len() {
        turn_next(term, at, bound, odd, table);
        bound = raising::bound_on(bound, term[at]);
    }
    odd
}

// Every number up by one and down by another.
fn lift(table: &mut [u16], up: usize, down: usize)
    requires { (k : ℕ) → k < length table.old → (down ≤ get_or table.old k 0 + up) × (get_or table.old k 0 + up < 65536) }
    ensures { Lifted up down table.old table.new }
{
    for number in table.iter_mut() {
        *number = (usize::from(*number) + up - down) as u16;
    }
}

// For each mode of the table, what its leaves 2k and 2k+1 weigh with z in the gathered rows.
pub fn weigh_pairs(gathered: &GatheredRows<'_>, z: u16, table: &mut [u16])
    ensures { PairsWeighed (length table.new) (terms_of row_width gathered.now.count gathered.now.rows.now) z table.new }
{
    // as much as may be taken off: a row in which z is odd takes 1 off where it weighs nothing
    let count = gathered.count;
    table.fill(count as u16);
    let mut odd: usize = 0;
    for place in 0..count {
        odd += weigh_row(row::term_at(gathered.rows, row::WIDTH, place), z, table);
    }
    lift(table, odd, count);
}
