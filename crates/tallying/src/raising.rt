// A table of numbers raised by one row: at each number that is odd in it.
ghost use Rattle.std.specs.Prelude.{ℕ, ◌+◌, ◌%◌, ◌≤◌, ◌<◌, length, get_or, take};
ghost use Rattle.lists.specs.Counting.{occurrences};
ghost use Rattle.tallying.specs.code.Tallies.{AllBelow, Turned, Raised};

use terms::weight;

// A bound of the numbers so far, and of one more.
pub fn bound_on(bound: usize, number: u16) -> usize
    ensures { (bound ≤ result) × (number < result) }
{
    bound.max(usize::from(number) + 1)
}

// One number more of the term: its entry goes up where it was even in those before, and down again where it was odd. Where those before are all below it, that needs no count.
fn turn(term: &[u16], at: usize, bound: usize, table: &mut [u16])
    requires at_in_bounds { (at < length term.now) × AllBelow term.now at bound }
    requires by_index { (n : ℕ) → n < length table.old → (occurrences n (take at term.now) % 2 ≤ get_or table.old n 0) × (get_or table.old n 0 < 65535 + occurrences n (take at term.now) % 2) }
    ensures { Turned term.now at table.old table.new }
{
    let number = term[at];
    let place = usize::from(number);
    if table.len() <= place {
        return;
    }
    if bound <= place {
        table[place] += 1;
        return;
    }
    let odd = weight::odd_in(&term[..at], number) as u16;
    table[place] = table[place] - odd + (1 - odd);
}

// The table goes up by one at each number that is odd in the term.
pub fn raise(term: &[u16], table: &mut [u16])
    requires { (n : ℕ) → n < length table.old → get_or table.old n 0 < 65535 }
    ensures { Raised term.now table.old table.new }
{
    let mut bound: usize = 0;
    for at in 0..term.len() {
        turn(term, at, bound, table);
        bound = bound_on(bound, term[at]);
    }
}
