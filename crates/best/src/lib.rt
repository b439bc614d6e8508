// How far any way of merging could get: for few modes every lawful sequence of merges is gone through, each once, and of those whose tree weighs
// least the first is told and how many they are. The sequences are numbered in their order and each is found from its number, so there is no
// search and nothing to remember but the best so far.
#![tactic(auto)]

ghost use Rattle.std.specs.Prelude.{◌*◌, ◌≤◌, ◌≡◌, length, Ok};
ghost use Rattle.terms.specs.Good.{checked};
ghost use Rattle.best.specs.computed.Lightest.{least_weight, how_many};
ghost use Rattle.best.specs.Call.{most_to_try, terms_given, sequence_after, Sought};

use crate::search::Operators;
use refusal::Refusal;
use terms::checking;

mod lawful;
mod search;
mod sequence;

// The least tree weight of all lawful sequences, and how many reach it.
#[derive(Clone, Copy)]
pub struct Least {
    pub weight: u64,
    pub reached: usize,
}

// The best of good terms: their operators are found once, for all sequences.
fn find(modes: usize, terms: &[u16], count: usize, sequence: &mut [u16]) -> Least
    requires terms_value { checked modes terms.now ≡ Ok count }
    requires le_modes { (1 ≤ modes) × (modes ≤ most_to_try) }
    requires modes_in_bounds { 3 * modes ≤ length sequence.old }
    ensures value { result ≡ (record { weight = least_weight modes (terms_given terms.now); reached = how_many modes (terms_given terms.now) }) }
    ensures sequence_after { sequence.new ≡ sequence_after (Ok result) modes terms.now sequence.old }
{
    let own = tree_weight::own_operators(modes, terms, count);
    let operators = Operators {
        modes,
        rows: &own,
        count,
    };
    let lead = operators.lightest();
    let first = sequence::nth_sequence(modes, lead.number);
    sequence::put_numbers(&first[..modes], sequence);
    Least {
        weight: lead.weight,
        reached: lead.reached,
    }
}

// The least tree weight of all lawful sequences, how many reach it, and the first of them into the lent numbers; or why it is refused.
pub fn best(modes: usize, terms: &[u16], sequence: &mut [u16]) -> Result<Least, Refusal>
    ensures { Sought most_to_try modes terms.now sequence.old result sequence.new }
{
    if modes == 0 {
        return Err(Refusal::Modes);
    }
    if 4 < modes {
        return Err(Refusal::TooManyToTry);
    }
    let count = checking::check_terms(modes, terms)?;
    if sequence.len() < 3 * modes {
        return Err(Refusal::Room);
    }
    Ok(find(modes, terms, count, sequence))
}
