// The sequences by number: behind each triple of a step stand as many, so the number says which triple the step has and what is left to say.
ghost use Rattle.std.specs.Prelude.{◌≡◌, [], ◌*◌, ◌≤◌, ◌<◌, reverse, length, get_or, take};
ghost use Rattle.lists.specs.Written.{written_at};
ghost use Rattle.best.specs.Call.{most_to_try, sequence_numbers};
ghost use Rattle.best.specs.Sequences.{sequences, sequence_count};

use crate::lawful::{NO_MERGE, SoFar};
use entities::Triple;

// How many sequences the last `steps` merges have.
#[tactic(auto, unfolding(crate::specs::Sequences::sequence_count, crate::specs::Sequences::step_count))]
pub fn sequence_count(steps: usize) -> usize
    requires { steps ≤ most_to_try }
    ensures { (result ≡ sequence_count steps) × (0 < result) × (result ≤ 2520) }
{
    match steps {
        0 => 1,
        1 => 1,
        2 => 6,
        3 => 90,
        _ => 2520,
    }
}

// Finds the sequence of this number; its merges stand in front, the oldest first.
#[tactic(auto, using(crate::proofs::SequenceNumbers::sequence_next, crate::proofs::SequenceNumbers::sequence_numbered, crate::proofs::SequenceNumbers::sequences_counted), unfolding(crate::specs::code::Numbered::sequence_at))]
pub fn nth_sequence(modes: usize, number: usize) -> [Triple; 4]
    requires modes_le_most_to_try { modes ≤ most_to_try }
    requires number_in_bounds { number < length (sequences modes) }
    ensures { reverse (take modes result) ≡ get_or (sequences modes) number [] }
{
    let mut merges = [NO_MERGE; 4];
    let mut left = number;
    for step in 0..modes {
        let ways = sequence_count(modes - step - 1);
        let so_far = SoFar {
            modes,
            merges: &merges[..step],
        };
        merges[step] = so_far.nth_lawful(left / ways);
        left %= ways;
    }
    merges
}

// Puts the numbers of merges, x, y and z of each, over the front of others.
pub fn put_numbers(merges: &[Triple], numbers: &mut [u16])
    requires { 3 * length merges.now ≤ length numbers.old }
    ensures { numbers.new ≡ written_at 0 (sequence_numbers (reverse merges.now)) numbers.old }
{
    for (step, merge) in merges.iter().enumerate() {
        let at = 3 * step;
        numbers[at..at + 3].copy_from_slice(&[merge.x, merge.y, merge.z]);
    }
}
