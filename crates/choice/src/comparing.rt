// Which of two selections is better.
ghost use Rattle.std.specs.Prelude.{◌≡◌, cond, ◌<◌};
ghost use Rattle.lists.specs.Least.{lighter};
ghost use Rattle.choice.specs.code.Seeking.{packed as packed_number, standing};

use crate::Selection;
use entities::Triple;

// The z, y and x of `triple` as one number: one comparison in place of three, in the hottest loop.
#[tactic(auto, unfolding(crate::specs::code::Seeking::packed))]
fn packed(triple: Triple) -> u64
    ensures { (result ≡ packed_number triple) × (result < 281474976710656) }
{
    (u64::from(triple.z) * 65536 + u64::from(triple.y)) * 65536 + u64::from(triple.x)
}

// The better of `best` and `candidate`: the lighter, on equal weight the one with the larger z, y, x, and of equals the first.
#[tactic(auto, unfolding(crate::specs::code::Seeking::standing, lists::specs::Least::lighter))]
pub fn better(best: Selection, candidate: Selection) -> Selection
    ensures { result ≡ cond (lighter standing candidate best) candidate best }
{
    if candidate.min_weight < best.min_weight {
        return candidate;
    }
    if best.min_weight < candidate.min_weight {
        return best;
    }
    if packed(best.leaf_indices) < packed(candidate.leaf_indices) {
        return candidate;
    }
    best
}
