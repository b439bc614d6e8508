// The choice of a step: the least weight over all lawful triples, on a tie the triple named first.
ghost use Rattle.std.specs.Prelude.{◌≡◌, List, [], ◌∷◌, ℕ, ◌*◌, ◌≤◌, ◌<◌, get_or};
ghost use Rattle.entities.specs.declared.Triple.{Triple as Three};
ghost use Rattle.entities.specs.Limits.{most_modes, most_terms, entity_room};
ghost use Rattle.history.specs.History.{next_parent};
ghost use Rattle.history.specs.computed.Choosing.{candidates};
ghost use Rattle.choosing.specs.code.Couples.{Tied, weight_here, seek, nothing};

use crate::entity_tables::Tables;
use crate::seeking::Seeking;
use entities::Triple;
use tallying::gathered::GatheredRows;

// The lightest triple so far and its weight.
#[derive(Clone, Copy)]
pub struct Best {
    pub weight: usize,
    pub triple: Triple,
}

// The lighter of the best so far and a triple; on a tie the best so far.
#[tactic(auto, unfolding(crate::specs::code::Couples::seek, crate::specs::code::Couples::weighed, lists::specs::Least::least, lists::specs::Least::lighter))]
pub(crate) fn lighter(best: Best, triple: Triple, weight: usize) -> Best
    ensures { (measure : Three → ℕ) → measure triple ≡ weight → result ≡ seek measure best (triple ∷ []) }
{
    if weight < best.weight {
        Best { weight, triple }
    } else {
        best
    }
}

// Before any triple: none is heavier than the number of rows.
pub(crate) fn none_yet(count: usize) -> Best
    requires { count ≤ most_terms }
    ensures { result ≡ nothing count }
{
    Best {
        weight: count + 1,
        triple: Triple { x: 0, y: 0, z: 0 },
    }
}

// The least of all lawful triples; in how many rows each entity is odd is counted once for all of them.
pub fn choose(tables: &Tables, gathered: &GatheredRows<'_>, modes: usize, next: u16) -> Best
    requires limits { (modes ≤ most_modes) × (next ≤ entity_room) }
    requires by_index { (entity : ℕ) → entity < next → get_or tables.now.ends entity 0 < 3 * most_modes }
    ensures { (history : List Three) → Tied entity_room modes history tables.now → next ≡ next_parent modes history → result ≡ seek (weight_here gathered.now.count gathered.now.rows.now) (nothing gathered.now.count) (candidates modes history) }
{
    let mut odds = [0u16; 769];
    tallying::odds::count_odds(gathered, &mut odds);
    let seeking = Seeking {
        tables,
        modes,
        next,
        gathered: *gathered,
        odds: &odds,
    };
    seeking.least_of_all()
}
