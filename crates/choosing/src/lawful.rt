// Lawful triples, decided from the tables of the entities: opens, z-ends, and the holder of each leaf.
ghost use Rattle.std.specs.Prelude.{◌≡◌, true, List, ℕ, ◌*◌, ◌≤◌, ◌<◌, eqb, get_or};
ghost use Rattle.entities.specs.declared.Triple.{Triple as Three};
ghost use Rattle.entities.specs.Limits.{most_modes, entity_room};
ghost use Rattle.history.specs.History.{next_parent, is_open, z_end};
ghost use Rattle.history.specs.computed.Pairs.{holder};
ghost use Rattle.history.specs.Lawful.{three_open, paired as paired_in};
ghost use Rattle.choosing.specs.code.Couples.{
  x_of,
  y_of,
  ends_pair,
  coupled as coupled_in,
  couple,
  OpensAre,
  EndsAre,
  HoldersAre,
  Tied,
};

use crate::entity_tables::Tables;
use entities::Triple;

// x and y of the triples that an entity names.
#[derive(Clone, Copy)]
pub struct Couple {
    pub x: u16,
    pub y: u16,
}

impl Tables {
    // The entity is open; numbers beyond the table are no entity.
    #[tactic(auto, using(crate::proofs::Couples::closed_beyond))]
    pub fn marked(&self, entity: u16) -> bool
        ensures entity_lt_entity_room { result ≡ true → entity < entity_room }
        ensures by_index { (modes : ℕ) (history : List Three) → next_parent modes history ≤ entity_room → OpensAre entity_room modes history self.now.opens → result ≡ is_open modes history entity }
    {
        let at = usize::from(entity);
        at < self.opens.len() && self.opens[at]
    }

    // Three open entities.
    #[tactic(auto, unfolding(history::specs::Lawful::three_open))]
    pub fn three_open(&self, triple: Triple) -> bool
        ensures x_lt_entity_room { result ≡ true → (triple.x < entity_room) × (triple.y < entity_room) × (triple.z < entity_room) }
        ensures by_index { (modes : ℕ) (history : List Three) → next_parent modes history ≤ entity_room → OpensAre entity_room modes history self.now.opens → result ≡ three_open modes history triple }
    {
        self.marked(triple.x) && self.marked(triple.y) && self.marked(triple.z)
    }

    // The entity's z-end.
    fn end_of(&self, entity: u16) -> usize
        requires { entity < entity_room }
        ensures { (result < 65536) × (result ≡ get_or self.now.ends entity 0) }
    {
        usize::from(self.ends[usize::from(entity)])
    }

    // x's z-end is an even 2k below 2n and y's is 2k+1.
    #[tactic(auto, unfolding(crate::specs::code::Couples::ends_pair))]
    fn ends_paired(&self, modes: usize, x: u16, y: u16) -> bool
        requires { (modes ≤ most_modes) × (x < entity_room) × (y < entity_room) }
        ensures { (history : List Three) → EndsAre entity_room modes history self.now.ends → result ≡ ends_pair modes (z_end modes history x) (z_end modes history y) }
    {
        let end = self.end_of(x);
        end % 2 == 0 && end < 2 * modes && self.end_of(y) == end + 1
    }

    // Three different entities, x's z-end an even 2k below 2n and y's 2k+1.
    #[tactic(auto, unfolding(history::specs::Lawful::paired, crate::specs::code::Couples::ends_pair))]
    pub fn paired(&self, modes: usize, triple: Triple) -> bool
        requires { (modes ≤ most_modes) × (triple.x < entity_room) × (triple.y < entity_room) }
        ensures { (history : List Three) → EndsAre entity_room modes history self.now.ends → result ≡ paired_in modes history triple }
    {
        triple.x != triple.y
            && triple.x != triple.z
            && triple.y != triple.z
            && self.ends_paired(modes, triple.x, triple.y)
    }

    // What the entity names as x and y: itself and the holder of the leaf paired with its z-end, the even one first.
    fn name_pair(&self, a: u16) -> Couple
        requires { (a < entity_room) × (get_or self.now.ends a 0 < 3 * most_modes) }
        ensures { (modes : ℕ) (history : List Three) → EndsAre entity_room modes history self.now.ends → HoldersAre entity_room modes history self.now.holders → (result.x ≡ x_of modes history a) × (result.y ≡ y_of modes history a) }
    {
        let end = self.end_of(a);
        if end % 2 == 0 {
            Couple {
                x: a,
                y: self.holders[end + 1],
            }
        } else {
            Couple {
                x: self.holders[end - 1],
                y: a,
            }
        }
    }

    // Two open entities with paired z-ends.
    #[tactic(auto, unfolding(crate::specs::code::Couples::coupled))]
    fn coupled(&self, modes: usize, x: u16, y: u16) -> bool
        requires { modes ≤ most_modes }
        ensures { (history : List Three) → next_parent modes history ≤ entity_room → OpensAre entity_room modes history self.now.opens → EndsAre entity_room modes history self.now.ends → result ≡ coupled_in modes history x y }
    {
        self.marked(x) && self.marked(y) && x != y && self.ends_paired(modes, x, y)
    }

    // The x and y that the entity names, where they are lawful beside each other.
    #[tactic(auto, unfolding(crate::specs::code::Couples::couple))]
    pub fn couple_of(&self, modes: usize, a: u16) -> Option<Couple>
        requires { (modes ≤ most_modes) × (a < entity_room) × (get_or self.now.ends a 0 < 3 * most_modes) }
        ensures { (history : List Three) → Tied entity_room modes history self.now → result ≡ couple modes history a }
    {
        let pair = self.name_pair(a);
        if self.coupled(modes, pair.x, pair.y) {
            Some(pair)
        } else {
            None
        }
    }

    // The entity is the holder of its z-end.
    fn holds_end(&self, a: u16) -> bool
        requires { (a < entity_room) × (get_or self.now.ends a 0 < 3 * most_modes) }
        ensures { (modes : ℕ) (history : List Three) → EndsAre entity_room modes history self.now.ends → HoldersAre entity_room modes history self.now.holders → result ≡ eqb (holder modes history (z_end modes history a)) a }
    {
        self.holders[self.end_of(a)] == a
    }

    // The other of the two that the entity names is lower, and names the same two.
    pub fn named_before(&self, a: u16, named: Couple) -> bool
        requires { (a < entity_room) × (get_or self.now.ends a 0 < 3 * most_modes) }
        ensures { (modes : ℕ) (history : List Three) → EndsAre entity_room modes history self.now.ends → HoldersAre entity_room modes history self.now.holders → couple modes history a ≡ Some named → result ≡ true → (lower : ℕ) × ((lower < a) × (couple modes history lower ≡ Some named)) }
    {
        (named.x < a || named.y < a) && self.holds_end(a)
    }
}
