// The search through the lawful triples of a step: the best so far against those of one couple after the other.
ghost use Rattle.std.specs.Prelude.{ℕ, ◌*◌, ◌≤◌, ◌<◌, get_or};
ghost use Rattle.entities.specs.Limits.{most_modes, most_terms, row_width, entity_room};
ghost use Rattle.terms.specs.Rows.{terms_of};
ghost use Rattle.tallying.specs.code.Tallies.{OddsAre};
ghost use Rattle.choosing.specs.code.Couples.{CoupleLooked, CoupleBounded};

use crate::choice;
use crate::choice::Best;
use crate::entity_tables::Tables;
use crate::lawful::Couple;
use entities::Triple;
use tallying::gathered::GatheredRows;
use tallying::tally;

// What a choice is sought among: the tables of the entities below `next`, the gathered rows, and in how many of them each entity is odd.
#[derive(Clone, Copy)]
pub struct Seeking<'a> {
    pub tables: &'a Tables,
    pub modes: usize,
    pub next: u16,
    pub gathered: GatheredRows<'a>,
    pub odds: &'a [u16; 769],
    ghost limits: { (modes ≤ most_modes) × (next ≤ entity_room) },
    ghost ends: { (entity : ℕ) → entity < next → get_or tables.now.ends entity 0 < 3 * most_modes },
    ghost odds_are: { OddsAre entity_room (terms_of row_width gathered.count gathered.rows.now) odds.now },
}

// A couple and what was counted for it: beside any z it weighs `all` and the rows in which z is odd, less z's entry, and never less than `apart`.
#[derive(Clone, Copy)]
struct Counted<'a> {
    among: &'a Seeking<'a>,
    named: Couple,
    less: &'a [u16; 769],
    all: usize,
    apart: usize,
    ghost all_fits: { all ≤ most_terms },
    ghost looked: { CoupleLooked among.now.gathered.count among.now.gathered.rows.now named all among.now.odds.now less.now },
    ghost bounded: { CoupleBounded among.now.gathered.count among.now.gathered.rows.now named apart },
}

impl<'a> Counted<'a> {
    ghost use Rattle.std.specs.Prelude.{◌≡◌, cond, List, [], ◌∷◌};
    ghost use Rattle.entities.specs.declared.Triple.{Triple as Three};
    ghost use Rattle.choosing.specs.code.Couples.{free, beside, seek};
    ghost use Rattle.choosing.specs.code.Seeking.{measured, TiedTo, triple_of};

    // The best so far against the triple of the couple and `z`, where z is free beside it.
    #[tactic(auto, unfolding(crate::specs::code::Couples::free, crate::specs::code::Couples::seek, lists::specs::Least::least))]
    fn best_beside(&self, z: u16, best: Best) -> Best
        ensures { (history : List Three) → TiedTo self.now.among.now history → result ≡ seek (measured self.now.among.now) best (cond (free self.now.among.now.modes history (triple_of self.now.named z)) (triple_of self.now.named z ∷ []) []) }
    {
        let Couple { x, y } = self.named;
        if x == z || y == z || !self.among.tables.marked(z) {
            return best;
        }
        let at = usize::from(z);
        let weight = self.all + usize::from(self.among.odds[at]) - usize::from(self.less[at]);
        choice::lighter(best, Triple { x, y, z }, weight)
    }

    // The best so far against the triples of the couple with every z in turn; none is below `apart`, so a best that reaches it ends the search.
    fn best_of_rest(&self, start: Best) -> Best
        ensures { (history : List Three) → TiedTo self.now.among.now history → result ≡ seek (measured self.now.among.now) start (beside self.now.among.now.modes history self.now.named.x self.now.named.y 0 self.now.among.now.next) }
    {
        let mut best = start;
        for z in 0..self.among.next {
            if best.weight <= self.apart {
                return best;
            }
            best = self.best_beside(z, best);
        }
        best
    }
}

impl<'a> Seeking<'a> {
    ghost use Rattle.std.specs.Prelude.{◌≡◌, List, ◌<◌};
    ghost use Rattle.entities.specs.declared.Triple.{Triple as Three};
    ghost use Rattle.history.specs.History.{next_parent};
    ghost use Rattle.history.specs.computed.Choosing.{candidates};
    ghost use Rattle.choosing.specs.code.Couples.{SettledBelow, beside, beside_couple, couple, seek, nothing};
    ghost use Rattle.choosing.specs.code.Seeking.{measured, TiedTo};

    // The best so far against the triples of a couple with every z; the rows are read once, and no further than the best goes.
    fn best_of_couple(&self, named: Couple, best: Best) -> Best
        ensures { (history : List Three) → TiedTo self.now history → result ≡ seek (measured self.now) best (beside self.now.modes history named.x named.y 0 self.now.next) }
    {
        let mut less = [0u16; 769];
        let Couple { x, y } = named;
        let Some(tally) = tally::tally_couple(&self.gathered, x, y, best.weight, &mut less) else {
            return best;
        };
        let counted = Counted {
            among: self,
            named,
            less: &less,
            all: tally.all,
            apart: tally.apart,
        };
        counted.best_of_rest(best)
    }

    // The best so far against the triples that an entity names, unless a lower one named them.
    fn best_with(&self, a: u16, best: Best) -> Best
        requires { a < self.now.next }
        ensures { (history : List Three) → TiedTo self.now history → SettledBelow (measured self.now) self.now.modes history self.now.next best a → result ≡ seek (measured self.now) best (beside_couple self.now.modes history self.now.next (couple self.now.modes history a)) }
    {
        let Some(named) = self.tables.couple_of(self.modes, a) else {
            return best;
        };
        if self.tables.named_before(a, named) {
            return best;
        }
        self.best_of_couple(named, best)
    }

    // The least of all lawful triples, each named in ascending a, then z; none is lighter than 0.
    pub fn least_of_all(&self) -> Best
        ensures { (history : List Three) → TiedTo self.now history → self.now.next ≡ next_parent self.now.modes history → result ≡ seek (measured self.now) (nothing self.now.gathered.count) (candidates self.now.modes history) }
    {
        let mut best = choice::none_yet(self.gathered.count);
        for a in 0..self.next {
            if best.weight == 0 {
                return best;
            }
            best = self.best_with(a, best);
        }
        best
    }
}
