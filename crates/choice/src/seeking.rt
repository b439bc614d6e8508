// The search through the choices of a round's nodes: the best so far against one choice after the other.
ghost use Rattle.std.specs.Prelude.{◌≡◌, ◌*◌, ◌≤◌, ◌<◌, length};
ghost use Rattle.entities.specs.Limits.{most_modes, most_terms, row_width};
ghost use Rattle.terms.specs.Rows.{terms_of};
ghost use Rattle.tallying.specs.code.Tallies.{OddsAre};
ghost use Rattle.choice.specs.Choices.{unassigned};
ghost use Rattle.choice.specs.code.Kept.{SlotsFit, PairUnfixed, CoupleLooked};

use crate::{Selection, comparing};
use entities::Triple;
use slots::restrictions::TreeRestrictions;
use tallying::gathered::GatheredRows;
use tallying::{pairs, tally};
use terms::{row, weight};

// What a choice is sought among: the given tree with the modes that its pairs have, the modes that no pair has yet, the gathered rows, and in how many of them each leaf is odd.
#[derive(Clone, Copy)]
pub struct Seeking<'a> {
    pub given: TreeRestrictions<'a>,
    pub free: &'a [u16],
    pub gathered: GatheredRows<'a>,
    pub odds: &'a [u16; 512],
    ghost free_are: { free.now ≡ unassigned given.modes given.assigned.now },
    ghost odds_are: { OddsAre (2 * most_modes) (terms_of row_width gathered.count gathered.rows.now) odds.now },
}

// A node of a round, and what stands in its slots.
#[derive(Clone, Copy)]
struct Node<'a> {
    among: &'a Seeking<'a>,
    number: u16,
    slots: Triple,
    ghost fit: { SlotsFit among.now.given.modes slots },
}

// A node whose X and Y are leaves that aren't fixed yet, so that they take the two leaves of one mode.
#[derive(Clone, Copy)]
struct Pair<'a> {
    node: Node<'a>,
    ghost unfixed: { PairUnfixed node.among.now.given.modes node.slots },
}

// A node whose Z is a leaf that isn't fixed yet, and what was counted for its X and Y: beside any z they weigh `all` and the rows in which z is odd, less z's entry.
#[derive(Clone, Copy)]
struct Counted<'a> {
    node: Node<'a>,
    all: usize,
    less: &'a [u16; 512],
    ghost unfixed: { 3 * node.among.now.given.modes < node.slots.z },
    ghost all_fits: { all ≤ most_terms },
    ghost looked: { CoupleLooked node.among.now.gathered.count node.among.now.gathered.rows.now node.slots all node.among.now.odds.now less.now },
}

impl<'a> Counted<'a> {
    ghost use Rattle.std.specs.Prelude.{◌≡◌, ◌<◌};
    ghost use mathlib.Core.List.{flat_map};
    ghost use Rattle.choice.specs.code.Seeking.{sought_at, z_leaf};

    // The best so far against the choice whose Z leaf takes `mode`, unless that is the pair's; its weight is looked up.
    #[tactic(auto, unfolding(crate::specs::code::Seeking::sought, lists::specs::Least::least, slots::specs::code::Numbers::number_leaf))]
    fn best_of_mode(&self, pair: u16, mode: u16, best: Selection) -> Selection
        requires { mode < self.now.node.among.now.given.modes }
        ensures { result ≡ sought_at self.now.node best (z_leaf self.now.node pair mode) }
    {
        if mode == pair {
            return best;
        }
        let node = &self.node;
        let triple = Triple {
            x: node.slots.x,
            y: node.slots.y,
            z: slots::leaf_of(node.among.given.modes, node.slots.z, mode),
        };
        let at = usize::from(triple.z);
        let weight = self.all + usize::from(node.among.odds[at]) - usize::from(self.less[at]);
        node.better_of(triple, weight, best)
    }

    // The best so far against the choices whose Z leaf takes each free mode but the pair's.
    #[tactic(auto, using(crate::proofs::SoughtSteps::sought_step, crate::proofs::SoughtSteps::sought_end, crate::proofs::FreeModes::free_below))]
    fn best_of_modes(&self, pair: u16, start: Selection) -> Selection
        ensures { result ≡ sought_at self.now.node start (flat_map (z_leaf self.now.node pair) self.now.node.among.now.free.now) }
    {
        let mut best = start;
        for mode in self.node.among.free {
            best = self.best_of_mode(pair, *mode, best);
        }
        best
    }
}

impl<'a> Pair<'a> {
    ghost use Rattle.std.specs.Prelude.{◌≡◌, [], ◌∷◌, ◌<◌, length};
    ghost use Rattle.choice.specs.code.Seeking.{sought_at, leaves_of, beside, pairs_of, couples_of, Weighed};

    // What stands in the slots where X and Y take the leaves of `mode`.
    fn leaves(&self, mode: u16) -> Triple
        requires { mode < self.now.node.among.now.given.modes }
        ensures { result ≡ leaves_of self.now.node mode }
    {
        let modes = self.node.among.given.modes;
        let slots = self.node.slots;
        Triple {
            x: slots::leaf_of(modes, slots.x, mode),
            y: slots::leaf_of(modes, slots.y, mode),
            z: slots.z,
        }
    }

    // The best so far against the choices in which X and Y take the leaves of `mode`.
    #[tactic(auto, unfolding(slots::specs::code::Numbers::number_leaf))]
    fn best_of_leaves(&self, mode: u16, best: Selection) -> Selection
        requires { mode < self.now.node.among.now.given.modes }
        ensures { result ≡ sought_at self.now.node best (beside self.now.node mode (leaves_of self.now.node mode)) }
    {
        let node = Node {
            among: self.node.among,
            number: self.node.number,
            slots: self.leaves(mode),
        };
        node.best_of_pair(mode, best)
    }

    // The best so far against the choices in which X and Y take the leaves of each free mode in turn.
    #[tactic(auto, using(crate::proofs::SoughtSteps::sought_step, crate::proofs::SoughtSteps::sought_end, crate::proofs::FreeModes::free_below))]
    fn best_of_pairs(&self, start: Selection) -> Selection
        ensures { result ≡ sought_at self.now.node start (pairs_of self.now.node) }
    {
        let mut best = start;
        for mode in self.node.among.free {
            best = self.best_of_leaves(*mode, best);
        }
        best
    }

    // The best so far against the choice in which X and Y take the leaves of `mode` beside a Z that stands; its weight is looked up.
    fn best_of_couple(&self, weights: &[u16], mode: u16, best: Selection) -> Selection
        requires mode_fits { mode < self.now.node.among.now.given.modes }
        requires weighed { Weighed self.now.node weights.now }
        ensures { result ≡ sought_at self.now.node best (leaves_of self.now.node mode ∷ []) }
    {
        let weight = usize::from(weights[usize::from(mode)]);
        self.node.better_of(self.leaves(mode), weight, best)
    }

    // The best so far against the choices in which X and Y take the leaves of each free mode in turn beside a Z that stands.
    #[tactic(auto, using(crate::proofs::SoughtSteps::sought_step, crate::proofs::SoughtSteps::sought_end, crate::proofs::FreeModes::free_below))]
    fn best_of_couples(&self, weights: &[u16], start: Selection) -> Selection
        requires { Weighed self.now.node weights.now }
        ensures { result ≡ sought_at self.now.node start (couples_of self.now.node) }
    {
        let mut best = start;
        for mode in self.node.among.free {
            best = self.best_of_couple(weights, *mode, best);
        }
        best
    }

    // Weighs the leaves of every mode beside a Z that stands, from one reading of the rows, in the lent `weights`; then the best so far against all of them.
    #[tactic(auto, unfolding(slots::specs::code::Numbers::number_leaf))]
    fn best_beside(&self, weights: &mut [u16], best: Selection) -> Selection
        requires { (length weights.old ≡ self.now.node.among.now.given.modes) × (self.now.node.slots.x < self.now.node.slots.y) }
        ensures { result ≡ sought_at self.now.node best (couples_of self.now.node) }
    {
        let among = self.node.among;
        pairs::weigh_pairs(&among.gathered, self.node.slots.z, weights);
        self.best_of_couples(weights, best)
    }

    // The best so far against the choices of the node.
    #[tactic(auto, unfolding(crate::specs::code::Numbered::numbered, crate::specs::Choices::with_z))]
    fn best_of_unfixed(&self, best: Selection) -> Selection
        ensures { result ≡ sought_at self.now.node best (pairs_of self.now.node) }
    {
        let modes = self.node.among.given.modes;
        let slots = self.node.slots;
        // in an accepted tree X's leaf is the even one
        if slots::unfixed(modes, slots.z) || slots.y <= slots.x {
            return self.best_of_pairs(best);
        }
        let mut weights = [0u16; 256];
        self.best_beside(&mut weights[..modes], best)
    }
}

impl<'a> Node<'a> {
    ghost use Rattle.std.specs.Prelude.{◌≡◌, [], ◌∷◌};
    ghost use Rattle.terms.specs.Weight.{weight_of};
    ghost use Rattle.choice.specs.code.Seeking.{rows_of, sought_at, beside, choices_of};

    // The best so far against one choice, `triple`, of this weight.
    #[tactic(auto, unfolding(crate::specs::code::Seeking::sought, crate::specs::code::Seeking::weighed, lists::specs::Least::least))]
    fn better_of(&self, triple: Triple, weight: usize, best: Selection) -> Selection
        requires { weight ≡ weight_of triple (rows_of self.now.among.now) }
        ensures { result ≡ sought_at self.now best (triple ∷ []) }
    {
        let candidate = Selection {
            min_weight: weight,
            min_parent: self.number,
            leaf_indices: triple,
        };
        comparing::better(best, candidate)
    }

    // The best so far against X and Y as they stand, with each number that Z may stand as beside the pair's mode; where these are many, the rows are read once for all of them.
    #[tactic(auto, using(crate::proofs::SoughtSteps::heavy_idle, crate::proofs::SoughtSteps::z_leaves_beside, slots::proofs::SlotNumbers::unfixed_above), unfolding(crate::specs::code::Numbered::numbered, crate::specs::Choices::with_z))]
    fn best_of_pair(&self, pair: u16, best: Selection) -> Selection
        ensures { result ≡ sought_at self.now best (beside self.now pair self.now.slots) }
    {
        let among = self.among;
        let slots = self.slots;
        if !slots::unfixed(among.given.modes, slots.z) {
            let weight = weight::weight(
                among.gathered.rows,
                row::WIDTH,
                among.gathered.count,
                slots,
            );
            return self.better_of(slots, weight, best);
        }
        let limit = among.limit_past(best.min_weight);
        let mut less = [0u16; 512];
        let Some(tally) = tally::tally_couple(&among.gathered, slots.x, slots.y, limit, &mut less)
        else {
            return best;
        };
        let counted = Counted {
            node: *self,
            all: tally.all,
            less: &less,
        };
        counted.best_of_modes(pair, best)
    }

    // The best so far against the choices of the node.
    #[tactic(auto, using(slots::proofs::SlotNumbers::unfixed_above, crate::proofs::FreeModes::without_none), unfolding(crate::specs::code::Numbered::numbered_choices))]
    fn best_of_slots(&self, best: Selection) -> Selection
        ensures { result ≡ sought_at self.now best (choices_of self.now) }
    {
        let modes = self.among.given.modes;
        if !slots::unfixed(modes, self.slots.x) || !slots::unfixed(modes, self.slots.y) {
            // a mode that no leaf takes, so that Z may take any
            return self.best_of_pair(modes as u16, best);
        }
        Pair { node: *self }.best_of_unfixed(best)
    }
}

impl<'a> Seeking<'a> {
    ghost use Rattle.std.specs.Prelude.{◌≡◌, true, ◌≤◌, ◌<◌, ltb};
    ghost use Rattle.lists.specs.Members.{every};
    ghost use Rattle.entities.specs.declared.Triple.{Triple};
    ghost use Rattle.terms.specs.Weight.{weight_of};
    ghost use Rattle.choice.specs.Choices.{choices_at};
    ghost use Rattle.choice.specs.code.Seeking.{worst, rows_of, sought, sought_among};

    // A limit past which a couple may be left: a triple whose weight reaches it is heavier than `weight`, and no tie.
    #[tactic(auto, using(terms::proofs::WeightBound::weight_at_most, terms::proofs::RowSteps::length_terms))]
    fn limit_past(&self, weight: usize) -> usize
        ensures { (triple : Triple) → result ≤ weight_of triple (rows_of self.now) → weight < weight_of triple (rows_of self.now) }
    {
        weight.min(self.gathered.count) + 1
    }

    // The best so far against the choices of a node.
    #[tactic(auto, using(crate::proofs::NumberedChoices::numbered_at))]
    fn best_at(&self, number: u16, best: Selection) -> Selection
        requires { number < self.now.given.modes }
        ensures { result ≡ sought (rows_of self.now) number best (choices_at self.now.given.modes self.now.given.tree.now self.now.given.assigned.now number) }
    {
        let node = Node {
            among: self,
            number,
            slots: self.given.slots(usize::from(number)),
        };
        node.best_of_slots(best)
    }

    // The best of all choices of the nodes in `active`; the search begins above every weight, since a row weighs at most 1.
    #[tactic(auto, using(crate::proofs::SoughtSteps::over_step, crate::proofs::SoughtSteps::over_end, lists::proofs::Every::below_at), unfolding(crate::specs::code::Seeking::worst))]
    pub fn best_of_nodes(&self, active: &[u16]) -> Selection
        requires { every (λ node. ltb node self.now.given.modes) active.now ≡ true }
        ensures { result ≡ sought_among self.now (worst self.now.gathered.count) active.now }
    {
        let mut best = Selection {
            min_weight: self.gathered.count + 1,
            min_parent: 0,
            leaf_indices: Triple { x: 0, y: 0, z: 0 },
        };
        for number in active {
            best = self.best_at(*number, best);
        }
        best
    }
}
