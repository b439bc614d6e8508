// Which triples are lawful after the merges so far: these are few, so openness and z-ends are read off them.
ghost use Rattle.std.specs.Prelude.{◌≡◌, ◌≤◌, ◌<◌, length};
ghost use Rattle.history.specs.History.{among};
ghost use Rattle.best.specs.Call.{most_to_try};
ghost use Rattle.best.specs.code.Numbered.{triple_at};

use entities::{Triple, parents};

// What stands for no merge.
pub const NO_MERGE: Triple = Triple { x: 0, y: 0, z: 0 };

// The merges so far of a sequence, the oldest first.
#[derive(Clone, Copy)]
pub struct SoFar<'a> {
    pub modes: usize,
    pub merges: &'a [Triple],
    ghost few: { modes ≤ most_to_try },
    ghost inside: { length merges.now ≤ modes },
}

// The entity is one of the merge's three.
#[tactic(auto, unfolding(history::specs::History::among))]
fn among(merge: Triple, entity: u16) -> bool
    ensures { result ≡ among merge entity }
{
    entity == merge.x || entity == merge.y || entity == merge.z
}

// The triple of this number, of the first `count` entities.
#[tactic(auto, unfolding(crate::specs::code::Numbered::triple_at))]
fn triple_at(count: u16, number: u16) -> Triple
    requires { 0 < count }
    ensures { result ≡ triple_at count number }
{
    let front = number / count;
    Triple {
        x: front / count,
        y: front % count,
        z: number % count,
    }
}

impl<'a> SoFar<'a> {
    ghost use Rattle.std.specs.Prelude.{◌+◌, ◌*◌, reverse, get_or};
    ghost use Rattle.history.specs.History.{is_open, z_end};
    ghost use Rattle.history.specs.Lawful.{three_open, paired};
    ghost use Rattle.history.specs.computed.Pairs.{is_lawful};
    ghost use Rattle.best.specs.Sequences.{lawful_triples};
    ghost use Rattle.best.specs.code.Numbered.{no_merge};

    // The entity is open.
    #[tactic(auto, using(crate::proofs::MergesKept::parent_opens, crate::proofs::MergesKept::child_closes, crate::proofs::MergesKept::others_stay), unfolding(history::specs::History::is_open))]
    fn is_open(&self, entity: u16) -> bool
        ensures { result ≡ is_open self.now.modes (reverse self.now.merges.now) entity }
    {
        for (step, merge) in self.merges.iter().enumerate().rev() {
            if entity == parents::parent_number(self.modes, step) {
                return true;
            }
            if among(*merge, entity) {
                return false;
            }
        }
        usize::from(entity) <= 2 * self.modes
    }

    // The entity's z-end.
    #[tactic(auto, using(crate::proofs::MergesKept::parent_ends, crate::proofs::MergesKept::others_end), unfolding(history::specs::History::z_end))]
    fn z_end(&self, entity: u16) -> u16
        ensures { result ≡ z_end self.now.modes (reverse self.now.merges.now) entity }
    {
        let mut at = entity;
        for (step, merge) in self.merges.iter().enumerate().rev() {
            if at == parents::parent_number(self.modes, step) {
                at = merge.z;
            }
        }
        at
    }

    // Three open entities.
    #[tactic(auto, unfolding(history::specs::Lawful::three_open))]
    fn three_open(&self, triple: Triple) -> bool
        ensures { result ≡ three_open self.now.modes (reverse self.now.merges.now) triple }
    {
        self.is_open(triple.x) && self.is_open(triple.y) && self.is_open(triple.z)
    }

    // Three different entities, x's z-end an even 2k below 2n and y's 2k+1.
    #[tactic(auto, unfolding(history::specs::Lawful::paired))]
    fn are_paired(&self, triple: Triple) -> bool
        ensures { result ≡ paired self.now.modes (reverse self.now.merges.now) triple }
    {
        if triple.x == triple.y || triple.x == triple.z || triple.y == triple.z {
            return false;
        }
        let end = usize::from(self.z_end(triple.x));
        end % 2 == 0 && end < 2 * self.modes && usize::from(self.z_end(triple.y)) == end + 1
    }

    // The triple is lawful.
    #[tactic(auto, unfolding(history::specs::computed::Pairs::is_lawful))]
    fn is_lawful(&self, triple: Triple) -> bool
        ensures { result ≡ is_lawful self.now.modes (reverse self.now.merges.now) triple }
    {
        self.three_open(triple) && self.are_paired(triple)
    }

    // The lawful triple of this number, in ascending order.
    pub fn nth_lawful(&self, number: usize) -> Triple
        ensures { result ≡ get_or (lawful_triples self.now.modes (reverse self.now.merges.now)) number no_merge }
    {
        let so_far = *self;
        let count = parents::parent_number(self.modes, self.merges.len());
        (0..count * (count * count))
            .map(|at| triple_at(count, at))
            .filter(move |triple| so_far.is_lawful(*triple))
            .nth(number)
            .unwrap_or(NO_MERGE)
    }
}
