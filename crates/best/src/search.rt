// All sequences gone through in their order, with the lightest so far.
ghost use Rattle.std.specs.Prelude.{◌≤◌};
ghost use Rattle.std.proofs.Props.{props};
ghost use Rattle.tree_weight.specs.code.Promises.{RowsBelow};
ghost use Rattle.best.specs.Call.{most_to_try};

use crate::sequence;
use entities::{Triple, codes};

// The lightest of the sequences so far: its weight, how many are as light, and the number of the first of them.
#[derive(Clone, Copy)]
pub struct Lead {
    pub weight: u64,
    pub reached: usize,
    pub number: usize,
}

// What sequences are weighed by: the operators of the terms.
#[derive(Clone, Copy)]
pub struct Operators<'a> {
    pub modes: usize,
    pub rows: &'a [u16],
    pub count: usize,
    ghost few: { (1 ≤ modes) × (modes ≤ most_to_try) },
    ghost below: { RowsBelow modes count rows.now } by { Prim.hlevel props },
}

impl<'a> Operators<'a> {
    ghost use Rattle.std.specs.Prelude.{◌≡◌, [], map, reverse, ◌+◌, ◌*◌, ◌<◌, length, get_or};
    ghost use Rattle.entities.specs.Codes.{child_code};
    ghost use Rattle.finished.specs.Finished.{AllMerged};
    ghost use Rattle.best.specs.Call.{sequence_numbers};
    ghost use Rattle.best.specs.Sequences.{sequences};
    ghost use Rattle.best.specs.code.Numbered.{weight_by, Led};

    // Puts the tree table of a sequence: the codes of its numbers, the leaf 2n being the absent child.
    fn put_tree(&self, merges: &[Triple], tree: &mut [u16])
        requires { length tree.old ≡ 3 * length merges.now }
        ensures { tree.new ≡ map (child_code self.now.modes (2 * self.now.modes)) (sequence_numbers (reverse merges.now)) }
    {
        sequence::put_numbers(merges, tree);
        let last = (2 * self.modes) as u16;
        for number in tree.iter_mut() {
            *number = codes::code(self.modes, last, *number);
        }
    }

    // What the tree of a sequence weighs.
    fn weigh(&self, merges: &[Triple]) -> u64
        requires { AllMerged self.now.modes (reverse merges.now) }
        ensures { result ≡ weight_by self.now.modes self.now.count self.now.rows.now (reverse merges.now) }
    {
        let mut tree = [0u16; 12];
        let end = 3 * self.modes;
        self.put_tree(merges, &mut tree[..end]);
        tree_weight::operators_weight(self.modes, &tree[..end], self.rows, self.count)
    }

    // What the sequence of this number weighs.
    #[tactic(auto, using(crate::proofs::NumberedMerges::numbered_merged))]
    fn weigh_nth(&self, number: usize) -> u64
        requires { number < length (sequences self.now.modes) }
        ensures { result ≡ weight_by self.now.modes self.now.count self.now.rows.now (get_or (sequences self.now.modes) number []) }
    {
        let merges = sequence::nth_sequence(self.modes, number);
        self.weigh(&merges[..self.modes])
    }

    // The first sequence as the lightest so far, none counted yet.
    #[tactic(auto, using(crate::proofs::LightestBest::sequences_there))]
    fn start(&self) -> Lead
        ensures { Led self.now.modes self.now.count self.now.rows.now 0 result }
    {
        Lead {
            weight: self.weigh_nth(0),
            reached: 0,
            number: 0,
        }
    }

    // The next sequence met: it leads where it is lighter, and is counted where it is as light. Of several as light the first stays.
    #[tactic(auto, using(crate::proofs::LeadOn::reached_small, crate::proofs::SequenceNumbers::sequences_counted, crate::proofs::SequenceNumbers::few_sequences))]
    fn meet(&self, number: usize, lead: Lead) -> Lead
        requires number_in_bounds { number < length (sequences self.now.modes) }
        requires led { Led self.now.modes self.now.count self.now.rows.now number lead }
        ensures { Led self.now.modes self.now.count self.now.rows.now (number + 1) result }
    {
        let weight = self.weigh_nth(number);
        if weight < lead.weight {
            return Lead {
                weight,
                reached: 1,
                number,
            };
        }
        if weight == lead.weight {
            return Lead {
                weight,
                reached: lead.reached + 1,
                number: lead.number,
            };
        }
        lead
    }

    // The lightest of all sequences.
    #[tactic(auto, using(crate::proofs::SequenceNumbers::sequences_counted))]
    pub fn lightest(&self) -> Lead
        ensures { Led self.now.modes self.now.count self.now.rows.now (length (sequences self.now.modes)) result }
    {
        let mut lead = self.start();
        for number in 0..sequence::sequence_count(self.modes) {
            lead = self.meet(number, lead);
        }
        lead
    }
}
