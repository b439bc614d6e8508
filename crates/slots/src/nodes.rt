// The nodes of a round: those that remain, farthest from the root, and what the heuristic keeps of them.
ghost use Rattle.std.specs.Prelude.{◌≡◌, true, cond, List, [], ◌∷◌, ◌++◌, map, ℕ, ◌+◌, ◌*◌, ◌≤◌, ◌<◌, ltb, length, take, drop};
ghost use Rattle.lists.specs.Members.{every, some_of, firsts};
ghost use Rattle.entities.specs.Limits.{most_modes};
ghost use Rattle.slots.specs.Heuristics.{heuristic_number};
ghost use Rattle.slots.specs.Nodes.{
  distance as distance_of,
  complete as is_complete,
  remaining,
  largest as largest_of,
  farthest,
  narrowed,
  active as active_nodes,
};
ghost use Rattle.slots.specs.code.Numbers.{number_fixed};
ghost use Rattle.slots.specs.code.Promises.{Distances};
ghost use Rattle.slots.specs.code.Restrictions.{alike_in};

use crate::heuristics::Heuristic;
use crate::restrictions::TreeRestrictions;
use tree::table;

// How many steps up from `node` lead to the root; at most `steps` are counted.
fn distance(tree: &[u16], steps: usize, node: usize) -> usize
    ensures { result ≡ distance_of tree.now steps node }
{
    let mut at = node;
    for up in 0..steps {
        let place = table::place_of(tree, at);
        if tree.len() <= place {
            return up;
        }
        at = place / 3;
    }
    steps
}

// The distance of each node, so that a round takes no search.
pub fn fill_distances(modes: usize, tree: &[u16], distances: &mut [usize])
    requires { modes ≤ length distances.old }
    ensures { Distances modes tree.now distances.new }
{
    for node in 0..modes {
        distances[node] = distance(tree, modes, node);
    }
}

// The slot is a fixed leaf or a child.
#[tactic(auto, unfolding(crate::specs::code::Numbers::number_fixed))]
fn is_fixed(modes: usize, slot: u16) -> bool
    requires { modes ≤ most_modes }
    ensures { result ≡ number_fixed modes slot }
{
    !crate::unfixed(modes, slot) && usize::from(slot) != 2 * modes
}

// Puts `number` behind the first `count` of `numbers` where `stays` is true; returns how many there are then.
pub fn put_if(numbers: &mut [u16], count: usize, number: u16, stays: bool) -> usize
    requires { count < length numbers.old }
    ensures { (result ≤ count + 1) × (take result numbers.new ≡ take count numbers.old ++ cond stays (number ∷ []) []) }
{
    if !stays {
        return count;
    }
    numbers[count] = number;
    count + 1
}

// The distance of a node.
fn distance_at(modes: usize, distances: &[usize], node: u16) -> usize
    requires { (modes ≤ length distances.now) × (node < modes) }
    ensures { (table : List ℕ) → Distances modes table distances.now → result ≡ distance_of table modes node }
{
    distances[usize::from(node)]
}

// The largest distance of these nodes.
fn largest(modes: usize, distances: &[usize], left: &[u16]) -> usize
    requires modes_in_bounds { modes ≤ length distances.now }
    requires left_value { every (λ node. ltb node modes) left.now ≡ true }
    ensures { (table : List ℕ) → Distances modes table distances.now → result ≡ largest_of (map (distance_of table modes) left.now) }
{
    let mut most = 0;
    for node in left {
        most = most.max(distance_at(modes, distances, *node));
    }
    most
}

// The nodes of these with the largest distance; how many there are.
fn fill_far(modes: usize, distances: &[usize], left: &[u16], far: &mut [u16]) -> usize
    requires modes_in_bounds { (modes ≤ length distances.now) × (length left.now ≤ length far.old) }
    requires left_value { every (λ node. ltb node modes) left.now ≡ true }
    ensures { (result ≤ length left.now) × ((table : List ℕ) → Distances modes table distances.now → take result far.new ≡ farthest modes table left.now) }
{
    let most = largest(modes, distances, left);
    let mut count = 0;
    for node in left {
        let stays = distance_at(modes, distances, *node) == most;
        count = put_if(far, count, *node, stays);
    }
    count
}

// One node of the list put at the front; how many there are then.
fn fill_one(far: &[u16], at: usize, kept: &mut [u16]) -> usize
    requires { length far.now ≤ length kept.old }
    ensures { (result ≤ length far.now) × (take result kept.new ≡ take 1 (drop at far.now)) }
{
    if far.len() <= at {
        return 0;
    }
    kept[0] = far[at];
    1
}

impl TreeRestrictions<'_> {
    // Every slot of the node is a fixed leaf, a child or, under Z, empty.
    fn complete(&self, node: usize) -> bool
        requires { node < self.now.modes }
        ensures { result ≡ is_complete self.now.modes self.now.tree.now self.now.assigned.now node }
    {
        let at = self.slots(node);
        is_fixed(self.modes, at.x)
            && is_fixed(self.modes, at.y)
            && !crate::unfixed(self.modes, at.z)
    }

    // The nodes that aren't complete, ascending; how many there are.
    fn fill_remaining(&self, left: &mut [u16]) -> usize
        requires { self.now.modes ≤ length left.old }
        ensures { (result ≤ self.now.modes) × (take result left.new ≡ remaining self.now.modes self.now.tree.now self.now.assigned.now) }
    {
        let mut count = 0;
        for node in 0..self.modes {
            let stays = !self.complete(node);
            count = put_if(left, count, node as u16, stays);
        }
        count
    }

    // The two nodes' slots are the same.
    fn alike_nodes(&self, node: u16, other: u16) -> bool
        requires { (node < self.now.modes) × (other < self.now.modes) }
        ensures { result ≡ alike_in self.now node other }
    {
        self.slots(usize::from(node)) == self.slots(usize::from(other))
    }

    // One of the first `count` nodes of `kept` has the slots that `node` has.
    fn has_like(&self, kept: &[u16], count: usize, node: u16) -> bool
        requires node_lt_modes { node < self.now.modes }
        requires count_in_bounds { count ≤ length kept.now }
        requires kept_value { every (λ other. ltb other self.now.modes) (take count kept.now) ≡ true }
        ensures { result ≡ some_of (alike_in self.now node) (take count kept.now) }
    {
        kept[..count]
            .iter()
            .any(|other| self.alike_nodes(node, *other))
    }

    // The nodes whose slots equal no earlier one's; how many there are.
    fn fill_firsts(&self, far: &[u16], kept: &mut [u16]) -> usize
        requires far_in_bounds { length far.now ≤ length kept.old }
        requires far_value { every (λ node. ltb node self.now.modes) far.now ≡ true }
        ensures { (result ≤ length far.now) × (take result kept.new ≡ firsts (alike_in self.now) far.now) }
    {
        let mut count = 0;
        for node in far {
            let seen = self.has_like(kept, count, *node);
            count = put_if(kept, count, *node, !seen);
        }
        count
    }

    // What the heuristic keeps of ascending nodes: the first of those with equal slots, the first, or the last.
    fn fill_narrowed(&self, heuristic: Heuristic, far: &[u16], kept: &mut [u16]) -> usize
        requires far_in_bounds { length far.now ≤ length kept.old }
        requires far_value { every (λ node. ltb node self.now.modes) far.now ≡ true }
        ensures { (result ≤ length far.now) × (take result kept.new ≡ narrowed (heuristic_number heuristic) (alike_in self.now) far.now) }
    {
        match heuristic {
            Heuristic::MinWeight => self.fill_firsts(far, kept),
            Heuristic::XFirst => fill_one(far, 0, kept),
            Heuristic::ZFirst => fill_one(far, far.len().saturating_sub(1), kept),
        }
    }

    // The nodes of a round; how many there are.
    pub fn fill_active(&self, distances: &[usize], heuristic: usize, active: &mut [u16]) -> usize
        requires modes_in_bounds { self.now.modes ≤ length active.old }
        requires distances { Distances self.now.modes self.now.tree.now distances.now }
        ensures { (result ≤ self.now.modes) × (take result active.new ≡ active_nodes self.now.modes self.now.tree.now heuristic self.now.assigned.now) }
    {
        let mut left = [0u16; 256];
        let remaining = self.fill_remaining(&mut left);
        let mut far = [0u16; 256];
        let count = fill_far(self.modes, distances, &left[..remaining], &mut far);
        // the promise is for every number: one that no heuristic has keeps the last node
        let heuristic = Heuristic::try_from(heuristic).unwrap_or(Heuristic::ZFirst);
        self.fill_narrowed(heuristic, &far[..count], active)
    }
}
