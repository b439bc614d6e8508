// The rows of a finished run: label, X, Y, Z of each node, breadth first from the root.
#![tactic(auto)]

ghost use Rattle.std.specs.Prelude.{◌≡◌, cond, List, [], ◌∷◌, ◌++◌, ℕ, ◌+◌, ◌*◌, ◌≤◌, ◌<◌, ltb, length, take};
ghost use Rattle.lists.specs.Members.{keep};
ghost use Rattle.lists.specs.Written.{written_at};
ghost use Rattle.entities.specs.Limits.{most_modes};
ghost use Rattle.terms.specs.Job.{Job};
ghost use Rattle.history.specs.Lawful.{LawfulHistory};
ghost use Rattle.history.specs.Flatpack.{children as children_of, absent_leaf, flatpack};
ghost use Rattle.merging.specs.code.Recorded.{recorded};
ghost use Rattle.merging.specs.code.State.{history_of};
ghost use Rattle.merging.specs.code.Runs.{Holds};

use entities::{Triple, codes};
use merging::run::Run;

// The merges of a run that has made one for each mode, and the leaf at the end of its root's z-chain.
#[derive(Clone, Copy)]
struct Merged<'a> {
    modes: usize,
    end: u16,
    merges: &'a [Triple; 256],
    ghost few: { (1 ≤ modes) × (modes ≤ most_modes) },
    ghost end_is: { end ≡ absent_leaf modes (recorded merges.now modes) },
}

// A node's row written over the one at this place.
#[tactic(auto, unfolding(lists::specs::Written::written_at))]
fn put_row(rows: &mut [u16], place: usize, label: u16, codes: Triple)
    requires { 4 * place + 4 ≤ length rows.old }
    ensures { rows.new ≡ written_at (4 * place) (label ∷ (codes.x ∷ (codes.y ∷ (codes.z ∷ [])))) rows.old }
{
    let at = 4 * place;
    rows[at..at + 4].copy_from_slice(&[label, codes.x, codes.y, codes.z]);
}

// Puts `child` behind the first `tail` labels where it is a node; how many labels there are then.
#[tactic(auto, using(lists::proofs::Writes::written_next))]
fn queue_node(labels: &mut [u16], tail: usize, modes: usize, child: u16) -> usize
    requires { tail < length labels.old }
    ensures { (tail ≤ result) × (result ≤ tail + 1) × (take result labels.new ≡ take tail labels.old ++ cond (ltb child modes) (child ∷ []) []) }
{
    if usize::from(child) < modes {
        labels[tail] = child;
        tail + 1
    } else {
        tail
    }
}

// Puts the node children of a node behind the first `tail` labels; how many labels there are then.
fn queue(labels: &mut [u16], tail: usize, modes: usize, codes: Triple) -> usize
    requires { tail + 3 ≤ length labels.old }
    ensures { (tail ≤ result) × (result ≤ tail + 3) × (take result labels.new ≡ take tail labels.old ++ keep (λ child. ltb child modes) (codes.x ∷ (codes.y ∷ (codes.z ∷ [])))) }
{
    let with_x = queue_node(labels, tail, modes, codes.x);
    let with_y = queue_node(labels, with_x, modes, codes.y);
    queue_node(labels, with_y, modes, codes.z)
}

impl Merged<'_> {
    // The codes of a node's three children.
    fn children(&self, label: u16) -> Triple
        requires { label < self.now.modes }
        ensures { result.x ∷ (result.y ∷ (result.z ∷ [])) ≡ children_of self.now.modes (recorded self.now.merges.now self.now.modes) label }
    {
        let merge = self.merges[usize::from(label)];
        Triple {
            x: codes::code(self.modes, self.end, merge.x),
            y: codes::code(self.modes, self.end, merge.y),
            z: codes::code(self.modes, self.end, merge.z),
        }
    }

    // The rows into the front of a lent slice. Each node queues three labels at most, so the root's and those of 256 nodes are 769.
    fn write_rows(&self, rows: &mut [u16])
        requires room { 4 * self.now.modes ≤ length rows.old }
        requires lawful_history { LawfulHistory self.now.modes (recorded self.now.merges.now self.now.modes) }
        ensures { rows.new ≡ written_at 0 (flatpack self.now.modes (recorded self.now.merges.now self.now.modes)) rows.old }
    {
        let mut labels = [0u16; 769];
        labels[0] = (self.modes - 1) as u16;
        let mut tail = 1;
        for head in 0..self.modes {
            let label = labels[head];
            let codes = self.children(label);
            put_row(rows, head, label, codes);
            tail = queue(&mut labels, tail, self.modes, codes);
        }
    }
}

// The rows of a finished run into the front of a lent slice.
pub fn write_flatpack(run: Run, rows: &mut [u16])
    requires { (job : Job) × ((own : List ℕ) × (Holds job own run × (length (history_of run) ≡ job.modes) × (4 * job.modes ≤ length rows.old))) }
    ensures { (job : Job) (own : List ℕ) → Holds job own run → rows.new ≡ written_at 0 (flatpack job.modes (history_of run)) rows.old }
{
    let merged = Merged {
        modes: run.modes,
        end: run.tables.ends[3 * run.modes],
        merges: &run.merges,
    };
    merged.write_rows(rows);
}
