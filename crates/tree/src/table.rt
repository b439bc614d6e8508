// The tree table read: its codes counted and found, a node's children, and the way up from a node.
ghost use Rattle.std.specs.Prelude.{◌≡◌, ◌||◌, ◌+◌, ◌*◌, ◌≤◌, ◌<◌, eqb, ltb, length};
ghost use Rattle.lists.specs.Counting.{occurrences};
ghost use Rattle.entities.specs.Codes.{absent};
ghost use Rattle.entities.specs.Limits.{most_modes};
ghost use Rattle.tree.specs.Table.{child as child_of, place_of_code, parent_of, climb as climbed};
ghost use Rattle.tree.specs.Check.{codes_good};

use entities::codes;

// A tree table of the length that its modes ask for.
#[derive(Clone, Copy)]
pub struct TreeTable<'a> {
    pub modes: usize,
    pub tree: &'a [u16],
    pub ghost whole: { length tree.now ≡ 3 * modes },
}

// The code is below 3n or absent.
fn good_code(modes: usize, code: usize) -> bool
    requires { modes ≤ most_modes }
    ensures { result ≡ (ltb code (3 * modes) || eqb code absent) }
{
    code < 3 * modes || code == codes::ABSENT as usize
}

// How many codes are good before the first bad one.
pub fn codes_good(modes: usize, table: &[u16]) -> usize
    requires { modes ≤ most_modes }
    ensures { result ≡ codes_good modes table.now }
{
    table
        .iter()
        .position(|code| !good_code(modes, usize::from(*code)))
        .unwrap_or(table.len())
}

// How many times the code stands in the table.
pub fn count(table: &[u16], code: usize) -> usize
    ensures { result ≡ occurrences code table.now }
{
    table
        .iter()
        .filter(|other| usize::from(**other) == code)
        .count()
}

// The first place of the code in the table; the table's length where it stands nowhere.
pub fn place_of(table: &[u16], code: usize) -> usize
    ensures { result ≡ place_of_code table.now code }
{
    table
        .iter()
        .position(|other| usize::from(*other) == code)
        .unwrap_or(table.len())
}

// The node under which the code stands; a code that stands nowhere is its own.
#[tactic(auto, unfolding(crate::specs::Table::parent_of))]
fn parent_of(table: &[u16], code: usize) -> usize
    ensures { result ≡ parent_of table.now code }
{
    let place = place_of(table, code);
    if place < table.len() { place / 3 } else { code }
}

// Climbs `steps` steps up from a node; one that stands nowhere goes no further.
pub fn climb(table: &[u16], steps: usize, node: usize) -> usize
    ensures { result ≡ climbed table.now steps node }
{
    let mut at = node;
    for _ in 0..steps {
        let above = parent_of(table, at);
        if above == at {
            return at;
        }
        at = above;
    }
    at
}

// The child of a node under X (edge 0), Y (1) or Z (2).
#[tactic(auto, using(crate::proofs::TableSteps::child_read))]
pub fn child(table: &[u16], node: usize, edge: usize) -> usize
    requires { 3 * node + edge < length table.now }
    ensures { result ≡ child_of table.now node edge }
{
    usize::from(table[3 * node + edge])
}
