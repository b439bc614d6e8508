// A Newick text read in one pass, node by node.
ghost use Rattle.std.specs.Prelude.{◌≡◌, List, [], ◌∷◌, ℕ, ◌+◌, ◌*◌, ◌≤◌, ◌<◌, length, take, Ok};
ghost use Rattle.lists.specs.Written.{written_at};
ghost use Rattle.refusal.specs.Numbers.{Tells};
ghost use Rattle.entities.specs.Limits.{most_modes};
ghost use Rattle.newick.specs.Reading.{got, numbered, leaf_name, named, text_read, marked as marked_by};
ghost use Rattle.newick.specs.Calls.{read_numbers, newick_read, newick_table, table_after, read_as, table_in, taken_as};
ghost use Rattle.newick.specs.code.Promises.{refused_at, meant, end_of, closed_of, Reads};
ghost use Rattle.newick.specs.code.Within.{child_within, node_within};

use crate::{digits, names};
use refusal::Refusal;
use terms::slices;
use tree::laying;

// A child that was read: its name, the place behind it and how many nodes are closed.
#[derive(Clone, Copy)]
pub struct Child {
    pub name: u32,
    pub end: usize,
    pub closed: usize,
}

// Why reading stopped: at this place no such text can go on, or a node too many opens.
#[derive(Clone, Copy)]
pub enum Stop {
    Stuck(usize),
    Crowded(usize),
}

// The refusal that the call gives for it.
impl From<Stop> for Refusal {
    ghost from_gives = { λ stop refusal. refusal ≡ refused_at stop };

    fn from(stop: Stop) -> Refusal {
        match stop {
            Stop::Stuck(place) => Refusal::NewickForm(place),
            Stop::Crowded(place) => Refusal::TooManyNodes(place),
        }
    }
}

// The name of the absent child; a leaf's is 65536 more than its number.
const ABSENT_NAME: u32 = 131072;

// The child with this byte behind it.
fn marked(text: &[u8], child: Child, byte: u8) -> Result<Child, Stop>
    requires byte_nonzero { 0 < byte }
    requires child_in_bounds { child.end ≤ length text.now }
    ensures by_index { (numbers : List ℕ) → meant result numbers ≡ marked_by byte text.now (meant (Ok child) numbers) }
    ensures result_in_bounds { (end_of result ≤ length text.now) × (closed_of result ≤ child.closed) }
{
    if !digits::stands(text, child.end, byte) {
        return Err(Stop::Stuck(child.end));
    }
    Ok(Child {
        end: child.end + 1,
        ..child
    })
}

// The leaf whose number begins at this place.
fn read_leaf(text: &[u8], at: usize, closed: usize) -> Result<Child, Stop>
    requires { at ≤ length text.now }
    ensures by_index { (numbers : List ℕ) → meant result numbers ≡ numbered text.now at (λ number end. got (leaf_name number) (take (4 * closed) numbers) end) }
    ensures result_in_bounds { (end_of result ≤ length text.now) × (closed_of result ≤ closed) }
{
    let number = digits::read_digits(text, at);
    if number.end == at {
        return Err(Stop::Stuck(at));
    }
    Ok(Child {
        name: 65536 + number.value,
        end: number.end,
        closed,
    })
}

// A closed node put behind those closed so far.
#[tactic(auto, unfolding(lists::specs::Written::written_at))]
fn put_row(rows: &mut [u32], closed: usize, label: u32, x: u32, y: u32, z: u32)
    requires { 4 * closed + 4 ≤ length rows.old }
    ensures { rows.new ≡ written_at (4 * closed) (label ∷ (x ∷ (y ∷ (z ∷ [])))) rows.old }
{
    let at = 4 * closed;
    rows[at..at + 4].copy_from_slice(&[label, x, y, z]);
}

// The node whose name begins at this place, behind its children.
fn close_node(
    text: &[u8],
    at: usize,
    rows: &mut [u32],
    closed: usize,
    x: u32,
    y: u32,
    z: u32,
) -> Result<Child, Stop>
    requires at_in_bounds { at ≤ length text.now }
    requires closed_in_bounds { 4 * closed + 4 ≤ length rows.old }
    ensures { Reads (named text.now (take (4 * closed) rows.old) at x y z) text.now rows.new (closed + 1) result }
{
    if !digits::stands(text, at, b'n') {
        return Err(Stop::Stuck(at));
    }
    let number = digits::read_digits(text, at + 1);
    if number.end == at + 1 {
        return Err(Stop::Stuck(at + 1));
    }
    put_row(rows, closed, number.value, x, y, z);
    Ok(Child {
        name: number.value,
        end: number.end,
        closed: closed + 1,
    })
}

// The child that begins at this place: a leaf, or it goes on to its node.
#[cycle(read_child_read_node)]
fn read_child(
    text: &[u8],
    at: usize,
    height: usize,
    rows: &mut [u32],
    closed: usize,
) -> Result<Child, Stop>
    requires at_in_bounds { at ≤ length text.now }
    requires closed_le_height { (closed ≤ height) × (4 * height ≤ length rows.old) }
    ensures { Reads (child_within height text.now (take (4 * closed) rows.old) at) text.now rows.new height result }
{
    if digits::stands(text, at, b'e') {
        return Ok(Child {
            name: ABSENT_NAME,
            end: at + 1,
            closed,
        });
    }
    if digits::stands(text, at, b'm') {
        return read_leaf(text, at + 1, closed);
    }
    read_node(text, at, height, rows, closed)
}

// The node that begins at this place: three children in parentheses, and its name.
#[cycle(read_child_read_node)]
fn read_node(
    text: &[u8],
    at: usize,
    height: usize,
    rows: &mut [u32],
    closed: usize,
) -> Result<Child, Stop>
    requires at_in_bounds { at ≤ length text.now }
    requires closed_le_height { (closed ≤ height) × (4 * height ≤ length rows.old) }
    ensures { Reads (node_within height text.now (take (4 * closed) rows.old) at) text.now rows.new height result }
{
    if !digits::stands(text, at, b'(') {
        return Err(Stop::Stuck(at));
    }
    if closed == height {
        return Err(Stop::Crowded(at));
    }
    let below = height - 1;
    let x = marked(text, read_child(text, at + 1, below, rows, closed)?, b',')?;
    let y = marked(text, read_child(text, x.end, below, rows, x.closed)?, b',')?;
    let z = marked(text, read_child(text, y.end, below, rows, y.closed)?, b')')?;
    close_node(text, z.end, rows, z.closed, x.name, y.name, z.name)
}

// The whole text: a node, `;`, and nothing behind it.
fn read_text(text: &[u8], rows: &mut [u32]) -> Result<Child, Stop>
    requires { length rows.old ≡ 4 * most_modes }
    ensures { Reads (text_read most_modes text.now) text.now rows.new most_modes result }
{
    let root = marked(text, read_node(text, 0, 256, rows, 0)?, b';')?;
    if root.end != text.len() {
        return Err(Stop::Stuck(root.end));
    }
    Ok(root)
}

// An accepted tree copied over the front of the lent table where it fits.
fn take_table(modes: usize, tree: &[u16], table: &mut [u16]) -> Result<usize, Refusal>
    requires { length tree.now ≡ 3 * modes }
    ensures value { result ≡ taken_as (Ok tt) modes (length table.old) }
    ensures table_after { table.new ≡ table_after result tree.now table.old }
{
    if table.len() < tree.len() {
        return Err(Refusal::Room);
    }
    slices::put_front(tree, table);
    Ok(modes)
}

// The tree of so many closed nodes, laid out in the front of the lent table where it is accepted and fits.
fn take_tree(modes: usize, rows: &[u32], table: &mut [u16]) -> Result<usize, Refusal>
    requires { (modes ≤ most_modes) × (length rows.now ≡ 4 * modes) }
    ensures by_index { (name at : ℕ) → result ≡ read_as most_modes (got name rows.now at) (length table.old) }
    ensures table_after { table.new ≡ table_after result (table_in rows.now) table.old }
{
    let mut codes = [0u16; 1024];
    let end = 4 * modes;
    if !names::put_codes(modes, rows, &mut codes[..end]) {
        return Err(Refusal::NotOneTree);
    }
    let mut tree = [0u16; 768];
    let room = 3 * modes;
    laying::lay_rows(&codes[..end], &mut tree[..room]);
    tree::check_tree(modes, &tree[..room])?;
    take_table(modes, &tree[..room], table)
}

// The tree table that a Newick text spells, or why the text is refused.
pub fn read_newick(text: &[u8], table: &mut [u16]) -> Result<usize, Refusal>
    ensures tells { Tells read_numbers (newick_read most_modes text.now (length table.old)) result }
    ensures table_after { table.new ≡ table_after result (newick_table most_modes text.now) table.old }
{
    let mut rows = [0u32; 1024];
    let root = read_text(text, &mut rows)?;
    let end = 4 * root.closed;
    take_tree(root.closed, &rows[..end], table)
}
