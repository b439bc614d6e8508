// The strings of a tree written line by line: a Majorana's number, a tab and its letters.
ghost use Rattle.std.specs.Prelude.{◌≡◌, ◌+◌, ◌*◌, ◌≤◌, ◌<◌, length};
ghost use Rattle.lists.specs.Written.{written_at};
ghost use Rattle.strings.specs.Strings.{edge_letter, majorana_letter};
ghost use Rattle.strings.specs.Text.{string_sign, string_bytes, string_line, strings_text};

use fields::decimal;
use terms::letters;
use terms::letters::Letter;
use tree_weight::climbing::PlacedTree;

// The letter of an edge; none where there is no such edge.
fn edge_letter(edge: usize) -> Letter
    ensures { result ≡ edge_letter edge }
{
    match edge {
        0 => Letter::X,
        1 => Letter::Y,
        2 => Letter::Z,
        _ => Letter::Nothing,
    }
}

// The byte of a Majorana's letter at a node.
fn letter_at(placed: &PlacedTree<'_>, majorana: usize, node: usize) -> u8
    requires { majorana < 2 * placed.now.modes }
    ensures { result ≡ string_sign (majorana_letter placed.now.modes placed.now.tree.now majorana node) }
{
    letters::byte(edge_letter(placed.majorana_edge(node, majorana)), b'I')
}

// A Majorana's letters written at this place, by node label; the place after them.
fn put_letters(text: &mut [u8], at: usize, placed: &PlacedTree<'_>, majorana: usize) -> usize
    requires { (majorana < 2 * placed.now.modes) × (at + placed.now.modes ≤ length text.old) }
    ensures value { result ≡ at + placed.now.modes }
    ensures text_after { text.new ≡ written_at at (string_bytes placed.now.modes placed.now.tree.now majorana) text.old }
{
    for node in 0..placed.modes {
        text[at + node] = letter_at(placed, majorana, node);
    }
    at + placed.modes
}

// A Majorana's line written at this place; the place after it.
fn put_line(text: &mut [u8], at: usize, placed: &PlacedTree<'_>, majorana: usize) -> usize
    requires majorana_bound { majorana < 2 * placed.now.modes }
    requires majorana_in_bounds { at + length (string_line placed.now.modes placed.now.tree.now majorana) ≤ length text.old }
    ensures value { result ≡ at + length (string_line placed.now.modes placed.now.tree.now majorana) }
    ensures text_after { text.new ≡ written_at at (string_line placed.now.modes placed.now.tree.now majorana) text.old }
{
    let letters = decimal::put_field(text, at, majorana as u64, b'\t');
    let end = put_letters(text, letters, placed, majorana);
    text[end] = b'\n';
    end + 1
}

// The lines of all Majoranas written over the front.
pub fn put_lines(text: &mut [u8], placed: &PlacedTree<'_>)
    requires { length (strings_text placed.now.modes placed.now.tree.now) ≤ length text.old }
    ensures { text.new ≡ written_at 0 (strings_text placed.now.modes placed.now.tree.now) text.old }
{
    let mut at = 0;
    for majorana in 0..2 * placed.modes {
        at = put_line(text, at, placed, majorana);
    }
}
