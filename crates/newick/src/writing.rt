// An accepted tree written as Newick text.
ghost use Rattle.std.specs.Prelude.{◌≡◌, ◌∷◌, suc, ◌+◌, ◌≤◌, ◌<◌, length, Ok};
ghost use Rattle.lists.specs.Written.{written_at};
ghost use Rattle.refusal.specs.Numbers.{Tells};
ghost use Rattle.entities.specs.Limits.{most_modes};
ghost use Rattle.fields.specs.Decimal.{decimal};
ghost use Rattle.tree.specs.Check.{tree_checked};
ghost use Rattle.tree.specs.Writing.{written_numbers, written_as, text_after};
ghost use Rattle.newick.specs.Grammar.{spelled};
ghost use Rattle.newick.specs.Writing.{end_shape, shape_under, newick_text};
ghost use Rattle.newick.specs.Calls.{newick_written};

use crate::length;
use entities::codes;
use fields::decimal;
use refusal::Refusal;
use tree::table;
use tree::table::TreeTable;

// A letter and a number written at this place; the place after them.
fn put_name(text: &mut [u8], at: usize, letter: u8, number: usize) -> usize
    requires { at + (1 + length (decimal number)) ≤ length text.old }
    ensures value { result ≡ at + (1 + length (decimal number)) }
    ensures text_after { text.new ≡ written_at at (letter ∷ decimal number) text.old }
{
    text[at] = letter;
    let digits = at + 1;
    digits + decimal::put_number(&mut text[digits..], number as u64)
}

// A leaf or the absent child written at this place; the place after it.
fn put_end(text: &mut [u8], at: usize, modes: usize, code: usize) -> usize
    requires modes_le_code { modes ≤ code }
    requires code_in_bounds { at + length (spelled (end_shape modes code)) ≤ length text.old }
    ensures value { result ≡ at + length (spelled (end_shape modes code)) }
    ensures text_after { text.new ≡ written_at at (spelled (end_shape modes code)) text.old }
{
    if code == codes::ABSENT as usize {
        text[at] = b'e';
        return at + 1;
    }
    put_name(text, at, b'm', code - modes)
}

// A child written at this place, with at most `height` nodes one within the other: a leaf, or it goes on to its node; the place after it.
#[cycle(put_child_put_node)]
fn put_child(text: &mut [u8], at: usize, table: &TreeTable<'_>, height: usize, code: usize) -> usize
    requires { at + length (spelled (shape_under table.now.modes table.now.tree.now height code)) ≤ length text.old }
    ensures value { result ≡ at + length (spelled (shape_under table.now.modes table.now.tree.now height code)) }
    ensures text_after { text.new ≡ written_at at (spelled (shape_under table.now.modes table.now.tree.now height code)) text.old }
{
    if table.modes <= code {
        return put_end(text, at, table.modes, code);
    }
    if height == 0 {
        // no accepted tree is so tall
        text[at] = b'e';
        return at + 1;
    }
    put_node(text, at, table, height - 1, code)
}

// A node written at this place: its three children in parentheses, then its name; the place after it.
#[cycle(put_child_put_node)]
fn put_node(text: &mut [u8], at: usize, table: &TreeTable<'_>, height: usize, node: usize) -> usize
    requires below { node < table.now.modes }
    requires room { at + length (spelled (shape_under table.now.modes table.now.tree.now (suc height) node)) ≤ length text.old }
    ensures value { result ≡ at + length (spelled (shape_under table.now.modes table.now.tree.now (suc height) node)) }
    ensures text_after { text.new ≡ written_at at (spelled (shape_under table.now.modes table.now.tree.now (suc height) node)) text.old }
{
    text[at] = b'(';
    let first = table::child(table.tree, node, 0);
    let x = put_child(text, at + 1, table, height, first);
    text[x] = b',';
    let second = table::child(table.tree, node, 1);
    let y = put_child(text, x + 1, table, height, second);
    text[y] = b',';
    let third = table::child(table.tree, node, 2);
    let z = put_child(text, y + 1, table, height, third);
    text[z] = b')';
    put_name(text, z + 1, b'n', node)
}

// An accepted tree's text written over the front where it fits.
fn put_tree(text: &mut [u8], modes: usize, tree: &[u16]) -> Result<usize, Refusal>
    requires { tree_checked most_modes modes tree.now ≡ (Ok tt) }
    ensures value { result ≡ written_as (Ok tt) (newick_text modes tree.now) (length text.old) }
    ensures text_after { text.new ≡ text_after result (newick_text modes tree.now) text.old }
{
    let length = length::text_length(modes);
    if text.len() < length {
        return Err(Refusal::Room);
    }
    let root = table::climb(tree, modes, 0);
    let table = TreeTable { modes, tree };
    let end = put_child(text, 0, &table, modes + 1, root);
    text[end] = b';';
    Ok(length)
}

// The tree as Newick text, or why it is refused.
pub fn write_newick(modes: usize, tree: &[u16], text: &mut [u8]) -> Result<usize, Refusal>
    ensures tells { Tells written_numbers (newick_written most_modes modes tree.now (length text.old)) result }
    ensures text_after { text.new ≡ text_after result (newick_text modes tree.now) text.old }
{
    tree::check_tree(modes, tree)?;
    put_tree(text, modes, tree)
}
