// The Pauli strings of an accepted tree's Majoranas, written as text: a letter at each node on the way from the root to a leaf, by the edge taken.
#![tactic(auto)]

ghost use Rattle.std.specs.Prelude.{◌≡◌, length, Ok};
ghost use Rattle.refusal.specs.Numbers.{Tells};
ghost use Rattle.entities.specs.Limits.{most_modes};
ghost use Rattle.tree.specs.Check.{tree_checked};
ghost use Rattle.tree.specs.Writing.{written_numbers, written_as, text_after};
ghost use Rattle.strings.specs.Text.{strings_text, strings_written};

use refusal::Refusal;
use tree_weight::climbing;
use tree_weight::climbing::PlacedTree;

mod length;
mod lines;

// An accepted tree's strings written over the front where they fit.
fn put_strings(text: &mut [u8], modes: usize, tree: &[u16]) -> Result<usize, Refusal>
    requires { tree_checked most_modes modes tree.now ≡ (Ok tt) }
    ensures value { result ≡ written_as (Ok tt) (strings_text modes tree.now) (length text.old) }
    ensures text_after { text.new ≡ text_after result (strings_text modes tree.now) text.old }
{
    let length = length::strings_length(modes);
    if text.len() < length {
        return Err(Refusal::Room);
    }
    let mut places = [0usize; 768];
    climbing::fill_places(tree, &mut places);
    let placed = PlacedTree {
        modes,
        tree,
        places: &places,
    };
    lines::put_lines(text, &placed);
    Ok(length)
}

// The strings of the tree, one a line, or why it is refused.
pub fn write_strings(modes: usize, tree: &[u16], text: &mut [u8]) -> Result<usize, Refusal>
    ensures tells { Tells written_numbers (strings_written most_modes modes tree.now (length text.old)) result }
    ensures text_after { text.new ≡ text_after result (strings_text modes tree.now) text.old }
{
    tree::check_tree(modes, tree)?;
    put_strings(text, modes, tree)
}
