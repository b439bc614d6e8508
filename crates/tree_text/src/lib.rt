// The answers of `check` and `weigh` to the text of a tree, from bytes to bytes.
#![tactic(auto)]

ghost use Rattle.entities.specs.Limits.{most_modes};
ghost use Rattle.text.specs.Running.{program_rooms, printed_room};
ghost use Rattle.text.specs.Output.{Prints};
ghost use Rattle.tree_text.specs.Answers.{check_text, weigh_text};

use text::Printed;

mod checked;
pub mod trees;
mod weighed;

// What `check` prints for a tree.
pub fn check_answer(tree: &[u8]) -> Printed<[u8; 16384]>
    ensures { Prints printed_room (check_text most_modes tree.now) result }
{
    let mut rows = [0u16; 1024];
    let mut table = [0u16; 768];
    let found = checked::check_said(tree, &mut rows, &mut table);
    Printed::by([0; 16384], |out| checked::put_checked(out, found))
}

// What `weigh` prints for a tree and terms.
pub fn weigh_answer(tree: &[u8], input: &[u8]) -> Printed<[u8; 16384]>
    ensures { Prints printed_room (weigh_text program_rooms tree.now input.now) result }
{
    let mut rows = [0u16; 1024];
    let mut table = [0u16; 768];
    let found = weighed::weigh_said(tree, input, &mut rows, &mut table);
    Printed::by([0; 16384], |out| weighed::put_weighed(out, found))
}
