// The answer of `best` to the text of terms, from bytes to bytes.
#![tactic(auto)]

ghost use Rattle.std.specs.Prelude.{◌*◌, ◌≤◌, length};
ghost use Rattle.entities.specs.Limits.{most_terms};
ghost use Rattle.terms_text.specs.Input.{given};
ghost use Rattle.text.specs.Running.{printed_room};
ghost use Rattle.text.specs.Output.{Prints};
ghost use Rattle.text.specs.code.Printing.{Puts};
ghost use Rattle.best.specs.Call.{most_to_try};
ghost use Rattle.best_text.specs.Printing.{found_text, best_as, best_text};
ghost use Rattle.best_text.specs.code.MergesRead.{merges_in};

use best::Least;
use text::{Printed, output};

mod merges;

// What was found printed over the front; how many bytes that is.
fn put_found(out: &mut [u8; 16384], least: Least, sequence: &[u16]) -> usize
    requires { length sequence.now ≤ 3 * most_to_try }
    ensures { Puts (found_text least.weight least.reached (merges_in sequence.now)) out.old out.new result }
{
    let first = output::put_value(out, 0, b"least\t", least.weight);
    let second = output::put_value(out, first, b"reached\t", least.reached as u64);
    merges::put_merges(out, second, sequence)
}

// The best of the modes and terms that a text gives, in lent room for its sequence.
fn print_given(
    modes: usize,
    numbers: &[u16],
    sequence: &mut [u16; 12],
    out: &mut [u8; 16384],
) -> usize
    ensures { Puts (best_as most_to_try (3 * most_to_try) (given modes numbers.now)) out.old out.new result }
{
    match best::best(modes, numbers, sequence) {
        Err(refusal) => output::put_refusal(out, refusal),
        Ok(least) => {
            let end = 3 * modes;
            put_found(out, least, &sequence[..end])
        }
    }
}

// The answer to a text, in lent room for its numbers.
fn print_read(
    input: &[u8],
    numbers: &mut [u16; 16384],
    sequence: &mut [u16; 12],
    out: &mut [u8; 16384],
) -> usize
    ensures { Puts (best_text most_to_try most_terms input.now) out.old out.new result }
{
    match terms_text::read_input(input, numbers) {
        Err(refusal) => output::put_refusal(out, refusal),
        Ok(given) => {
            let end = 8 * given.count;
            print_given(given.modes, &numbers[..end], sequence, out)
        }
    }
}

// What `best` prints for terms. Its arrays stay out of the frame that the program's other commands run in.
#[inline(never)]
pub fn best_answer(input: &[u8]) -> Printed<[u8; 16384]>
    ensures { Prints printed_room (best_text most_to_try most_terms input.now) result }
{
    let mut numbers = [0u16; 16384];
    let mut sequence = [0u16; 12];
    Printed::by(
        [0; 16384],
        |out| print_read(input, &mut numbers, &mut sequence, out),
    )
}
