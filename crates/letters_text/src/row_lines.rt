// The lines of rows: the place of each and the letter that a triple gives it.
ghost use Rattle.std.specs.Prelude.{◌≡◌, ◌+◌, ◌≤◌, ◌<◌, length};
ghost use mathlib.Core.List.{[], ◌∷◌, flat_map};
ghost use Rattle.lists.specs.Written.{written_at};
ghost use Rattle.entities.specs.Limits.{most_terms, work_width};
ghost use Rattle.terms.specs.Rows.{terms_of};
ghost use Rattle.terms.specs.code.Held.{Held};
ghost use Rattle.text.specs.code.Printing.{Puts};
ghost use Rattle.letters_text.specs.Lettering.{letter_line, letter_lines};

use entities::Triple;
use fields::{decimal, parts};
use terms::letters::Letter;
use terms::{letters, row, weight};

// A row's line written at this place; the place after it.
fn put_letter(out: &mut [u8], at: usize, place: usize, letter: Letter) -> usize
    requires { (at + 8 ≤ length out.old) × (place < most_terms) }
    ensures value { (result ≡ at + length (letter_line place letter)) × (result ≤ at + 8) }
    ensures out_after { out.new ≡ written_at at (letter_line place letter) out.old }
{
    let end = decimal::put_field(out, at, place as u64, 9);
    parts::put_bytes(out, end, &[letters::byte(letter, b'-'), 10])
}

// The line of a row that is there, written at this place, and nothing of one that is gone; the place after it.
fn put_row(out: &mut [u8], at: usize, place: usize, term: &[u16], triple: Triple) -> usize
    requires { (at + 8 ≤ length out.old) × (place < most_terms) }
    ensures value { (result ≡ at + length (flat_map (λ line. line) (letter_lines triple place (term.now ∷ [])))) × (result ≤ at + 8) }
    ensures out_after { out.new ≡ written_at at (flat_map (λ line. line) (letter_lines triple place (term.now ∷ []))) out.old }
{
    if term.len() == 0 {
        return at;
    }
    put_letter(out, at, place, weight::qubit_term_weight(term, triple))
}

// The lines of the first `count` work rows written over the front; how many bytes that is.
pub fn put_letters(rows: &[u16], count: usize, triple: Triple, out: &mut [u8; 16384]) -> usize
    requires { Held work_width count rows.now × (count ≤ most_terms) }
    ensures { Puts (flat_map (λ line. line) (letter_lines triple 0 (terms_of work_width count rows.now))) out.old out.new result }
{
    let mut at = 0;
    for place in 0..count {
        let term = row::term_at(rows, row::WORK_WIDTH, place);
        at = put_row(out, at, place, term, triple);
    }
    at
}
