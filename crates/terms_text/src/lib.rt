// The program's input: its first line read as modes, every other as a term's row of eight.
#![tactic(auto)]

ghost use Rattle.std.specs.Prelude.{◌≡◌, ◌∷◌, ◌+◌, ◌*◌, ◌≤◌, length, replicate};
ghost use Rattle.entities.specs.Limits.{most_terms, row_width};
ghost use Rattle.terms_text.specs.Input.{said};
ghost use Rattle.terms_text.specs.code.Reading.{modes_said, IndicesRead, TermRead, TermPut, TermsRead, Reads};

use fields::{lines, numbers};
use refusal::Refusal;

pub mod jobs;

// What a text says: its modes, and how many terms.
#[derive(Clone, Copy)]
pub struct Given {
    pub modes: usize,
    pub count: usize,
}

// The modes that a line, LF included, says.
fn read_modes(line: &[u8]) -> Option<u16>
    ensures { result ≡ modes_said line.now }
{
    let [modes] = numbers::line_numbers::<1>(line, b"modes\t")?;
    Some(modes)
}

// A row's count of indices, and zeros behind it.
fn begin_row(row: &mut [u16], count: usize)
    requires { (count ≤ 7) × (length row.old ≡ row_width) }
    ensures { row.new ≡ count ∷ replicate 7 0 }
{
    row.fill(0);
    row[0] = count as u16;
}

// A line's so many indices read into a row: their count, the indices, and zeros.
// A yes or no: what is read stands in the lent room, and an Option would hold nothing.
fn read_indices(line: &[u8], count: usize, row: &mut [u16]) -> bool
    requires { (count ≤ 7) × (length row.old ≡ row_width) }
    ensures { IndicesRead line.now count row.new result }
{
    begin_row(row, count);
    let end = count + 1;
    numbers::read_line(line, b"term\t", &mut row[1..end])
}

// The row of the term that a line, LF included, says.
// A yes or no: what is read stands in the lent room, and an Option would hold nothing.
fn read_term(line: &[u8], row: &mut [u16]) -> bool
    requires { length row.old ≡ row_width }
    ensures { TermRead line.now row.new result }
{
    if line.len() == 0 {
        return false;
    }
    let end = line.len() - 1;
    // the word is a field too
    let parts = numbers::field_count(&line[..end]);
    if parts < 2 {
        return false;
    }
    if 8 < parts {
        return false;
    }
    read_indices(line, parts - 1, row)
}

// The row of a line put behind the first `count` rows. `nodes_text::put_row` is this with another width and reader: a closure for the reader would need a longer contract than the two have.
// A yes or no: what is read stands in the lent room, and an Option would hold nothing.
fn put_term(line: &[u8], numbers: &mut [u16], count: usize) -> bool
    requires { row_width * count + row_width ≤ length numbers.old }
    ensures { TermPut line.now (row_width * count) numbers.old numbers.new result }
{
    let from = 8 * count;
    let end = from + 8;
    read_term(line, &mut numbers[from..end])
}

// Puts the rows of the lines behind the first one over the front; how many they are, at most 2048, or the line that is no term.
fn read_terms(text: &[u8], numbers: &mut [u16; 16384]) -> Result<usize, Refusal>
    ensures { TermsRead most_terms text.now numbers.new result }
{
    let mut count = 0;
    for line in lines::lines_of(text) {
        if count == 2048 {
            return Err(Refusal::Malformed(count + 1));
        }
        if !put_term(line, numbers, count) {
            return Err(Refusal::Malformed(count + 1));
        }
        count += 1;
    }
    // bytes behind the last LF are a line without one
    if lines::kept_bytes(text) < text.len() {
        return Err(Refusal::Malformed(count + 1));
    }
    Ok(count)
}

// What a text says, its terms' rows put over the front of the numbers.
pub fn read_input(text: &[u8], numbers: &mut [u16; 16384]) -> Result<Given, Refusal>
    ensures { Reads most_terms (said most_terms text.now) numbers.new result }
{
    let start = lines::line_end(text, 0);
    let modes = read_modes(&text[..start]).ok_or(Refusal::Malformed(0))?;
    let count = read_terms(&text[start..], numbers)?;
    Ok(Given {
        modes: usize::from(modes),
        count,
    })
}
