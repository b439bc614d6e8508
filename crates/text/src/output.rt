// The program's answer as it is printed, every part written at a place of a lent buffer.
ghost use Rattle.std.specs.Prelude.{◌≡◌, [], ◌∷◌, ◌++◌, ◌+◌, ◌*◌, ◌/◌, ◌≤◌, length};
ghost use Rattle.lists.specs.Written.{written_at};
ghost use Rattle.fields.specs.Decimal.{decimal};
ghost use Rattle.text.specs.Output.{code_text, node_line, node_lines, refusal_text, done_text};
ghost use Rattle.text.specs.code.Printing.{Puts};

use entities::codes;
use fields::{decimal, parts};
use refusal::Refusal;

// A code and the byte behind it written at this place, the absent child as `-`; the place after them.
fn put_code(out: &mut [u8], at: usize, code: u16, mark: u8) -> usize
    requires { at + 6 ≤ length out.old }
    ensures value { (result ≡ at + (length (code_text code) + 1)) × (result ≤ at + 6) }
    ensures out_after { out.new ≡ written_at at (code_text code ++ (mark ∷ [])) out.old }
{
    if code == codes::ABSENT {
        return parts::put_bytes(out, at, &[b'-', mark]);
    }
    decimal::put_field(out, at, code as u64, mark)
}

// A row's line written at this place; the place after it.
fn put_node(out: &mut [u8], at: usize, row: &[u16]) -> usize
    requires { (length row.now ≡ 4) × (at + 29 ≤ length out.old) }
    ensures value { (result ≡ at + length (node_line row.now)) × (result ≤ at + 29) }
    ensures out_after { out.new ≡ written_at at (node_line row.now) out.old }
{
    let mut end = parts::put_bytes(out, at, b"node\t");
    end = put_code(out, end, row[0], 9);
    end = put_code(out, end, row[1], 9);
    end = put_code(out, end, row[2], 9);
    put_code(out, end, row[3], 10)
}

// The lines of rows of four written at this place; the place after them.
pub fn put_nodes(out: &mut [u8], start: usize, rows: &[u16]) -> usize
    requires { start + 29 * (length rows.now / 4) ≤ length out.old }
    ensures value { (result ≡ start + length (node_lines rows.now)) × (result ≤ start + 29 * (length rows.now / 4)) }
    ensures out_after { out.new ≡ written_at start (node_lines rows.now) out.old }
{
    let mut at = start;
    for row in rows.chunks_exact(4) {
        at = put_node(out, at, row);
    }
    at
}

// A word with its tab, a number and LF written at this place; the place after them.
pub fn put_value(out: &mut [u8], at: usize, word: &[u8], number: u64) -> usize
    requires { at + (length word.now + 21) ≤ length out.old }
    ensures value { (result ≡ at + length (word.now ++ (decimal number ++ (10 ∷ [])))) × (result ≤ at + (length word.now + 21)) }
    ensures out_after { out.new ≡ written_at at (word.now ++ (decimal number ++ (10 ∷ []))) out.old }
{
    let end = parts::put_bytes(out, at, word);
    decimal::put_field(out, end, number, 10)
}

// A refusal written over the front; how many bytes that is.
pub fn put_refusal(out: &mut [u8], refusal: Refusal) -> usize
    requires { 50 ≤ length out.old }
    ensures { Puts (refusal_text refusal) out.old out.new result }
{
    let number = refusal::number(refusal) as u64;
    let place = refusal::place(refusal) as u64;
    let word = parts::put_bytes(out, 0, b"refused\t");
    let end = decimal::put_field(out, word, number, 9);
    decimal::put_field(out, end, place, 10)
}

// What a run came to written over the front; how many bytes that is.
pub fn put_done(out: &mut [u8], weight: u64, trials: u64, rows: &[u16]) -> usize
    requires { 56 + 29 * (length rows.now / 4) ≤ length out.old }
    ensures { Puts (done_text weight trials rows.now) out.old out.new result }
{
    let first = put_value(out, 0, b"weight\t", weight);
    let second = put_value(out, first, b"trials\t", trials);
    put_nodes(out, second, rows)
}
