// Lines of the recorded answers: a word, and behind each tab a number or the dash of the absent child.
ghost use Rattle.std.specs.Prelude.{◌≤◌, ◌<◌, length};

use entities::codes;
use fields::numbers::Field;
use fields::{lines, numbers};

// How many numbers were read, and the place behind what was read; 0 numbers where the text is another.
#[derive(Clone, Copy)]
pub struct Read {
    pub count: usize,
    pub end: usize,
}

// The number that a field says; the dash is the absent child's code.
fn read_code(field: &[u8]) -> Option<u16> {
    if field == b"-".as_slice() {
        return Some(codes::ABSENT);
    }
    let mut number = [0u16; 1];
    if !numbers::read_numbers(field, &mut number) {
        return None;
    }
    Some(number[0])
}

// The text's fields put into the front of the codes; how many, or 0 where one is broken or has no room.
fn read_codes(text: &[u8], codes: &mut [u16]) -> usize
    ensures { result ≤ length codes.old }
{
    let mut count = 0;
    for field in text.split(|byte| *byte == b'\t') {
        if count == codes.len() {
            return 0;
        }
        let Some(code) = read_code(field) else {
            return 0;
        };
        codes[count] = code;
        count += 1;
    }
    count
}

// The numbers of the line that begins here, if it has this word, put into the front of the codes.
pub fn read_line(text: &[u8], from: usize, word: &[u8], codes: &mut [u16]) -> Read
    ensures { result.count ≤ length codes.old }
{
    let nothing = Read {
        count: 0,
        end: from,
    };
    if text.len() < from {
        return nothing;
    }
    let end = lines::line_end(text, from);
    if end < from {
        return nothing;
    }
    // a line without a number is no line of the form
    if end - from <= word.len() {
        return nothing;
    }
    let fields = from + word.len();
    if &text[from..fields] != word {
        return nothing;
    }
    let last = end - 1;
    Read {
        count: read_codes(&text[fields..last], codes),
        end: end,
    }
}

// The one number of the line that begins here, and the place behind the line.
pub fn read_one(text: &[u8], from: usize, word: &[u8]) -> Option<Field> {
    let mut number = [0u16; 1];
    let line = read_line(text, from, word, &mut number);
    if line.count != 1 {
        return None;
    }
    Some(Field {
        number: number[0],
        end: line.end,
    })
}

// The numbers of the lines with this word that begin here, so many a line; only the last line may have fewer.
pub fn read_lines(text: &[u8], from: usize, word: &[u8], width: usize, codes: &mut [u16]) -> Read
    ensures { result.count ≤ length codes.old }
{
    let mut at = from;
    let mut count = 0;
    if width == 0 {
        return Read { count, end: at };
    }
    for part in codes.chunks_exact_mut(width) {
        let line = read_line(text, at, word, part);
        if line.count == 0 {
            break;
        }
        count += line.count;
        at = line.end;
        if line.count < width {
            break;
        }
    }
    Read { count, end: at }
}

// The term lines that begin here as rows of eight: the length, the indices, and the zeros that were there.
pub fn read_terms(text: &[u8], from: usize, rows: &mut [u16]) -> Read
    ensures { result.count ≤ length rows.old }
{
    let mut at = from;
    let mut count = 0;
    for row in rows.chunks_exact_mut(8) {
        let line = read_term(text, at, row);
        if line.count == 0 {
            break;
        }
        count += 8;
        at = line.end;
    }
    Read { count, end: at }
}

// The term line that begins here as a row of eight.
fn read_term(text: &[u8], from: usize, row: &mut [u16]) -> Read {
    if row.len() != 8 {
        return Read {
            count: 0,
            end: from,
        };
    }
    let line = read_line(text, from, b"term\t", &mut row[1..]);
    let length = line.count;
    // no more than the room behind the length, so that the cast loses nothing
    if length <= 7 {
        row[0] = length as u16;
    }
    line
}
