// Fields parted by tabs: counted, read as numbers one after the other, and read behind the opening of a line.
ghost use Rattle.std.specs.Prelude.{◌≡◌, [], ◌≤◌, length};
ghost use Rattle.fields.specs.Fields.{fields_after};
ghost use Rattle.fields.specs.code.Reading.{ended_at, number_at, opens, NumbersRead, LineRead, numbers_said, line_said};

use crate::decimal;

// A field read: its number, and the place behind it.
#[derive(Clone, Copy)]
pub struct Field {
    pub number: u16,
    pub end: usize,
}

// How many fields there are: one more than tabs.
pub fn field_count(text: &[u8]) -> usize
    ensures { result ≡ length (fields_after [] text.now) }
{
    text.iter().filter(|byte| **byte == b'\t').count() + 1
}

// The number that so many digits of this value say, with the place behind them.
fn ended(count: usize, value: u32, end: usize) -> Option<Field>
    ensures { result ≡ ended_at count value end }
{
    if count == 0 {
        return None;
    }
    if 65535 < value {
        return None;
    }
    Some(Field {
        number: value as u16,
        end: end,
    })
}

// The field that begins at this place.
pub fn read_number(text: &[u8], at: usize) -> Option<Field>
    requires { at ≤ length text.now }
    ensures { result ≡ number_at text.now at }
{
    let mut value: u32 = 0;
    for (count, byte) in text[at..].iter().enumerate() {
        match *byte {
            b'\t' => return ended(count, value, at + count),
            b'0'..=b'9' => {
                if !decimal::goes_on(count, value) {
                    return None;
                }
                value = 10 * value + u32::from(*byte - b'0');
            }
            // a line has one LF, its last byte, and that is no part of the text
            _ => return None,
        }
    }
    ended(text.len() - at, value, text.len())
}

// The text is as many numbers as there is room for, and they are put there.
// A yes or no: what is read stands in the lent room, and an Option would hold nothing.
pub fn read_numbers(text: &[u8], numbers: &mut [u16]) -> bool
    ensures { NumbersRead (fields_after [] text.now) (length numbers.old) numbers.new result }
{
    let room = numbers.len();
    let mut at = 0;
    for (count, place) in numbers.iter_mut().enumerate() {
        let Some(field) = read_number(text, at) else {
            return false;
        };
        *place = field.number;
        if field.end == text.len() {
            return count + 1 == room;
        }
        at = field.end + 1;
    }
    false
}

// The line, LF included, opens with these bytes.
pub fn opens(line: &[u8], opening: &[u8]) -> bool
    ensures { result ≡ opens opening.now line.now }
{
    let front = opening.len();
    if line.len() <= front {
        return false;
    }
    &line[..front] == opening
}

// The line, LF included, is this opening and then as many numbers as there is room for, and they are put there.
// A yes or no: what is read stands in the lent room, and an Option would hold nothing.
pub fn read_line(line: &[u8], opening: &[u8], numbers: &mut [u16]) -> bool
    ensures { LineRead opening.now line.now (length numbers.old) numbers.new result }
{
    if !opens(line, opening) {
        return false;
    }
    let front = opening.len();
    let end = line.len() - 1;
    read_numbers(&line[front..end], numbers)
}

// The numbers that the text is, where it is so many.
pub fn numbers_of<const N: usize>(text: &[u8]) -> Option<[u16; N]>
    ensures { result ≡ numbers_said N (fields_after [] text.now) }
{
    let mut numbers = [0u16; N];
    if read_numbers(text, &mut numbers) {
        Some(numbers)
    } else {
        None
    }
}

// The numbers that the line, LF included, says behind this opening, where they are so many.
pub fn line_numbers<const N: usize>(line: &[u8], opening: &[u8]) -> Option<[u16; N]>
    ensures { result ≡ line_said N opening.now line.now }
{
    let mut numbers = [0u16; N];
    if read_line(line, opening, &mut numbers) {
        Some(numbers)
    } else {
        None
    }
}
