// A number read from a text, as long as its digits go on.
ghost use Rattle.std.specs.Prelude.{◌≡◌, true, ◌≤◌, ◌<◌, eqb, length};
ghost use Rattle.newick.specs.Reading.{byte_at};
ghost use Rattle.newick.specs.code.Promises.{may_follow, NumberRead};

use fields::decimal;

// A number, and the place behind its digits; where there are none, the place at which they were to begin.
#[derive(Clone, Copy)]
pub struct Number {
    pub value: u32,
    pub end: usize,
}

// The byte stands at this place.
pub fn stands(text: &[u8], at: usize, byte: u8) -> bool
    requires { 0 < byte }
    ensures value { result ≡ eqb (byte_at text.now at) byte }
    ensures at_in_bounds { result ≡ true → at < length text.now }
{
    at < text.len() && text[at] == byte
}

// The byte is one more digit of a number.
#[tactic(auto, unfolding(crate::specs::code::Promises::may_follow, fields::specs::Decimal::is_digit))]
fn follows(count: usize, value: u32, byte: u8) -> bool
    requires { value ≤ 65535 }
    ensures { result ≡ may_follow count value byte }
{
    byte.is_ascii_digit()
        && decimal::goes_on(count, value)
        && 10 * value + u32::from(byte - b'0') <= 65535
}

// The number whose digits begin at this place.
pub fn read_digits(text: &[u8], at: usize) -> Number
    requires { at ≤ length text.now }
    ensures { NumberRead text.now at result }
{
    let mut value: u32 = 0;
    for (count, byte) in text[at..].iter().enumerate() {
        if !follows(count, value, *byte) {
            return Number {
                value,
                end: at + count,
            };
        }
        value = 10 * value + u32::from(*byte - b'0');
    }
    Number {
        value,
        end: text.len(),
    }
}
