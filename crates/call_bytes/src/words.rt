// Numbers as bytes, the low byte first: two for a 16-bit number, eight for a number of an answer.
ghost use Rattle.std.specs.Prelude.{◌≡◌, [], ◌∷◌, ◌+◌, ◌*◌, ◌/◌, ◌%◌, ◌≤◌, length};
ghost use Rattle.lists.specs.Ranges.{listed};
ghost use Rattle.lists.specs.Written.{written_at};
ghost use Rattle.call_bytes.specs.Bytes.{word_at, two_bytes, eight_bytes};

// The number of two bytes.
fn word(low: u8, high: u8) -> u16
    ensures { result ≡ low + 256 * high }
{
    u16::from_le_bytes([low, high])
}

// The numbers that the bytes say, as many as there is room for.
pub fn read_words(bytes: &[u8], numbers: &mut [u16])
    requires { 2 * length numbers.old ≤ length bytes.now }
    ensures { numbers.new ≡ listed (word_at bytes.now) 0 (length numbers.old) }
{
    for (at, number) in numbers.iter_mut().enumerate() {
        *number = word(bytes[2 * at], bytes[2 * at + 1]);
    }
}

// The two bytes of a number.
fn put_word(number: u16, out: &mut [u8], at: usize)
    requires { at + 2 ≤ length out.old }
    ensures { out.new ≡ written_at at (number % 256 ∷ (number / 256 ∷ [])) out.old }
{
    out[at..at + 2].copy_from_slice(&number.to_le_bytes());
}

// The bytes of numbers, at the front.
pub fn put_words(numbers: &[u16], out: &mut [u8])
    requires { 2 * length numbers.now ≤ length out.old }
    ensures { out.new ≡ written_at 0 (two_bytes numbers.now) out.old }
{
    for (at, number) in numbers.iter().enumerate() {
        put_word(*number, out, 2 * at);
    }
}

// The eight bytes of a number.
pub fn put_eight(number: u64, out: &mut [u8], at: usize)
    requires { at + 8 ≤ length out.old }
    ensures { out.new ≡ written_at at (eight_bytes number) out.old }
{
    out[at..at + 8].copy_from_slice(&number.to_le_bytes());
}
