// A number as decimal text: which digits may follow one another, how many there are, and all of them written.
ghost use Rattle.std.specs.Prelude.{◌≡◌, [], ◌∷◌, ◌++◌, ◌+◌, ◌%◌, ◌≤◌, length};
ghost use Rattle.lists.specs.Written.{written_at};
ghost use Rattle.fields.specs.Decimal.{decimal};
ghost use Rattle.fields.specs.code.Reading.{goes_on};

// Another digit may follow so many digits of this value: 0 stands alone, and above 6553 any digit makes too large a number.
pub fn goes_on(count: usize, value: u32) -> bool
    ensures { result ≡ goes_on count value }
{
    if 6553 < value {
        return false;
    }
    if 0 < value {
        return true;
    }
    count == 0
}

// How many digits the number has.
pub fn digit_count(number: u64) -> usize
    ensures { (result ≡ length (decimal number)) × (result ≤ 20) }
{
    let mut left = number;
    for count in 1..20 {
        if left < 10 {
            return count;
        }
        left /= 10;
    }
    20
}

// The number's last digit as a byte.
fn last_digit(number: u64) -> u8
    ensures { result ≡ 48 + number % 10 }
{
    48 + (number % 10) as u8
}

// The number written over the front, from its last digit back; how many bytes that is.
pub fn put_number(out: &mut [u8], number: u64) -> usize
    requires { length (decimal number) ≤ length out.old }
    ensures value { (result ≡ length (decimal number)) × (result ≤ 20) }
    ensures out_after { out.new ≡ written_at 0 (decimal number) out.old }
{
    let count = digit_count(number);
    let mut left = number;
    for place in (0..count).rev() {
        out[place] = last_digit(left);
        left /= 10;
    }
    count
}

// The number and the byte behind it written at this place; the place after them.
pub fn put_field(out: &mut [u8], at: usize, number: u64, mark: u8) -> usize
    requires { at + (length (decimal number) + 1) ≤ length out.old }
    ensures value { result ≡ at + (length (decimal number) + 1) }
    ensures out_after { out.new ≡ written_at at (decimal number ++ (mark ∷ [])) out.old }
{
    let end = at + put_number(&mut out[at..], number);
    out[end] = mark;
    end + 1
}
