// The terms of a call from C: their bytes read into an array of the call's own.
ghost use Rattle.std.specs.Prelude.{◌≡◌, ◌+◌, ◌*◌, length};
ghost use Rattle.entities.specs.Limits.{most_terms, row_width};
ghost use Rattle.call_bytes.specs.code.Reading.{TermsRead};

use crate::words;

// How many numbers the call goes on with; 2049 rows are refused by 3 whatever they hold, so more than that are not read.
pub fn read_terms(bytes: &[u8], numbers: &mut [u16]) -> usize
    requires { length numbers.old ≡ row_width * (most_terms + 1) }
    ensures { TermsRead bytes.now numbers.new result }
{
    if bytes.len() % 16 != 0 {
        // one number is no row of eight, so that 2 is given in its turn
        return 1;
    }
    let count = bytes.len() / 2;
    if numbers.len() < count {
        return numbers.len();
    }
    words::read_words(bytes, &mut numbers[..count]);
    count
}
