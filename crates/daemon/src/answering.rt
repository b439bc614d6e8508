// What a call from C that is done leaves: the rows and the four numbers as bytes.
ghost use Rattle.std.specs.Prelude.{◌≡◌, ◌++◌, ◌*◌, ◌≤◌, length, take};
ghost use Rattle.lists.specs.Written.{written_at};
ghost use Rattle.call_bytes.specs.Bytes.{two_bytes, eight_bytes};

use call_bytes::words;
use journal::resuming::Numbers;

// The four numbers, one behind the other.
pub fn put_numbers(numbers: Numbers, out: &mut [u8])
    requires { 32 ≤ length out.old }
    ensures { out.new ≡ written_at 0 (eight_bytes numbers.weight ++ (eight_bytes numbers.trials ++ (eight_bytes numbers.kept ++ eight_bytes numbers.new))) out.old }
{
    words::put_eight(numbers.weight, out, 0);
    words::put_eight(numbers.trials, out, 8);
    words::put_eight(numbers.kept as u64, out, 16);
    words::put_eight(numbers.new as u64, out, 24);
}

// The rows of a run that is done, four numbers a mode, and its four numbers.
pub fn put_done(modes: usize, own: &[u16], numbers: Numbers, rows: &mut [u8], answer: &mut [u8])
    requires { (4 * modes ≤ length own.now) × (8 * modes ≤ length rows.old) × (32 ≤ length answer.old) }
    ensures { (rows.new ≡ written_at 0 (two_bytes (take (4 * modes) own.now)) rows.old) × (answer.new ≡ written_at 0 (eight_bytes numbers.weight ++ (eight_bytes numbers.trials ++ (eight_bytes numbers.kept ++ eight_bytes numbers.new))) answer.old) }
{
    let end = 4 * modes;
    words::put_words(&own[..end], rows);
    put_numbers(numbers, answer);
}
