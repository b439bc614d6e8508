// A sequence's merges written as lines.
ghost use Rattle.std.specs.Prelude.{◌≡◌, ◌+◌, ◌*◌, ◌≤◌, length};
ghost use Rattle.lists.specs.Written.{written_at};
ghost use Rattle.best_text.specs.Printing.{merge_line, merge_lines};
ghost use Rattle.best_text.specs.code.MergesRead.{merges_in};

use entities::Triple;
use fields::decimal;

// A merge's line written at this place; the place after it.
fn put_merge(out: &mut [u8], at: usize, merge: Triple) -> usize
    requires { at + 63 ≤ length out.old }
    ensures value { (result ≡ at + length (merge_line merge)) × (result ≤ at + 63) }
    ensures out_after { out.new ≡ written_at at (merge_line merge) out.old }
{
    let first = decimal::put_field(out, at, merge.x as u64, 9);
    let second = decimal::put_field(out, first, merge.y as u64, 9);
    decimal::put_field(out, second, merge.z as u64, 10)
}

// The lines of a sequence's merges written at this place; the place after them.
pub fn put_merges(out: &mut [u8], start: usize, sequence: &[u16]) -> usize
    requires { start + 21 * length sequence.now ≤ length out.old }
    ensures value { (result ≡ start + length (merge_lines (merges_in sequence.now))) × (result ≤ start + 21 * length sequence.now) }
    ensures out_after { out.new ≡ written_at start (merge_lines (merges_in sequence.now)) out.old }
{
    let mut at = start;
    for numbers in sequence.chunks_exact(3) {
        let merge = Triple {
            x: numbers[0],
            y: numbers[1],
            z: numbers[2],
        };
        at = put_merge(out, at, merge);
    }
    at
}
