// What the calls from C share: numbers as bytes, the terms read, a refusal as one number, and the room for what is answered.
#![tactic(auto)]

ghost use Rattle.std.specs.Prelude.{◌≡◌, ◌+◌, ◌*◌, ◌≤◌};
ghost use Rattle.refusal.specs.Numbers.{number_of, place_of};
ghost use Rattle.call_bytes.specs.code.Handing.{room_of};

use refusal::Refusal;

pub mod term_bytes;
pub mod words;

// The refusal's number and its place in one.
pub fn refusal_result(why: Refusal) -> u64
    requires { place_of why ≤ 65535 }
    ensures { result ≡ number_of why * 65536 + place_of why }
{
    (refusal::number(why) * 65536 + refusal::place(why)) as u64
}

// The room in numbers, of the call's own and of the lent bytes; none where so many numbers of the answer don't fit.
pub fn room_for(numbers: usize, own: usize, bytes: usize, answer: usize) -> usize
    requires { numbers ≤ 4 }
    ensures { result ≡ room_of numbers own bytes answer }
{
    if answer < 8 * numbers {
        return 0;
    }
    if bytes / 2 < own {
        return bytes / 2;
    }
    own
}
