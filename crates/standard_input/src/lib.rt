// What a program reads, standard input or a file, read to its end; a read that fails is told apart from the end.
#![tactic(auto)]

ghost use Rattle.std.specs.Prelude.{◌≡◌, ◌⊎◌, ℕ, List, Ok, MatchResult};
ghost use Rattle.std.specs.Fn.{FnOnceReturnsAt};
ghost use Rattle.io.specs.Counts.{IsPrefixLen};

use std::io;
use std::io::Read;

// A read failed; so many bytes had come before it.
#[derive(Clone, Copy)]
pub struct ReadFailed {
    pub count: usize,
}

// What is read until it ends, the buffer is full or a read fails: how many bytes stand at the front of the buffer.
pub fn read_input<R: Read>(from: &mut R, bytes: &mut [u8]) -> Result<usize, ReadFailed>
    ensures { MatchResult result (λ count. IsPrefixLen count bytes.new) (λ failed. IsPrefixLen failed.count bytes.new) }
{
    let mut count = 0;
    // no slice to go over: the system says how many bytes each read brings
    while count < bytes.len() {
        match from.read(&mut bytes[count..]) {
            Ok(0) => break,
            Ok(more) => count += more,
            Err(_) => return Err(ReadFailed { count }),
        }
    }
    Ok(count)
}

// What `answer` does with standard input. One whose input failed says nothing, and its starter says why.
pub fn answer_input<F: FnOnce(&[u8]) -> io::Result<()>>(
    rt: &HostRuntime,
    answer: F,
) -> io::Result<()>
    requires { F.IsAlwaysCallable answer }
    ensures { (result ≡ Ok tt) ⊎ ((input : List ℕ) × FnOnceReturnsAt F.FnOnce answer input result) }
{
    // more than any well-formed text of our programs has; what lies beyond alters none of their answers
    let mut input = [0u8; 98304];
    let Ok(count) = read_input(&mut rt.stdin(), &mut input) else {
        return Ok(());
    };
    answer(&input[..count])
}
