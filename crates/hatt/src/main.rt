// The program: standard input read, and its answer written to standard output.
#![tactic(auto)]

use std::io;

fn main(rt: HostRuntime) -> io::Result<()> {
    standard_input::answer_input(&rt, |input| text::answer(input).write(&mut rt.stdout()))
}
