// The program: standard input read, and the tree of its run written to standard output as a Newick line.
#![tactic(auto)]

use std::io;

fn main(rt: HostRuntime) -> io::Result<()> {
    standard_input::answer_input(
        &rt,
        |input| newick_line::answer_newick(input).write(&mut rt.stdout()),
    )
}
