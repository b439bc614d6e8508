// Asks the library every recorded case anew and prints, for each kind, how many cases there are and how many differ.
#![tactic(auto)]

use replay::Tally;
use std::io::Write;
use std::{fs, io};

mod replay;

// A tab and a number.
fn print_count<W: Write>(out: &mut W, count: usize) -> io::Result<()> {
    write!(out, "\t{count}")
}

// The counts, and the number of the first case that differs where one does.
fn print_tally<W: Write>(out: &mut W, tally: Tally) -> io::Result<()> {
    print_count(out, tally.cases)?;
    print_count(out, tally.different)?;
    if 0 < tally.different {
        print_count(out, tally.first)?;
    }
    out.write_all(b"\n")
}

// The file's cases asked anew and counted; a file that isn't read whole gives no counts, so that it can't pass.
fn replay_file<F: Fn(&[u8]) -> bool>(
    rt: &HostRuntime,
    agrees: F,
    name: &str,
    buffer: &mut [u8],
) -> io::Result<()>
    requires { F.IsAlwaysCallable agrees }
{
    let mut out = rt.stdout();
    let mut file = match fs::open(rt, name) {
        Ok(file) => file,
        Err(error) => {
            eprintln!(rt; "{name}: {error}")?;
            return out.write_all(b"\tnot opened\n");
        }
    };
    let length = match standard_input::read_input(&mut file, buffer) {
        Ok(count) => count,
        Err(failed) => failed.count,
    };
    // a full buffer may hold only the front of the file
    if length == buffer.len() {
        return out.write_all(b"\ttoo long\n");
    }
    print_tally(&mut out, replay::replay(agrees, &buffer[..length]))
}

// One line a kind, from one buffer.
fn replay_files(rt: &HostRuntime, buffer: &mut [u8]) -> io::Result<()> {
    let mut out = rt.stdout();
    out.write_all(b"hatt")?;
    replay_file(rt, recorded_hatt::agrees, "hatt.txt", buffer)?;
    out.write_all(b"assign")?;
    replay_file(rt, recorded_assign::agrees, "assign.txt", buffer)?;
    out.write_all(b"tree")?;
    replay_file(rt, recorded_tree::agrees, "tree.txt", buffer)
}

fn main(rt: HostRuntime) -> io::Result<()> {
    let mut buffer = [0u8; 262144];
    replay_files(&rt, &mut buffer)
}
