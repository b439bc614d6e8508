// The programs' text: the run that their input asks for made and their answers printed, from bytes to bytes.
#![tactic(auto)]

ghost use Rattle.std.specs.Prelude.{◌≤◌, take, OnOk};
ghost use Rattle.std.specs.Fn.{FnOnceTakesAtMut, FnOnceReturnsAtMut};
ghost use Rattle.std.specs.Io.KnownBytes.{Appends};
ghost use Rattle.text.specs.Running.{program_rooms, printed_room};
ghost use Rattle.text.specs.Output.{answer_text, Prints};

use std::io;
use std::io::Write;
use terms::rules::Rule;
use terms_text::jobs::Request;

pub mod journals;
pub mod output;
pub mod running;

// What a program prints: the first `count` of the bytes.
#[derive(Drop)]
pub struct Printed<B> {
    pub bytes: B,
    pub count: usize,
}

impl<B> Printed<B> {
    // What `put` writes over the front of these bytes; it answers how many bytes that is.
    pub fn by<F: FnOnce(&mut B) -> usize>(bytes: B, put: F) -> Printed<B>
        requires { FnOnceTakesAtMut F.FnOnce put bytes }
        ensures { FnOnceReturnsAtMut F.FnOnce put bytes result.count result.bytes }
    {
        let mut printed = Printed { bytes, count: 0 };
        printed.count = put(&mut printed.bytes);
        printed
    }
}

impl<const N: usize> Printed<[u8; N]> {
    // Writes the text behind what the writer has.
    pub fn write<W: Write>(&self, out: &mut W) -> io::Result<()>
        requires { self.now.count ≤ N }
        ensures { OnOk result (Appends (W.contents out.old) (W.contents out.new) (take self.now.count self.now.bytes)) }
    {
        out.write_all(&self.bytes[..self.count])
    }
}

// The program `hatt`'s answer to a text: by the published rule, and an empty journal is read.
pub fn answer(input: &[u8]) -> Printed<[u8; 16384]>
    ensures { Prints printed_room (answer_text program_rooms input.now) result }
{
    let asks = Request {
        rule: Rule::Published,
        text: input,
    };
    journals::resume_answer(&asks, b"")
}
