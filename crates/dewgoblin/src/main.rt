// The program: the command that its first argument names, by the rule that its third does, for the terms on standard input and the file on descriptor 3; its answer on standard output, with a full stop behind it.
#![tactic(auto)]

ghost use Rattle.std.specs.Prelude.{◌≡◌, ◌≤◌, MatchResult};
ghost use Rattle.io.specs.Counts.{IsPrefixLen};
ghost use Rattle.terms_text.specs.Jobs.{requested};
ghost use Rattle.text.specs.Running.{printed_room};
ghost use Rattle.text.specs.Output.{Prints};
ghost use Rattle.dewgoblin.specs.Commands.{rule_named, journal_command, command_text, terms_command, strings_command};
ghost use Rattle.strings_text.specs.Printing.{strings_room};

use fields::parts;
use standard_input::ReadFailed;
use std::io::Write;
use std::rt::{Env, Files};
use std::{fs, io};
use steering::reasons;
use terms::rules::Rule;
use terms_text::jobs::Request;
use text::{Printed, journals};

// The starter opens the file on descriptor 3: a journal, merges by hand or a tree.
const FILE: &str = "/dev/fd/3";

// The file that a command reads; `journal` reads none.
fn read_file<R: Files>(rt: &R, name: &[u8], file: &mut [u8]) -> Result<usize, ReadFailed>
    ensures { MatchResult result (λ count. IsPrefixLen count file.new) (λ failed. IsPrefixLen failed.count file.new) }
{
    if parts::same_bytes(name, b"journal") {
        return Ok(0);
    }
    match fs::open(rt, FILE) {
        Ok(mut opened) => standard_input::read_input(&mut opened, file),
        Err(_) => Err(ReadFailed { count: 0 }),
    }
}

// The rule that a word names.
fn rule_named(word: &[u8]) -> Rule
    ensures { result ≡ rule_named word.now }
{
    if parts::same_bytes(word, b"keep") {
        return Rule::Keep;
    }
    Rule::Published
}

// The answer of a command whose file is a journal or merges by hand.
fn journal_answer(name: &[u8], asks: &Request, file: &[u8]) -> Printed<[u8; 16384]>
    ensures { Prints printed_room (journal_command name.now (requested asks.now) file.now) result }
{
    if parts::same_bytes(name, b"resume") {
        return journals::resume_answer(asks, file);
    }
    if parts::same_bytes(name, b"steer") {
        return steering::steer_answer(asks, file);
    }
    if parts::same_bytes(name, b"reason") {
        return reasons::reason_answer(asks, file);
    }
    if parts::same_bytes(name, b"drops") {
        return drops_text::drops_answer(asks, file);
    }
    journals::continue_answer(asks, file)
}

// A command's answer.
fn answer(name: &[u8], word: &[u8], asks: &Request, file: &[u8]) -> Printed<[u8; 16384]>
    ensures { Prints printed_room (command_text name.now word.now (requested asks.now) file.now) result }
{
    if parts::same_bytes(name, b"check") {
        return tree_text::check_answer(file);
    }
    if parts::same_bytes(name, b"weigh") {
        return tree_text::weigh_answer(file, asks.text);
    }
    if parts::same_bytes(name, b"assign") {
        return assign_text::assign_answer(asks, file, word);
    }
    if parts::same_bytes(name, b"letters") {
        return letters_text::letters_answer(asks, file, word);
    }
    journal_answer(name, asks, file)
}

// The answer of a command that may be for terms alone: `best` reads no file and asks for no rule.
fn terms_answer(name: &[u8], word: &[u8], asks: &Request, file: &[u8]) -> Printed<[u8; 16384]>
    ensures { Prints printed_room (terms_command name.now word.now (requested asks.now) file.now) result }
{
    if parts::same_bytes(name, b"best") {
        return best_text::best_answer(asks.text);
    }
    answer(name, word, asks, file)
}

// The answer of a command that prints strings.
fn strings_answer(name: &[u8], asks: &Request, file: &[u8]) -> Printed<[u8; 133522]>
    ensures { Prints strings_room (strings_command name.now (requested asks.now) file.now) result }
{
    if parts::same_bytes(name, b"strings") {
        return strings_text::tree_strings_answer(file);
    }
    strings_text::hatt_strings_answer(asks)
}

// An answer may be empty: the full stop tells it from none.
fn write_answer<W: Write, const N: usize>(out: &mut W, printed: &Printed<[u8; N]>) -> io::Result<()>
    requires { printed.now.count ≤ N }
{
    printed.write(out)?;
    out.write_all(b".")
}

// A command's answer written.
fn give_answer<W: Write>(
    out: &mut W,
    name: &[u8],
    word: &[u8],
    asks: &Request,
    file: &[u8],
) -> io::Result<()> {
    write_answer(out, &terms_answer(name, word, asks, file))
}

// The same of a command that prints strings.
fn give_strings<W: Write>(out: &mut W, name: &[u8], asks: &Request, file: &[u8]) -> io::Result<()> {
    write_answer(out, &strings_answer(name, asks, file))
}

// A command by its name and its other word, for what is asked and the file that was read.
fn give<W: Write>(
    out: &mut W,
    name: &[u8],
    word: &[u8],
    asks: &Request,
    file: &[u8],
) -> io::Result<()> {
    if parts::same_bytes(name, b"strings") {
        return give_strings(out, name, asks, file);
    }
    if parts::same_bytes(name, b"hatt_strings") {
        return give_strings(out, name, asks, file);
    }
    give_answer(out, name, word, asks, file)
}

// A command by its name, its other word and its rule's, for the terms on standard input, in lent room for its file. One whose file failed says nothing, and its starter says why.
fn give_read(
    rt: &HostRuntime,
    name: &[u8],
    word: &[u8],
    last: &[u8],
    input: &[u8],
    file: &mut [u8],
) -> io::Result<()> {
    let Ok(kept) = read_file(rt, name, file) else {
        return Ok(());
    };
    let asks = Request {
        rule: rule_named(last),
        text: input,
    };
    give(&mut rt.stdout(), name, word, &asks, &file[..kept])
}

fn main(rt: HostRuntime) -> io::Result<()> {
    let mut name = [0u8; 16];
    // none where it is missing or longer
    let length = rt.arg(1, &mut name).unwrap_or(0);
    let mut word = [0u8; 16];
    let width = rt.arg(2, &mut word).unwrap_or(0);
    let mut last = [0u8; 16];
    let end = rt.arg(3, &mut last).unwrap_or(0);
    // more than the starter lets through of a file
    let mut file = [0u8; 66000];
    standard_input::answer_input(
        &rt,
        |input| give_read(
            &rt,
            &name[..length],
            &word[..width],
            &last[..end],
            input,
            &mut file,
        ),
    )
}
