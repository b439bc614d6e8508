// The complete lines of a text: one after the other, how many there are, and the line with a number.
ghost use Rattle.std.specs.Prelude.{◌≡◌, [], ◌∷◌, ◌+◌, ◌≤◌, length, get_or, drop, MatchOption, position, ◌==◌};
ghost use Rattle.std.specs.Iterator.{YieldsFirstRef, item_count};
ghost use Rattle.fields.specs.Lines.{lines, first_line, kept_of, found_line};
ghost use Rattle.fields.specs.code.LinesLeft.{lines_left};

// The place of the first LF.
fn first_feed(bytes: &[u8]) -> Option<usize>
    ensures { result ≡ position (λ byte. byte == 10) bytes.now }
{
    bytes.iter().position(|byte| *byte == b'\n')
}

// The place after the next LF, or the same place where there is none.
pub fn line_end(bytes: &[u8], from: usize) -> usize
    requires { from ≤ length bytes.now }
    ensures { (result ≡ from + length (first_line (drop from bytes.now))) × (result ≤ length bytes.now) }
{
    match first_feed(&bytes[from..]) {
        Some(before) => from + before + 1,
        None => from,
    }
}

// The first complete line, LF included, and what stands behind it.
fn split_line(bytes: &[u8]) -> Option<(&[u8], &[u8])>
    ensures { MatchOption result (lines bytes.now ≡ []) (λ parts. lines bytes.now ≡ parts.0.now ∷ lines parts.1.now) }
{
    let feed = first_feed(bytes)?;
    Some(bytes.split_at(feed + 1))
}

// The complete lines that are still ahead, LF included; bytes behind the last LF are none.
#[derive(Drop)]
pub struct Lines<'a> {
    rest: &'a [u8],
}

impl<'a> Iterator for Lines<'a> {
    type Item = &'a [u8];

    ghost next_gives = { YieldsFirstRef lines_left };

    ghost remaining = { item_count lines_left };

    fn next(&mut self) -> Option<&'a [u8]> {
        let (line, rest) = split_line(self.rest)?;
        self.rest = rest;
        Some(line)
    }
}

// The text's complete lines, one after the other.
pub fn lines_of(text: &[u8]) -> Lines<'_>
    ensures { lines_left result ≡ lines text.now }
{
    Lines { rest: text }
}

// How many bytes there are through the last LF.
pub fn kept_bytes(bytes: &[u8]) -> usize
    ensures { (result ≡ length (kept_of bytes.now)) × (result ≤ length bytes.now) }
{
    lines_of(bytes).map(|line| line.len()).sum()
}

// How many complete lines there are.
pub fn line_count(bytes: &[u8]) -> usize
    ensures { result ≡ length (lines bytes.now) }
{
    lines_of(bytes).count()
}

// The line with this number, LF included, or an empty part.
pub fn line_at(bytes: &[u8], line: usize) -> &[u8]
    ensures { result.now ≡ get_or (lines bytes.now) line [] }
{
    lines_of(bytes).nth(line).unwrap_or(&[])
}

// The line with this number, LF included, where it stands in either one, or an empty part.
pub fn find_line<'a>(kept: &'a [u8], new: &'a [u8], line: usize) -> &'a [u8]
    ensures { result.now ≡ found_line kept.now new.now line }
{
    let count = line_count(kept);
    if line < count {
        return line_at(kept, line);
    }
    line_at(new, line - count)
}
