// The journal's lines as they are written, from the front of what is left of the buffer.
ghost use Rattle.std.specs.Prelude.{◌≡◌, ◌≤◌, length};
ghost use Rattle.lists.specs.Written.{written_at};
ghost use Rattle.obeying.specs.LineForms.{header_text, merge_text};
ghost use Rattle.obeying.specs.code.Openings.{header_opening};

use entities::Triple;
use fields::{decimal, parts};
use terms::rules::Rule;

// The merge line written over the front; how many bytes it has.
pub fn put_merge(out: &mut [u8], step: u16, triple: Triple, weight: u16) -> usize
    requires { length (merge_text step triple weight) ≤ length out.old }
    ensures value { result ≡ length (merge_text step triple weight) }
    ensures out_after { out.new ≡ written_at 0 (merge_text step triple weight) out.old }
{
    let mut at = decimal::put_field(out, 0, step as u64, 9);
    at = decimal::put_field(out, at, triple.x as u64, 9);
    at = decimal::put_field(out, at, triple.y as u64, 9);
    at = decimal::put_field(out, at, triple.z as u64, 9);
    decimal::put_field(out, at, weight as u64, 10)
}

// What every header of a rule begins with, written over the front; how many bytes that is.
fn put_opening(out: &mut [u8], rule: Rule) -> usize
    requires { 7 ≤ length out.old }
    ensures value { result ≡ 7 }
    ensures out_after { out.new ≡ written_at 0 (header_opening rule) out.old }
{
    match rule {
        Rule::Published => parts::put_bytes(out, 0, b"hatt\t1\t"),
        Rule::Keep => parts::put_bytes(out, 0, b"keep\t1\t"),
    }
}

// The header written over the front; how many bytes it has.
pub fn put_header(out: &mut [u8], rule: Rule, modes: u16, terms: u16) -> usize
    requires { length (header_text rule modes terms) ≤ length out.old }
    ensures value { result ≡ length (header_text rule modes terms) }
    ensures out_after { out.new ≡ written_at 0 (header_text rule modes terms) out.old }
{
    let front = put_opening(out, rule);
    let at = decimal::put_field(out, front, modes as u64, 9);
    decimal::put_field(out, at, terms as u64, 10)
}
