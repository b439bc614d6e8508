// The header line: its rule's word, `1`, modes, terms.
ghost use Rattle.std.specs.Prelude.{◌≡◌, None};
ghost use Rattle.obeying.specs.LineForms.{header_by, header_of};
ghost use Rattle.obeying.specs.code.Openings.{header_opening};

use fields::numbers;
use terms::rules::Rule;

// What a header line says.
#[derive(Clone, Copy)]
pub struct HeaderLine {
    pub rule: Rule,
    pub modes: u16,
    pub terms: u16,
}

// The header that a line, LF included, says where its first bytes are those of this rule.
fn read_by(rule: Rule, line: &[u8], opening: &[u8]) -> Option<HeaderLine>
    requires { opening.now ≡ header_opening rule }
    ensures { result ≡ header_by rule line.now None }
{
    let [modes, terms] = numbers::line_numbers::<2>(line, opening)?;
    Some(HeaderLine { rule, modes, terms })
}

// The header that a line, LF included, says in either rule's word.
pub fn read_header(line: &[u8]) -> Option<HeaderLine>
    ensures { result ≡ header_of line.now }
{
    if let Some(header) = read_by(Rule::Published, line, b"hatt\t1\t") {
        return Some(header);
    }
    read_by(Rule::Keep, line, b"keep\t1\t")
}
