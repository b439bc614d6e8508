// The codes of a node line's fields: a number, or `-` for the absent child.
ghost use Rattle.std.specs.Prelude.{◌≡◌, [], ◌≤◌, length, drop};
ghost use Rattle.lists.specs.Members.{alike};
ghost use Rattle.fields.specs.Texts.{spelt};
ghost use Rattle.fields.specs.Fields.{fields_after};
ghost use Rattle.fields.specs.code.Reading.{first_field, field_at, FieldsRead};
ghost use Rattle.nodes_text.specs.TreeInput.{is_code, code_said};

use entities::codes;
use fields::numbers;
use fields::numbers::Field;

// The field that begins at this place is `-` and nothing else.
fn is_dash(text: &[u8], at: usize) -> bool
    requires { at ≤ length text.now }
    ensures { result ≡ alike (first_field (drop at text.now)) (spelt "-") }
{
    if text.len() <= at {
        return false;
    }
    if text[at] != b'-' {
        return false;
    }
    let end = at + 1;
    if text.len() <= end {
        return true;
    }
    text[end] == 9
}

// The code in the field that begins at this place.
fn read_code(text: &[u8], at: usize) -> Option<Field>
    requires { at ≤ length text.now }
    ensures { result ≡ field_at is_code code_said text.now at }
{
    if is_dash(text, at) {
        return Some(Field {
            number: codes::ABSENT,
            end: at + 1,
        });
    }
    let field = numbers::read_number(text, at)?;
    // the absent child's number isn't written
    if field.number == codes::ABSENT {
        return None;
    }
    Some(field)
}

// The text is as many codes as there is room for, and they are put there.
// A yes or no: what is read stands in the lent room, and an Option would hold nothing.
// `read_numbers` with another reader of a field: their laws are one; a closure would need a longer contract than this loop.
pub fn read_codes(text: &[u8], codes: &mut [u16]) -> bool
    ensures { FieldsRead is_code code_said (fields_after [] text.now) (length codes.old) codes.new result }
{
    let room = codes.len();
    let mut at = 0;
    for (count, place) in codes.iter_mut().enumerate() {
        let Some(field) = read_code(text, at) else {
            return false;
        };
        *place = field.number;
        if field.end == text.len() {
            return count + 1 == room;
        }
        at = field.end + 1;
    }
    false
}
