// A merge line: step, x, y, z, weight.
ghost use Rattle.std.specs.Prelude.{◌≡◌};
ghost use Rattle.obeying.specs.LineForms.{merge_of_line};

use entities::Triple;
use fields::numbers;

// What a merge line says.
#[derive(Clone, Copy)]
pub struct MergeLine {
    pub step: u16,
    pub triple: Triple,
    pub weight: u16,
}

// The merge that a line, LF included, says.
pub fn read_merge(line: &[u8]) -> Option<MergeLine>
    ensures { result ≡ merge_of_line line.now }
{
    let [step, x, y, z, weight] = numbers::line_numbers::<5>(line, b"")?;
    Some(MergeLine {
        step,
        triple: Triple { x, y, z },
        weight,
    })
}
