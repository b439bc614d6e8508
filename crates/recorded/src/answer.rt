// A recorded answer at the end of its case: the weight and the node lines.
ghost use Rattle.std.specs.Prelude.{IfSome, ◌≤◌, length};

use crate::lines;

// The weight, and how many numbers the node lines have; no recorded weight is above 65535.
#[derive(Clone, Copy)]
pub struct Recorded {
    pub weight: u64,
    pub count: usize,
}

// The answer that begins here and ends the case, its node lines put into the front of the rows.
pub fn read_answer(case: &[u8], from: usize, rows: &mut [u16]) -> Option<Recorded>
    ensures { IfSome result (λ recorded. recorded.count ≤ length rows.old) }
{
    let weight = lines::read_one(case, from, b"weight\t")?;
    let nodes = lines::read_lines(case, weight.end, b"node\t", 4, rows);
    if nodes.end != case.len() {
        return None;
    }
    Some(Recorded {
        weight: weight.number as u64,
        count: nodes.count,
    })
}
