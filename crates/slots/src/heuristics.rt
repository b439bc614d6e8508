// The heuristics: which of a round's nodes are taken.
ghost use Rattle.std.specs.Prelude.{◌≡◌, Result};
ghost use Rattle.slots.specs.Heuristics.{heuristic_number, HeuristicSaid};

use refusal::Refusal;

#[derive(Clone, Copy)]
pub enum Heuristic {
    // Every node but those whose slots equal an earlier one's.
    MinWeight,
    // The first node.
    XFirst,
    // The last node.
    ZFirst,
}

// A heuristic's number: 0, 1 and 2, in the order above.
impl From<Heuristic> for usize {
    ghost from_gives = { λ heuristic number. number ≡ heuristic_number heuristic };

    fn from(heuristic: Heuristic) -> usize {
        match heuristic {
            Heuristic::MinWeight => 0,
            Heuristic::XFirst => 1,
            Heuristic::ZFirst => 2,
        }
    }
}

// The heuristic of a number, or refusal 17 where it has none.
impl TryFrom<usize> for Heuristic {
    type Error = Refusal;

    ghost try_from_gives = { HeuristicSaid };

    fn try_from(number: usize) -> Result<Heuristic, Refusal> {
        match number {
            0 => Ok(Heuristic::MinWeight),
            1 => Ok(Heuristic::XFirst),
            2 => Ok(Heuristic::ZFirst),
            _ => Err(Refusal::Heuristic),
        }
    }
}
