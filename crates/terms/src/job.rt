// How large a job is, and its rule: what its journal's header says, and what every part of a run goes by.
ghost use Rattle.std.specs.Prelude.{◌≤◌};
ghost use Rattle.entities.specs.Limits.{most_modes, most_terms};

use crate::rules::Rule;

// The modes, the rule and the number of rows of a job, within the limits of the calls.
#[derive(Clone, Copy)]
pub struct JobSize {
    pub modes: usize,
    pub rule: Rule,
    pub count: usize,
    pub ghost some: { 1 ≤ modes },
    pub ghost few: { modes ≤ most_modes },
    pub ghost light: { count ≤ most_terms },
}
