// Merging: the state of a run, the merge, the steps to the end, and what is asked of a run.
#![tactic(auto)]

pub mod asked;
pub mod run;
