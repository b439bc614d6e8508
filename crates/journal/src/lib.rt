// The journal: its lines written, and a run resumed from it.
#![tactic(auto)]

pub mod new_lines;
pub mod resuming;
mod writing;
