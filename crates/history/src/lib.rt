// Histories of merges, whatever keeps them: words about them and their laws, and in code the trial totals.
#![tactic(auto)]

pub mod trials;
