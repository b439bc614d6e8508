// The weights of many triples from one reading of the rows: of a couple with every z, and of every mode's leaves with one z.
#![tactic(auto)]

pub mod gathered;
pub mod odds;
pub mod pairs;
mod raising;
pub mod tally;
