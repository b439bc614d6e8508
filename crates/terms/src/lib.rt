// Rows of numbers: the check of given rows, the work rows made of them, and their letters and weight by a triple; the rules of their reduction.
#![tactic(auto)]

pub mod checking;
pub mod counted;
pub mod job;
pub mod letters;
pub mod row;
pub mod rules;
pub mod slices;
pub mod weight;
