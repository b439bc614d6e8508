// Newick texts: an accepted tree written as one, and a text read back as a tree table.
#![tactic(auto)]

mod digits;
mod length;
mod names;
pub mod reading;
pub mod writing;
