// Lines of text, their fields parted by tabs, and decimal numbers: read, written and found.
#![tactic(auto)]

pub mod decimal;
pub mod lines;
pub mod numbers;
pub mod parts;
