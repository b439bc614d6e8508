// A recorded case's text, and what a call left of what it was lent: what the recorded cases of every kind share.
#![tactic(auto)]

pub mod answer;
pub mod fronts;
pub mod lines;
