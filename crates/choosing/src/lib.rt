// The choice of a step, from the tables of the entities: lawful triples, and the least of them.
#![tactic(auto)]

pub mod choice;
pub mod entity_tables;
pub mod lawful;
mod seeking;
