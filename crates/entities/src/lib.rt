// Entities: leaves and parents by number, a node's three children, and the codes that a tree's rows and tables have for them.
#![tactic(auto)]

pub mod codes;
pub mod parents;

// Three entities: a node's children under X, Y and Z.
#[derive(Clone, Copy, PartialEq, Eq)]
pub struct Triple {
    pub x: u16,
    pub y: u16,
    pub z: u16,
}
