// The tables of the entities.

// The entities by number: which are open, the z-end of each, and the holder of each leaf.
#[derive(Clone, Copy)]
pub struct Tables {
    pub opens: [bool; 769],
    pub ends: [u16; 769],
    pub holders: [u16; 769],
}
