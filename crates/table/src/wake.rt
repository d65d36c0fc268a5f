//! Wakes: what stands in the places of the wake table.

pub mod entry;

pub use entry::Wake;

// How far a wake has come.
#[derive(Clone, Copy)]
pub enum Phase {
    // It waits for its second of the day.
    Waits,
    // It has fired, and fires again at the so-many-th beat from now.
    Counts { left: u32 },
    // It has fired and has no cycle; it keeps its place until it is cancelled.
    Spent,
}

// A place of the wake table: plain numbers with no invariant, so that a row may hold any.
#[derive(Clone, Copy)]
pub struct WakePlace {
    pub task: u8,
    pub factor: u8,
    pub second: u32,
    pub cycle: u32,
    pub phase: Phase,
}
