//! Timers and delays: what stands in the places of the timer table.

pub mod entry;

pub use entry::Timer;

// A place of the timer table: plain numbers with no invariant, so that a row may hold any.
#[derive(Clone, Copy)]
pub struct TimerPlace {
    // A mark and no enum: the definitions and any row of places name it by its fields.
    pub delay: bool,
    pub task: u8,
    pub factor: u8,
    pub wait: u32,
    pub cycle: u32,
}
