#![tactic(auto)]

// The packed roll: its entries in order and without gaps, in memory of a fixed size.
mod packed_roll;
mod row;
mod scan;

pub use packed_roll::Packed;
