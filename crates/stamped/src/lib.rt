#![tactic(auto)]

// The stamped roll: two stamps for each task, in memory of a fixed size.
mod candidate;
mod renumbering;
mod slot;
mod stamped_roll;

pub use renumbering::Renumbering;
pub use stamped_roll::Stamped;
