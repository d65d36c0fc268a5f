#![tactic(auto)]

// The lever: what holds tasks, put over any roll.
mod holds;
mod lever_roll;
mod search;

pub use lever_roll::Lever;
