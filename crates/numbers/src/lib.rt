//! The numbers of tasks, factors and levels. A value of these types is in its range, so that nobody tests it again.

#![tactic(auto)]

mod bounded;

pub use bounded::{Bounded, Factor, Level, Task};
