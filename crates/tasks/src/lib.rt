//! The tasks of a station and their starts: over any roll, what every call that touches a start is made of.

#![tactic(auto)]

mod factor_set;
mod task_table;

pub use task_table::TaskTable;
