//! The runner: it carries out a task book, step by step, and hands on a line for each event.

#![tactic(auto)]

mod buffer;
mod instruction;
mod line;
mod positions;
mod recorder;
mod runs;
mod scripted;
mod sink;

pub use instruction::{Instruction, decode};
pub use line::{Line, event_line, fault_line, left_line};
pub use recorder::Recorder;
pub use runs::run;
pub use sink::Sink;
