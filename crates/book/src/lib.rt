//! The task book: the bytes that say which tasks a station has, and what each does when it runs.
//!
//! A header names two sections, the task rows and the instruction rows (`sections`, `rows`, `letters`, `numbers`).
//! `check` tells the first fault of a book (`checking`, `faults`); `Book` reads one that has none (`reader`).

#![tactic(auto)]

mod checking;
mod faults;
mod letters;
mod numbers;
mod reader;
mod rows;
mod sections;

pub use checking::check;
pub use faults::{Cause, Fault, Layer};
pub use letters::{Letter, UnknownLetter};
pub use numbers::{byte_at, u16_at, u32_at};
pub use reader::Book;
pub use sections::{Layout, Section, TaskRow};
