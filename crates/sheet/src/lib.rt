//! The event sheet: the records in which a call tells its caller what happened, lent for each call.

#![tactic(auto)]

mod event;
mod write;

pub use event::{Event, Kind};
pub use write::{tell, tell_times};
