//! The tables of what is to happen later: one text of a table for every kind of entry, over a row of places that is
//! lent for each call; timers and delays; wakes; the clock of the day.

#![tactic(auto)]

pub mod clock;
pub mod entry;
pub mod firing;
pub mod row;
pub mod selection;
pub mod timer;
pub mod times;
pub mod wake;
