//! The station: over any roll, what runs the tasks of one cabinet. A cold station knows only power-up, a live one the
//! calls, and stop ends it.

#![tactic(auto)]

mod cold;
mod driving;
mod live;

pub use cold::Cold;
pub use driving::{Driven, drive};
pub use live::Live;
