//! The kernel of a station: over any roll, what every call does. The station above hands out its calls and their laws.

#![tactic(auto)]

mod effect;
mod kernel;
mod setup;

pub use kernel::Kernel;
