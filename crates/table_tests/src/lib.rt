//! The tables at their edges, with a small target of their own.

#![tactic(auto)]

pub mod target;
#[cfg(test)]
mod tests;
