//! Books at the edges of every rule, with what is told of them and what they hand out.

#![tactic(auto)]

#[cfg(test)]
mod tests;
