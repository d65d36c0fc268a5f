//! Whole runs over the lever on the packed roll, with the lines that the rules give for them.

#![tactic(auto)]

#[cfg(test)]
mod tests;
