#![tactic(auto)]

// Tests of the rolls: the same calls on each of them, and on a plain list kept beside it.
#[cfg(test)]
mod plain;
