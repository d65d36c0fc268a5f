//! The factors of a task that are set.

ghost use Rattle.std.specs.Prelude.{◌^◌, ◌<◌};

// A bit for each of the 17 factors: in one word, so that the smallest is one call and a record is small.
#[derive(Clone, Copy)]
pub struct FactorSet {
    bits: u32,
    ghost seventeen: { bits < 2 ^ 17 },
}

pub mod members;
