//! The clock of the day, in milliseconds.

ghost use Rattle.std.specs.Prelude.{◌<◌};

#[derive(Clone, Copy)]
pub struct Clock {
    millis: u32,
    ghost within: { millis < 86400000 },
}

mod run;
