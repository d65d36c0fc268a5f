//! An entry of the timer table. No entry that exists names a task or a factor out of range.

ghost use Rattle.std.specs.Prelude.{◌≤◌};

use crate::timer::TimerPlace;

// A timer starts its task after `wait` beats and then at each `cycle`-th, with cycle 0 once; a delay rouses its task
// after `wait` beats and goes. The invariant is of the place that it holds, and not of typed fields beside one another:
// that every entry stands in its place is a law of the table, and a law sees no more of a typed field than a number.
#[derive(Clone, Copy)]
pub struct Timer {
    place: TimerPlace,
    ghost numbered: { (1 ≤ place.task) × (place.task ≤ 127) },
    ghost factored: { place.factor ≤ 16 },
}

pub mod beat;
