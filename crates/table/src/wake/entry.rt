//! An entry of the wake table. No entry that exists names a task or a factor out of range.

ghost use Rattle.std.specs.Prelude.{◌≤◌};

use crate::wake::WakePlace;

// A wake starts its task at the next beat whose time of day is its second, and then at each `cycle`-th beat. It holds
// its place as a timer does.
#[derive(Clone, Copy)]
pub struct Wake {
    place: WakePlace,
    ghost numbered: { (1 ≤ place.task) × (place.task ≤ 127) },
    ghost factored: { place.factor ≤ 16 },
}

pub mod beat;
