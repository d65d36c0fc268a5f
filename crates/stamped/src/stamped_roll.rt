ghost use Rattle.std.specs.Prelude.{◌≡◌, ℕ, ◌≤◌, true, length, slice_index_or};
ghost use Rattle.stamped.specs.declared.slot.Slot.TheVariants.{Empty};
ghost use Rattle.stamped.specs.Slots.{of_slots, good?};

use crate::slot::Slot;

// A roll without a lever. The slot at a place is that of the task of that number. No two starts
// have the same stamp, and all stamps are below `next`, which a new start gets.
#[derive(Clone, Copy)]
pub struct Stamped {
    slots: [Slot; 128],
    next: u32,
    ghost whole: { length slots ≡ 128 },
    ghost room: { next ≤ 65536 },
    ghost apart: { ((k : ℕ) → length (of_slots k 0 slots) ≤ 1) },
    ghost good: { ((t : ℕ) → good? next t (slice_index_or slots t Empty) ≡ true) },
}

pub mod methods;
