// Renumbering a row of slots.
ghost use Rattle.std.specs.Prelude.{◌≡◌, length};
ghost use Rattle.stamped.specs.Numbers.{stamps_in, renumbered};

use super::Renumbering;
use crate::slot::Slot;

// Gives all stamps anew, in order, and changes nothing else. Answers how many there are.
pub(crate) fn renumber(slots: &mut [Slot]) -> u32
    requires { length slots.old ≡ 128 }
    ensures stamps { slots.new ≡ renumbered slots.old }
    ensures count { result ≡ length (stamps_in slots.old) }
{
    let mut numbers = Renumbering::new();
    for slot in slots.iter() {
        slot.note(&mut numbers);
    }
    for slot in slots.iter_mut() {
        *slot = slot.renumbered(&numbers);
    }
    numbers.count()
}
