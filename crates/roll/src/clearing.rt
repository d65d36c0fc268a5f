// Emptying any roll through its own functions.
ghost use Rattle.std.specs.Prelude.{◌≡◌};
ghost use Rattle.roll.specs.Model.{empty};

use crate::Roll;

// Takes every entry and every hold away.
pub fn clear_all<R: Roll>(roll: &mut R)
    ensures { R.Roll.meaning roll.new ≡ empty }
{
    for task in 1..=127 {
        let _ = roll.clear(task);
        let _ = roll.unhold(task);
    }
}
