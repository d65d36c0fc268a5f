// The tests that every roll makes of what it is handed, and the form of its answers.
ghost use Rattle.std.specs.Prelude.{◌≡◌};
ghost use Rattle.roll.specs.Ranges.{task?, level?};
ghost use Rattle.roll.specs.Model.{may_level, verdict as verdict_of};

use crate::entry::Refused;

// A roll is handed any number and refuses those out of range, so that it needs no type for tasks and levels.

// Whether the number is a task's.
pub fn is_task(number: u8) -> bool
    ensures { result ≡ task? number }
{
    (1..=127).contains(&number)
}

// Whether the number is a level's.
pub fn is_level(number: u8) -> bool
    ensures { result ≡ level? number }
{
    number < 5
}

// The answer of a function that did what it was asked, or did nothing.
pub fn verdict(done: bool) -> Result<(), Refused>
    ensures { result ≡ verdict_of done }
{
    done.then_some(()).ok_or(Refused)
}

// Refused where the task or the level is out of range.
pub fn in_range(task: u8, level: u8) -> Result<(), Refused>
    ensures { result ≡ verdict_of (may_level task level) }
{
    verdict(is_task(task) && is_level(level))
}
