#![tactic(auto)]

// The roll: the queue of the starts that wait for the processor.
ghost use Rattle.std.specs.Prelude.{◌≡◌, Bool, false};
ghost use Rattle.roll.specs.Tables.{none};
ghost use Rattle.roll.specs.Model.{Model, Sound, verdict, may_add, after_add, after_end, after_clear, after_sleep, after_rouse, may_level, after_level, first_in, count_in, has_in, may_hold, after_hold, may_unhold, after_unhold};

mod clearing;
mod entry;
mod ranges;

pub use clearing::clear_all;
pub use entry::{Entry, Refused};
pub use ranges::{in_range, is_level, is_task, verdict};

// A roll is anything that keeps a list of entries, oldest first, and a set of held tasks, and
// answers as below. A lever is what a roll needs to hold tasks; without one nobody is held.
pub trait Roll {
    ghost meaning: { Self → Model };

    // Whether there is a lever: for code, and under the same name for clauses.
    const LEVER: bool;

    ghost LEVER: { Bool };

    // Puts an awake entry at the end. Refused where the task has two.
    fn add(&mut self, task: u8, level: u8) -> Result<(), Refused>
        ensures answer { result ≡ verdict (may_add task level (meaning self.old)) }
        ensures after { meaning self.new ≡ after_add task level (meaning self.old) };

    // Takes the task's oldest entry away. Refused where there is none.
    fn end(&mut self, task: u8) -> Result<(), Refused>
        ensures answer { result ≡ verdict (has_in task (meaning self.old)) }
        ensures after { meaning self.new ≡ after_end task (meaning self.old) };

    // Takes all entries of the task away, and says how many there were. No task has more than two.
    fn clear(&mut self, task: u8) -> u8
        ensures answer { result ≡ count_in task (meaning self.old) }
        ensures after { meaning self.new ≡ after_clear task (meaning self.old) }
    {
        let older = u8::from(self.end(task).is_ok());
        let younger = u8::from(self.end(task).is_ok());
        older + younger
    }

    // Marks the task's oldest entry asleep. Refused where there is none.
    fn sleep(&mut self, task: u8) -> Result<(), Refused>
        ensures answer { result ≡ verdict (has_in task (meaning self.old)) }
        ensures after { meaning self.new ≡ after_sleep task (meaning self.old) };

    // Marks the task's oldest entry awake. Refused where there is none.
    fn rouse(&mut self, task: u8) -> Result<(), Refused>
        ensures answer { result ≡ verdict (has_in task (meaning self.old)) }
        ensures after { meaning self.new ≡ after_rouse task (meaning self.old) };

    // Sets the level of all entries of the task.
    fn set_level(&mut self, task: u8, level: u8) -> Result<(), Refused>
        ensures answer { result ≡ verdict (may_level task level) }
        ensures after { meaning self.new ≡ after_level task level (meaning self.old) };

    // The task with the processor. A roll may change itself on the way, and is as it was in the end.
    fn first(&mut self) -> Option<u8>
        ensures answer { result ≡ first_in (meaning self.old) }
        ensures after { meaning self.new ≡ meaning self.old };

    // How many entries the task has.
    fn count(&self, task: u8) -> u8
        ensures { result ≡ count_in task (meaning self.now) };

    // Holds the task. Refused where it is held, or where there is no lever.
    fn hold(&mut self, task: u8) -> Result<(), Refused>
        ensures answer { result ≡ verdict (may_hold LEVER task (meaning self.old)) }
        ensures after { meaning self.new ≡ after_hold LEVER task (meaning self.old) };

    // Ends the hold of the task. Refused where it is not held, or where there is no lever.
    fn unhold(&mut self, task: u8) -> Result<(), Refused>
        ensures answer { result ≡ verdict (may_unhold LEVER task (meaning self.old)) }
        ensures after { meaning self.new ≡ after_unhold LEVER task (meaning self.old) };

    ghost sound: { (s : Self) → Sound (meaning s) };

    ghost free: { (s : Self) → LEVER ≡ false → (meaning s).held ≡ none };
}
