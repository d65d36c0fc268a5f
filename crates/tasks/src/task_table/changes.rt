//! What a macro changes of a task beside its starts: mode, level, hold and factors.

ghost use Rattle.std.specs.Prelude.{◌≡◌, true, not, if◌then◌else◌, is_ok};
ghost use Rattle.roll.specs.Model.{verdict};
ghost use Rattle.rules.specs.Effects.{releasing, levelling, holding, without, smallest_of};
ghost use Rattle.tasks.specs.Views.{view};

use crate::task_table::TaskTable;
use numbers::{Bounded, Factor, Level, Task};
use roll::{Refused, Roll};

impl<R: Roll> TaskTable<R> {
    // The task is released. Of any LOW, since a record stands for number 0 too.
    pub fn release<const LOW: u8>(&mut self, task: Bounded<LOW, 127>)
        ensures { view R.Roll.meaning self.new ≡ releasing (view R.Roll.meaning self.old) task.entry }
    {
        self.records[task.get() as usize].released = true;
    }

    // The present level of the task changes, also for the starts that stand.
    pub fn set_level(&mut self, task: Task, level: Level)
        ensures { view R.Roll.meaning self.new ≡ levelling (view R.Roll.meaning self.old) task level }
    {
        let number = task.get();
        let _ = self.roll.set_level(number, level.get());
        self.records[number as usize].level = level;
    }

    // The task is held, or its hold ends; refused, with nothing changed, where that is so already.
    pub fn set_hold(&mut self, task: Task, held: bool) -> Result<(), Refused>
        requires { R.Roll.LEVER ≡ true }
        ensures answer { result ≡ verdict (if held then not ((view R.Roll.meaning self.old).roll.held task) else (view R.Roll.meaning self.old).roll.held task) }
        ensures state { view R.Roll.meaning self.new ≡ (if is_ok result then holding (view R.Roll.meaning self.old) task held else view R.Roll.meaning self.old) }
    {
        if held {
            self.roll.hold(task.get())
        } else {
            self.roll.unhold(task.get())
        }
    }

    // Whether the factor of the task is set. Of any LOW, since a record stands for number 0 too.
    pub fn has_factor<const LOW: u8>(&self, task: Bounded<LOW, 127>, factor: Factor) -> bool
        ensures { result ≡ (view R.Roll.meaning self.now).factors task.entry factor }
    {
        self.records[task.get() as usize].factors.has(factor)
    }

    // Takes the smallest factor of the task that is set, and answers it.
    // Of any LOW, since a record stands for number 0 too.
    pub fn take_factor<const LOW: u8>(&mut self, task: Bounded<LOW, 127>) -> Option<Factor>
        ensures answer { result ≡ smallest_of (view R.Roll.meaning self.old) task.entry }
        ensures state { view R.Roll.meaning self.new ≡ without (view R.Roll.meaning self.old) task.entry result }
    {
        let factors = &mut self.records[task.get() as usize].factors;
        let smallest = factors.smallest();
        if let Some(factor) = smallest {
            factors.remove(factor);
        }
        smallest
    }
}
