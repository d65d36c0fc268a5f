//! The life of a start: accepted, put to sleep, roused, ended, cut. The calls have tested room by the time they come
//! here, so it is asked of them and proved by each.

ghost use Rattle.std.specs.Prelude.{◌≡◌, ◌≤◌, true, if◌then◌else◌};
ghost use Rattle.sheet.specs.declared.event.Kind.TheVariants.{Accepted, Missed};
ghost use Rattle.roll.specs.Model.{count_in};
ghost use Rattle.rules.specs.State.{Tasks};
ghost use Rattle.rules.specs.Starts.{room_for, accepted, accepted_with, factored, finished, slept, stripped, takes, fired, tells};
ghost use Rattle.tasks.specs.Views.{view};

use crate::task_table::{TaskRecord, TaskTable};
use numbers::{Bounded, Factor, Level, Task};
use roll::Roll;
use sheet::{Event, Kind};
use table::firing::{Firing, Target};

impl<R: Roll> TaskTable<R> {
    // A start of the task is accepted at its present level.
    fn accept(&mut self, task: Task)
        requires { room_for (view R.Roll.meaning self.old) task ≡ true }
        ensures { view R.Roll.meaning self.new ≡ accepted (view R.Roll.meaning self.old) task }
    {
        let number = task.get();
        let level = self.records[number as usize].level;
        let _ = self.roll.add(number, level.get());
    }

    // A start of the task is accepted, and the factor that it brings, if any, is set.
    pub fn accept_with(&mut self, task: Task, factor: Option<Factor>)
        requires { room_for (view R.Roll.meaning self.old) task ≡ true }
        ensures { view R.Roll.meaning self.new ≡ accepted_with (view R.Roll.meaning self.old) task factor }
    {
        self.accept(task);
        if let Some(factor) = factor {
            self.set_factor(task, factor);
        }
    }

    // A start of the task is accepted with its factor, or missed where the task is dormant or has two.
    fn start(&mut self, task: Task, factor: Factor) -> Kind
        ensures state { view R.Roll.meaning self.new ≡ (if takes (view R.Roll.meaning self.old) task then factored (accepted (view R.Roll.meaning self.old) task) task factor else view R.Roll.meaning self.old) }
        ensures kind { result ≡ (if takes (view R.Roll.meaning self.old) task then Accepted else Missed) }
    {
        if self.is_released(task.get()) && self.has_room(task.get()) {
            self.accept_with(task, Some(factor));
            Kind::Accepted
        } else {
            Kind::Missed
        }
    }

    // A factor of the task is set. Of any LOW, since a record stands for number 0 too.
    pub fn set_factor<const LOW: u8>(&mut self, task: Bounded<LOW, 127>, factor: Factor)
        ensures { view R.Roll.meaning self.new ≡ factored (view R.Roll.meaning self.old) task.entry factor }
    {
        self.records[task.get() as usize].factors.insert(factor);
    }

    // The current start of the task sleeps. Of any number, as a roll's.
    pub fn sleep(&mut self, task: u8)
        ensures { view R.Roll.meaning self.new ≡ slept (view R.Roll.meaning self.old) task }
    {
        let _ = self.roll.sleep(task);
    }

    // The current start of the task is ended. Of any number, as a roll's.
    pub fn finish(&mut self, task: u8)
        ensures { view R.Roll.meaning self.new ≡ finished (view R.Roll.meaning self.old) task }
    {
        let _ = self.roll.end(task);
    }

    // All starts of the task are cut, and it is dormant, with no factor, no hold and its written level; answers how
    // many starts there were.
    pub fn strip(&mut self, task: Task, written: Level) -> u8
        ensures count { result ≡ count_in task (view R.Roll.meaning self.old).roll }
        ensures bound { result ≤ 2 }
        ensures state { view R.Roll.meaning self.new ≡ stripped (view R.Roll.meaning self.old) task written }
    {
        let number = task.get();
        let count = self.roll.clear(number);
        let _ = self.roll.unhold(number);
        self.records[number as usize] = TaskRecord::dormant(written);
        count
    }
}

// A firing of a timer or a wake starts its task, as a queue does, but misses a dormant one; the end of a delay rouses.
impl<R: Roll> Target for TaskTable<R> {
    ghost Model = { Tasks };

    ghost seen = { view R.Roll.meaning };

    ghost fired = { fired };

    ghost tells = { tells };

    fn fire(&mut self, firing: Firing) -> Event {
        let (kind, task) = match firing {
            Firing::Start { task, factor } => (self.start(task, factor), task),
            Firing::Rouse { task } => {
                let _ = self.roll.rouse(task.get());
                (Kind::Wakened, task)
            }
        };
        Event {
            kind,
            task: task.get(),
        }
    }
}
