//! What is read off the table.

ghost use Rattle.std.specs.Prelude.{◌≡◌, ◌<◌, ◌≤◌, length, IfSome};
ghost use Rattle.roll.specs.Model.{first_in};
ghost use Rattle.sheet.specs.Sheets.{written};
ghost use Rattle.rules.specs.State.{numbered, running};
ghost use Rattle.rules.specs.Starts.{room_for};
ghost use Rattle.rules.specs.Refusals.{turn};
ghost use Rattle.tasks.specs.Views.{view};

use crate::task_table::TaskTable;
use numbers::{Bounded, Task};
use roll::Roll;
use sheet::{Event, Kind, tell};

impl<R: Roll> TaskTable<R> {
    // The task with the processor, if there is one.
    pub fn first(&mut self) -> Option<Task>
        ensures answer { result ≡ first_in (view R.Roll.meaning self.old).roll }
        ensures same { view R.Roll.meaning self.new ≡ view R.Roll.meaning self.old }
        ensures within { IfSome result (λ t. (1 ≤ t) × (t ≤ 127)) }
    {
        self.roll.first().map(Task::within)
    }

    // The task with the processor; 0 means that it is idle.
    pub fn running(&mut self) -> u8
        ensures answer { result ≡ running (view R.Roll.meaning self.old) }
        ensures same { view R.Roll.meaning self.new ≡ view R.Roll.meaning self.old }
        ensures within { result ≤ 127 }
    {
        told_of(self.first())
    }

    // Whether one start more would be accepted.
    pub fn has_room(&self, task: u8) -> bool
        ensures { result ≡ room_for (view R.Roll.meaning self.now) task }
    {
        self.roll.count(task) < 2
    }

    // Whether a task is released; a number above 127 is no task.
    pub fn is_released(&self, task: u8) -> bool
        ensures { result ≡ (view R.Roll.meaning self.now).released task }
    {
        self.records
            .get(task as usize)
            .is_some_and(|record| record.released)
    }

    // How many starts stand on the roll: at most two for each of 127 tasks.
    pub fn total(&self) -> u8
        ensures { result ≡ length (view R.Roll.meaning self.now).roll.entries }
    {
        (1..128).map(|task| self.roll.count(task)).sum()
    }

    // Tells at the front of the sheet who has the processor now, if another task had it before or the start that had it
    // is over; answers how many events that were. `was` may be of any range, since it is only compared.
    // A count, as of all that tells events, so that callers add it.
    pub fn tell_turn<const LOW: u8, const HIGH: u8>(
        &mut self,
        was: Option<Bounded<LOW, HIGH>>,
        over: bool,
        sheet: &mut [Event],
    ) -> usize
        requires { 0 < length sheet.old }
        ensures same { view R.Roll.meaning self.new ≡ view R.Roll.meaning self.old }
        ensures count { result ≡ length (turn (numbered was.entry) over (running (view R.Roll.meaning self.old))) }
        ensures sheet { sheet.new ≡ written (turn (numbered was.entry) over (running (view R.Roll.meaning self.old))) sheet.old }
    {
        let task = self.running();
        if told_of(was) == task && !over {
            return 0;
        }
        tell(
            sheet,
            Event {
                kind: Kind::Runs,
                task,
            },
        );
        1
    }
}

// The number by which an event tells of a task with the processor: the rules tell of an idle processor as task 0.
fn told_of<const LOW: u8, const HIGH: u8>(task: Option<Bounded<LOW, HIGH>>) -> u8
    ensures { result ≡ numbered task.entry }
{
    task.map_or(0, Bounded::get)
}
