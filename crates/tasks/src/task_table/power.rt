//! The table as power-up makes it.

ghost use Rattle.std.specs.Prelude.{◌≡◌, length, slice_index};
ghost use Rattle.rules.specs.Starts.{started_tasks};
ghost use Rattle.tasks.specs.Views.{view};

use crate::task_table::{TaskRecord, TaskTable};
use numbers::Level;
use roll::{Roll, clear_all};

impl<R: Roll> TaskTable<R> {
    // Over an emptied roll, every task dormant but task 1, which is released and has one start. The levels are those
    // that the station read from its book.
    pub fn powered(mut roll: R, levels: [Level; 128]) -> TaskTable<R>
        ensures { view R.Roll.meaning result ≡ started_tasks (λ t. slice_index levels t) }
    {
        clear_all(&mut roll);
        let _ = roll.add(1, levels[1].get());
        let mut records = levels.map(TaskRecord::dormant);
        records[1].released = true;
        TaskTable { roll, records }
    }

    // Lets the table go; answers how many starts stood on its roll.
    pub fn stop(self) -> u8
    where
        R: Drop,
        ensures { result ≡ length (view R.Roll.meaning self).roll.entries }
    {
        let total = self.total();
        let TaskTable {
            roll: _,
            records: _,
        } = self;
        total
    }
}
