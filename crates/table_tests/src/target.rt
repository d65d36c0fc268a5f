//! A target that knows the task that was fired last, and misses a start of the same task.

ghost use Rattle.std.specs.Prelude.{ℕ};
ghost use Rattle.table_tests.specs.Lasts.{task_of, told_of};

use sheet::{Event, Kind};
use table::firing::{Firing, Target};

#[derive(Drop)]
pub struct Last {
    pub task: u8,
}

impl Target for Last {
    ghost Model = { ℕ };

    ghost seen = { λ l. l.task };

    ghost fired = { λ _ f. task_of f };

    ghost tells = { told_of };

    fn fire(&mut self, firing: Firing) -> Event {
        let (Firing::Start { task, .. } | Firing::Rouse { task }) = firing;
        let task = task.get();
        let kind = match firing {
            Firing::Start { .. } if task == self.task => Kind::Missed,
            Firing::Start { .. } => Kind::Accepted,
            Firing::Rouse { .. } => Kind::Wakened,
        };
        self.task = task;
        Event { kind, task }
    }
}
