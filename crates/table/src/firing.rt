//! What an entry asks for when its time has come, and what it acts on.

ghost use Rattle.std.specs.Prelude.{◌≡◌};
ghost use Rattle.sheet.specs.declared.event.Event.{Event};
ghost use Rattle.table.specs.declared.firing.Firing.{Firing};

use numbers::{Factor, Task};
use sheet::Event;

// It names a task and a factor in range by their types, so that nobody tests them again.
#[derive(Clone, Copy)]
pub enum Firing {
    // A start of the task, with a factor.
    Start { task: Task, factor: Factor },
    // The task's delay is over.
    Rouse { task: Task },
}

// What firings act on. It is known by a model of it: `seen` is the model of a value, `fired` the model after a firing,
// `tells` the one event that the firing is told by.
pub trait Target {
    ghost Model: { Type 0 };

    ghost seen: { Self → Model };

    ghost fired: { Model → Firing → Model };

    ghost tells: { Model → Firing → Event };

    fn fire(&mut self, firing: Firing) -> Event
        ensures state { seen self.new ≡ fired (seen self.old) firing }
        ensures event { result ≡ tells (seen self.old) firing };
}
