ghost use Rattle.std.specs.Prelude.{◌≡◌, ℕ, ◌≤◌, Bool, true, false, Option, MatchOption};
ghost use Rattle.table.specs.Rows.{placed};
ghost use Rattle.table.specs.Timers.{place_of, standing, no_timer, timer_after, timer_fires, delay_place, timer_place, with_wait, timer_selected};
ghost use Rattle.std.proofs.Common.{rules, arith};

use crate::entry::{Beaten, TableEntry};
use crate::firing::Firing;
use crate::selection::Selection;
use crate::timer::{Timer, TimerPlace};
use numbers::{Factor, Task};

impl Timer {
    // The delay of a task for `wait` milliseconds.
    pub fn delay(task: Task, wait: u32) -> Timer
        ensures { place_of result ≡ delay_place task wait }
    {
        Timer {
            place: TimerPlace {
                delay: true,
                task: task.get(),
                factor: 0,
                wait,
                cycle: 0,
            },
        }
    }

    // A timer of a task and a factor.
    pub fn timer(task: Task, factor: Factor, wait: u32, cycle: u32) -> Timer
        ensures { place_of result ≡ timer_place task factor wait cycle }
    {
        Timer {
            place: TimerPlace {
                delay: false,
                task: task.get(),
                factor: factor.get(),
                wait,
                cycle,
            },
        }
    }

    // The same entry, with so many beats to wait.
    fn waiting(self, wait: u32) -> Timer
        ensures { place_of result ≡ with_wait (place_of self) wait }
    {
        Timer {
            place: TimerPlace { wait, ..self.place },
        }
    }
}

impl TableEntry for Timer {
    type Place = TimerPlace;

    type Beat = ();

    const PLACES: usize = 64;

    ghost live = { standing };

    ghost place = { place_of };

    ghost vacant = { no_timer };

    ghost after = { λ _ p. timer_after p };

    ghost fires = { λ _ p. timer_fires p };

    ghost chosen = { timer_selected };

    ghost freed = { first_of (Prim.search rules, Prim.grind (arith, Self.row.coded.inj)) };

    ghost stands = { first_of (Prim.search rules, Prim.grind (arith, Self.row.coded.inj)) };

    fn free() -> TimerPlace {
        TimerPlace {
            delay: false,
            task: 0,
            factor: 0,
            wait: 0,
            cycle: 0,
        }
    }

    fn from_place(place: TimerPlace) -> Option<Timer> {
        Task::new(place.task)?;
        Factor::new(place.factor)?;
        Some(Timer { place })
    }

    fn to_place(self) -> TimerPlace {
        self.place
    }

    fn beaten(self, _beat: ()) -> Beaten<Timer> {
        let TimerPlace {
            delay,
            task,
            factor,
            wait,
            cycle,
        } = self.place;
        if wait > 1 {
            let left = Some(self.waiting(wait - 1));
            return Beaten { left, firing: None };
        }
        let task = Task::within(task);
        if delay {
            let firing = Some(Firing::Rouse { task });
            return Beaten { left: None, firing };
        }
        let factor = Factor::within(factor);
        let left = (cycle > 0).then_some(self.waiting(cycle));
        let firing = Some(Firing::Start { task, factor });
        Beaten { left, firing }
    }

    fn is_selected(self, by: Selection) -> bool {
        let TimerPlace {
            delay,
            task,
            factor,
            ..
        } = self.place;
        let own = if delay {
            Selection::Delay { task }
        } else {
            Selection::Set { task, factor }
        };
        by == own
    }
}
