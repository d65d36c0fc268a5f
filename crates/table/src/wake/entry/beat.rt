ghost use Rattle.std.specs.Prelude.{◌≡◌, ℕ, ◌≤◌, Bool, true, false, Some, Option, MatchOption};
ghost use Rattle.table.specs.Rows.{placed};
ghost use Rattle.table.specs.Wakes.{wake_place_of, wake_stands, no_wake, rings, rang, wake_after, wake_fires, wake_selected, waits_for};
ghost use Rattle.std.proofs.Common.{rules, arith};

use crate::entry::{Beaten, TableEntry};
use crate::firing::Firing;
use crate::selection::Selection;
use crate::wake::{Phase, Wake, WakePlace};
use numbers::{Factor, Task};

impl Wake {
    // A wake that waits for a second of the day.
    pub fn waiting(task: Task, factor: Factor, second: u32, cycle: u32) -> Wake
        ensures { wake_place_of result ≡ waits_for task factor second cycle }
    {
        Wake {
            place: WakePlace {
                task: task.get(),
                factor: factor.get(),
                second,
                cycle,
                phase: Phase::Waits,
            },
        }
    }

    // Whether it fires at a beat with this time of day.
    fn rings(self, second: u32) -> bool
        ensures { result ≡ rings second (wake_place_of self) }
    {
        match self.place.phase {
            Phase::Waits => self.place.second == second,
            Phase::Counts { left } => left <= 1,
            Phase::Spent => false,
        }
    }

    // The phase after a beat with this time of day.
    fn next_phase(self, second: u32) -> Phase
        ensures { result ≡ rang second (wake_place_of self) }
    {
        let WakePlace { cycle, phase, .. } = self.place;
        let rings = self.rings(second);
        match phase {
            _ if rings && cycle == 0 => Phase::Spent,
            _ if rings => Phase::Counts { left: cycle },
            Phase::Counts { left } => Phase::Counts { left: left - 1 },
            Phase::Waits | Phase::Spent => phase,
        }
    }
}

impl TableEntry for Wake {
    type Place = WakePlace;

    // The time of day just reached.
    type Beat = u32;

    const PLACES: usize = 32;

    ghost live = { wake_stands };

    ghost place = { wake_place_of };

    ghost vacant = { no_wake };

    ghost after = { wake_after };

    ghost fires = { wake_fires };

    ghost chosen = { wake_selected };

    ghost freed = { first_of (Prim.search rules, Prim.grind (arith, Self.row.coded.inj)) };

    ghost stands = { first_of (Prim.search rules, Prim.grind (arith, Self.row.coded.inj)) };

    fn free() -> WakePlace {
        WakePlace {
            task: 0,
            factor: 0,
            second: 0,
            cycle: 0,
            phase: Phase::Waits,
        }
    }

    fn from_place(place: WakePlace) -> Option<Wake> {
        Task::new(place.task)?;
        Factor::new(place.factor)?;
        Some(Wake { place })
    }

    fn to_place(self) -> WakePlace {
        self.place
    }

    fn beaten(self, beat: u32) -> Beaten<Wake> {
        let phase = self.next_phase(beat);
        let left = Some(Wake {
            place: WakePlace {
                phase,
                ..self.place
            },
        });
        let task = Task::within(self.place.task);
        let factor = Factor::within(self.place.factor);
        let firing = self.rings(beat).then_some(Firing::Start { task, factor });
        Beaten { left, firing }
    }

    fn is_selected(self, by: Selection) -> bool {
        let WakePlace { task, factor, .. } = self.place;
        by == Selection::Set { task, factor }
    }
}
