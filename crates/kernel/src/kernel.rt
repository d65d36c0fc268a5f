//! All that a station keeps: what its book says of the tasks, the tasks with their starts, both tables and the clock.

ghost use Rattle.std.specs.Prelude.{◌≡◌, length};

use crate::setup::Setup;
use table::clock::Clock;
use table::entry::TableEntry;
use table::timer::{Timer, TimerPlace};
use table::wake::{Wake, WakePlace};
use tasks::TaskTable;

pub struct Kernel<R> {
    setup: Setup,
    tasks: TaskTable<R>,
    timers: [TimerPlace; Timer::PLACES],
    wakes: [WakePlace; Wake::PLACES],
    clock: Clock,
    ghost sized: { (length timers ≡ 64) × (length wakes ≡ 32) },
}

mod dispatch;
mod effects;
mod modes;
mod power;
mod processor;
mod settling;
mod starts;
mod timing;
