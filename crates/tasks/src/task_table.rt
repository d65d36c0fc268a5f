//! The table of the tasks: their modes, present levels and factors, beside the roll of their starts.

ghost use Rattle.std.specs.Prelude.{◌≡◌, false};
ghost use Rattle.roll.specs.Tables.{none};
ghost use Rattle.tasks.specs.Factors.{members};

use crate::factor_set::FactorSet;
use numbers::Level;

pub struct TaskTable<R> {
    roll: R,
    records: [TaskRecord; 128],
}

// What the table keeps of a task beside its starts.
#[derive(Clone, Copy)]
struct TaskRecord {
    released: bool,
    level: Level,
    factors: FactorSet,
}

impl TaskRecord {
    // A dormant task at this level, with no factor.
    fn dormant(level: Level) -> TaskRecord
        ensures mode { result.released ≡ false }
        ensures level { result.level ≡ level }
        ensures factors { members result.factors ≡ none }
    {
        TaskRecord {
            released: false,
            level,
            factors: FactorSet::new(),
        }
    }
}

pub mod changes;
pub mod looks;
pub mod power;
pub mod starts;
