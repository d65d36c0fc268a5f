//! The ranges of what a call is handed.

ghost use Rattle.std.specs.Prelude.{◌≡◌};
ghost use Rattle.rules.specs.Fields.{task_field, factor_field, wait_field, in_range};

use crate::call::Macro;
use numbers::{Factor, Level};

// Whether a task field is 1 to 128. 128 is in range, and no task.
pub fn is_task_field(task: u8) -> bool
    ensures { result ≡ task_field task }
{
    (1..=128).contains(&task)
}

fn is_factor(factor: u8) -> bool
    ensures { result ≡ factor_field factor }
{
    Factor::new(factor).is_some()
}

fn is_wait(t: u32) -> bool
    ensures { result ≡ wait_field t }
{
    (1..=86_400_000).contains(&t)
}

impl Macro {
    // Whether every field is in its range.
    pub fn is_in_range(self) -> bool
        ensures { result ≡ in_range self }
    {
        match self {
            Macro::Rleas { task }
            | Macro::Abort { task }
            | Macro::Susp { task }
            | Macro::Rsum { task } => is_task_field(task),
            Macro::Queue { task, factor }
            | Macro::Ctime { task, factor }
            | Macro::Sfact { task, factor }
            | Macro::Cwake { task, factor } => is_task_field(task) && is_factor(factor),
            Macro::Delay { t } => is_wait(t),
            Macro::Timer {
                task,
                t,
                cycle,
                factor,
            } => { is_task_field(task) && is_wait(t) && cycle <= 86_400_000 && is_factor(factor) }
            Macro::Chap { task, level } => is_task_field(task) && Level::new(level).is_some(),
            Macro::Wake {
                task,
                factor,
                second,
                cycle,
            } => { is_task_field(task) && is_factor(factor) && second < 86_400 && cycle <= 86_400 }
            Macro::Stime { second } => second < 86_400,
            Macro::Gfact | Macro::Exit => true,
        }
    }
}
