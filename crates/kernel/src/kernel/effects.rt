//! The parts of which several calls are made: a cut, and the beats of a tick.

ghost use Rattle.std.specs.Prelude.{◌≡◌, ◌≤◌, length};
ghost use Rattle.sheet.specs.Sheets.{written};
ghost use Rattle.rules.specs.Starts.{cut_events};
ghost use Rattle.rules.specs.Tables.{ticked, tick_events};
ghost use Rattle.rules.specs.Effects.{cutting};
ghost use Rattle.kernel.specs.Views.{seen};

use crate::kernel::Kernel;
use numbers::Task;
use roll::Roll;
use rules::LEAST_SHEET;
use sheet::{Event, Kind, tell_times};
use table::row;
use table::selection::Selection;
use table::timer::Timer;
use table::wake::Wake;
use tasks::TaskTable;

impl<R: Roll> Kernel<R> {
    // Cuts all starts of a task, and its delay goes; one event each stands at the front of the sheet then. Answers how
    // many there were.
    pub(crate) fn cut(&mut self, task: Task, sheet: &mut [Event; LEAST_SHEET]) -> usize
        ensures setup { (seen R.Roll.meaning R.Roll.LEVER self.new).setup ≡ (seen R.Roll.meaning R.Roll.LEVER self.old).setup }
        ensures state { (seen R.Roll.meaning R.Roll.LEVER self.new).state ≡ (cutting (seen R.Roll.meaning R.Roll.LEVER self.old).setup (seen R.Roll.meaning R.Roll.LEVER self.old).state task task).state }
        ensures count { result ≡ length (cut_events (seen R.Roll.meaning R.Roll.LEVER self.old).state.tasks task) }
        ensures bound { result ≤ 2 }
        ensures sheet { sheet.new ≡ written (cut_events (seen R.Roll.meaning R.Roll.LEVER self.old).state.tasks task) sheet.old }
    {
        let number = task.get();
        let level = self.setup.level(task);
        let count = self.tasks.strip(task, level) as usize;
        let _ = row::remove::<Timer>(&mut self.timers, Selection::Delay { task: number });
        let event = Event {
            kind: Kind::Cut,
            task: number,
        };
        tell_times(sheet, event, count);
        count
    }

    // One millisecond passes: the timers are beaten, and then, on a full second, the wakes, whose events stand behind
    // those of the timers. Answers how many events were told.
    pub(crate) fn beat(&mut self, sheet: &mut [Event; LEAST_SHEET]) -> usize
        ensures setup { (seen R.Roll.meaning R.Roll.LEVER self.new).setup ≡ (seen R.Roll.meaning R.Roll.LEVER self.old).setup }
        ensures state { (seen R.Roll.meaning R.Roll.LEVER self.new).state ≡ ticked (seen R.Roll.meaning R.Roll.LEVER self.old).state }
        ensures count { result ≡ length (tick_events (seen R.Roll.meaning R.Roll.LEVER self.old).state) }
        ensures bound { result ≤ 96 }
        ensures sheet { sheet.new ≡ written (tick_events (seen R.Roll.meaning R.Roll.LEVER self.old).state) sheet.old }
    {
        let second = self.clock.advance();
        let told = row::beat::<Timer, TaskTable<R>>(&mut self.timers, (), &mut self.tasks, sheet);
        let Some(second) = second else {
            return told;
        };
        told + row::beat::<Wake, TaskTable<R>>(
            &mut self.wakes,
            second,
            &mut self.tasks,
            &mut sheet[told..],
        )
    }
}
