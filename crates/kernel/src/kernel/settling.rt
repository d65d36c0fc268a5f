//! How a call ends: who has the processor now is told, and the answer is given.

ghost use Rattle.std.specs.Prelude.{◌≡◌, ◌+◌, ◌<◌, List, ◌++◌, length};
ghost use Rattle.sheet.specs.declared.event.Event.{Event};
ghost use Rattle.sheet.specs.Sheets.{written};
ghost use Rattle.rules.specs.State.{numbered, running};
ghost use Rattle.rules.specs.Refusals.{turn};
ghost use Rattle.kernel.specs.Views.{seen};

use crate::effect::Effect;
use crate::kernel::Kernel;
use numbers::Task;
use roll::Roll;
use rules::{Answer, LEAST_SHEET};
use sheet::Event;

impl<R: Roll> Kernel<R> {
    // Behind the events that stand at the front of the sheet, `runs` is told if the processor has changed hands since
    // the task `was` had it, or if the start that had it is over.
    // The clause `long` repeats the sheet's type: who calls this last knows of the sheet what the clauses say.
    pub(crate) fn settle(
        &mut self,
        was: Option<Task>,
        effect: Effect,
        sheet: &mut [Event; LEAST_SHEET],
    ) -> Answer
        requires { effect.answer.told < length sheet.old }
        ensures same { seen R.Roll.meaning R.Roll.LEVER self.new ≡ seen R.Roll.meaning R.Roll.LEVER self.old }
        ensures answer { result ≡ record { code = effect.answer.code; told = effect.answer.told + length (turn (numbered was) effect.over (running (seen R.Roll.meaning R.Roll.LEVER self.old).state.tasks)); factor = effect.answer.factor } }
        ensures long { length sheet.new ≡ 100 }
        ensures sheet { (front given : List Event) → effect.answer.told ≡ length front → sheet.old ≡ written front given → sheet.new ≡ written (front ++ turn (numbered was) effect.over (running (seen R.Roll.meaning R.Roll.LEVER self.old).state.tasks)) given }
    {
        let Effect { answer, over, .. } = effect;
        let turn = self.tasks.tell_turn(was, over, &mut sheet[answer.told..]);
        Answer {
            told: answer.told + turn,
            ..answer
        }
    }
}
