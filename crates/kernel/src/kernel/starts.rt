//! The calls that begin and finish starts, once their common checks are passed.

ghost use Rattle.std.specs.Prelude.{Ok};
ghost use Rattle.rules.specs.declared.call.Macro.TheVariants.{Abort as AbortOf, Exit as ExitOf};
ghost use Rattle.kernel.specs.Views.{seen};
ghost use Rattle.kernel.specs.Obeys.{Begins, Obeys};

use crate::effect::Effect;
use crate::kernel::Kernel;
use numbers::{Factor, Task};
use roll::Roll;
use rules::{Answer, Code, LEAST_SHEET};
use sheet::{Event, Kind, tell};

impl<R: Roll> Kernel<R> {
    // A start is asked for, with a factor or without. One too many is told as missed.
    pub(crate) fn begin(
        &mut self,
        task: u8,
        factor: Option<Factor>,
        sheet: &mut [Event; LEAST_SHEET],
    ) -> Result<Effect, Answer>
        ensures { Begins (seen R.Roll.meaning R.Roll.LEVER self.old) task factor sheet.old (seen R.Roll.meaning R.Roll.LEVER self.new) result sheet.new }
    {
        let number = self.released(task)?;
        if !self.tasks.has_room(task) {
            let kind = Kind::Missed;
            tell(sheet, Event { kind, task });
            return Err(Answer {
                told: 1,
                ..Answer::silent(Code::TwoStarts)
            });
        }
        self.tasks.accept_with(number, factor);
        let kind = Kind::Accepted;
        tell(sheet, Event { kind, task });
        Ok(Effect::telling(1))
    }

    // All starts of a task are cut, if it is registered.
    pub(crate) fn obey_abort(
        &mut self,
        task: u8,
        issuer: Task,
        sheet: &mut [Event; LEAST_SHEET],
    ) -> Result<Effect, Answer>
        ensures { Obeys (seen R.Roll.meaning R.Roll.LEVER self.old) issuer (AbortOf task) sheet.old (seen R.Roll.meaning R.Roll.LEVER self.new) result sheet.new }
    {
        let Ok(number) = self.setup.registered(task) else {
            return Ok(Effect::quiet());
        };
        let told = self.cut(number, sheet);
        Ok(Effect {
            over: task == issuer.get(),
            ..Effect::telling(told)
        })
    }

    // The issuer's current start is ended.
    pub(crate) fn obey_exit(&mut self, issuer: Task, sheet: &mut [Event; LEAST_SHEET]) -> Effect
        ensures { Obeys (seen R.Roll.meaning R.Roll.LEVER self.old) issuer ExitOf sheet.old (seen R.Roll.meaning R.Roll.LEVER self.new) (Ok result) sheet.new }
    {
        let task = issuer.get();
        self.tasks.finish(task);
        let kind = Kind::Ended;
        tell(sheet, Event { kind, task });
        Effect {
            over: true,
            ..Effect::telling(1)
        }
    }
}
