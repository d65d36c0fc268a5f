//! From a call to what is done: the checks that are common to all, and then each macro's own.

ghost use Rattle.std.specs.Prelude.{◌≡◌, true};
ghost use Rattle.rules.specs.declared.answer.Code.TheVariants.{FieldRange as FieldRangeOf};
ghost use Rattle.rules.specs.declared.call.Call.TheVariants.{Macro as MacroOf};
ghost use Rattle.roll.specs.Model.{first_in};
ghost use Rattle.rules.specs.Fields.{in_range};
ghost use Rattle.rules.specs.Effects.{cutting};
ghost use Rattle.rules.specs.Calls.{Performed};
ghost use Rattle.kernel.specs.Views.{seen};
ghost use Rattle.kernel.specs.Obeys.{Did, Obeys, Works, coil_out_of_range};

use crate::effect::{Effect, check};
use crate::kernel::Kernel;
use numbers::{Factor, Level, Task};
use roll::Roll;
use rules::{Answer, Call, Code, LEAST_SHEET, Macro, is_task_field};
use sheet::Event;

impl<R: Roll> Kernel<R> {
    // A macro with a field out of range: the issuer's starts are cut, as by an abort.
    fn cut_issuer(&mut self, issuer: Task, sheet: &mut [Event; LEAST_SHEET]) -> Effect
        ensures { Did FieldRangeOf (cutting (seen R.Roll.meaning R.Roll.LEVER self.old).setup (seen R.Roll.meaning R.Roll.LEVER self.old).state issuer issuer) (seen R.Roll.meaning R.Roll.LEVER self.old) sheet.old (seen R.Roll.meaning R.Roll.LEVER self.new) result sheet.new }
    {
        let told = self.cut(issuer, sheet);
        Effect {
            answer: Answer {
                told,
                ..Answer::silent(Code::FieldRange)
            },
            over: true,
            turning: true,
        }
    }

    // What a macro in range does, or its own causes to turn it down.
    fn obey(
        &mut self,
        m: Macro,
        issuer: Task,
        sheet: &mut [Event; LEAST_SHEET],
    ) -> Result<Effect, Answer>
        requires fields { in_range m ≡ true }
        ensures { Obeys (seen R.Roll.meaning R.Roll.LEVER self.old) issuer m sheet.old (seen R.Roll.meaning R.Roll.LEVER self.new) result sheet.new }
    {
        match m {
            Macro::Rleas { task } => self.obey_rleas(task),
            Macro::Queue { task, factor } => self.begin(task, Some(Factor::within(factor)), sheet),
            Macro::Abort { task } => self.obey_abort(task, issuer, sheet),
            Macro::Delay { t } => self.obey_delay(t, issuer),
            Macro::Timer {
                task,
                t,
                cycle,
                factor,
            } => self.obey_timer(task, Factor::within(factor), t, cycle),
            Macro::Ctime { task, factor } => self.obey_ctime(task, factor),
            Macro::Chap { task, level } => self.obey_chap(task, Level::within(level)),
            Macro::Sfact { task, factor } => self.obey_sfact(task, Factor::within(factor)),
            Macro::Gfact => Ok(self.obey_gfact(issuer)),
            Macro::Susp { task } => self.obey_hold(task, true),
            Macro::Rsum { task } => self.obey_hold(task, false),
            Macro::Wake {
                task,
                factor,
                second,
                cycle,
            } => self.obey_wake(task, Factor::within(factor), second, cycle),
            Macro::Cwake { task, factor } => self.obey_cwake(task, factor),
            Macro::Stime { second } => Ok(self.obey_stime(second)),
            Macro::Exit => Ok(self.obey_exit(issuer, sheet)),
        }
    }

    // A macro of the task that has the processor, if one has it.
    fn issue(
        &mut self,
        m: Macro,
        was: Option<Task>,
        sheet: &mut [Event; LEAST_SHEET],
    ) -> Result<Effect, Answer>
        requires was { was ≡ first_in (seen R.Roll.meaning R.Roll.LEVER self.old).state.tasks.roll }
        ensures { Works (seen R.Roll.meaning R.Roll.LEVER self.old) (MacroOf m) sheet.old (seen R.Roll.meaning R.Roll.LEVER self.new) result sheet.new }
    {
        let issuer = was.ok_or(Code::Idle)?;
        if !m.is_in_range() {
            return Ok(self.cut_issuer(issuer, sheet));
        }
        self.obey(m, issuer, sheet)
    }

    // What a call does on a sheet that is long enough, while `was` has the processor.
    fn work(
        &mut self,
        call: Call,
        was: Option<Task>,
        sheet: &mut [Event; LEAST_SHEET],
    ) -> Result<Effect, Answer>
        requires was { was ≡ first_in (seen R.Roll.meaning R.Roll.LEVER self.old).state.tasks.roll }
        ensures { Works (seen R.Roll.meaning R.Roll.LEVER self.old) call sheet.old (seen R.Roll.meaning R.Roll.LEVER self.new) result sheet.new }
    {
        match call {
            Call::Macro(m) => self.issue(m, was, sheet),
            Call::Tick => Ok(Effect::telling(self.beat(sheet))),
            Call::Coil { task } => {
                check(!is_task_field(task), Code::CoilRange)?;
                self.begin(task, None, sheet)
            }
        }
    }

    // What any call does.
    pub fn carry_out(&mut self, call: Call, sheet: &mut [Event]) -> Answer
        ensures { Performed (seen R.Roll.meaning R.Roll.LEVER self.old) call sheet.old (seen R.Roll.meaning R.Roll.LEVER self.new) result sheet.new }
    {
        let Some(front) = sheet.first_chunk_mut::<LEAST_SHEET>() else {
            return Answer::silent(Code::ShortSheet);
        };
        if is_coil_out_of_range(call) {
            return Answer::silent(Code::CoilRange);
        }
        let was = self.tasks.first();
        // Copied through a reference: the borrow checker copies no number with a range that is passed by value.
        match self.work(call, was.as_ref().copied(), front) {
            Ok(effect) if effect.turning => self.settle(was, effect, front),
            Ok(effect) => effect.answer,
            Err(answer) => answer,
        }
    }
}

// Whether a call is a coil whose task is out of range. This alone is asked before anybody looks who has the processor,
// and once more among the checks of a call, which stand whole behind that.
fn is_coil_out_of_range(call: Call) -> bool
    ensures { result ≡ coil_out_of_range call }
{
    matches!(call, Call::Coil { task } if !is_task_field(task))
}
