//! The macros that change a task beside its starts, once their common checks are passed.

ghost use Rattle.std.specs.Prelude.{◌≡◌, [], if◌then◌else◌, Ok, Err};
ghost use Rattle.rules.specs.declared.call.Macro.TheVariants.{Rleas as RleasOf, Chap as ChapOf, Sfact as SfactOf, Gfact as GfactOf, Susp as SuspOf, Rsum as RsumOf};
ghost use Rattle.rules.specs.declared.answer.Code.TheVariants.{Dormant as DormantOf, NotRegistered as NotRegisteredOf};
ghost use Rattle.tasks.specs.Views.{view};
ghost use Rattle.kernel.specs.Views.{registered_by, seen};
ghost use Rattle.kernel.specs.Obeys.{Obeys, Changes};

use crate::effect::{Effect, check};
use crate::kernel::Kernel;
use numbers::{Bounded, Factor, Level, Task};
use roll::Roll;
use rules::{Answer, Code};

impl<R: Roll> Kernel<R> {
    // The task of this number, if the book has a row for it and it is released.
    pub(crate) fn released(&self, task: u8) -> Result<Task, Code>
        ensures { result ≡ (if registered_by self.now.setup task then (if (view R.Roll.meaning self.now.tasks).released task then Ok task else Err DormantOf) else Err NotRegisteredOf) }
    {
        let number = self.setup.registered(task)?;
        check(!self.tasks.is_released(task), Code::Dormant)?;
        Ok(number)
    }

    // A dormant task is released.
    pub(crate) fn obey_rleas(&mut self, task: u8) -> Result<Effect, Answer>
        ensures { Changes (seen R.Roll.meaning R.Roll.LEVER self.old) (RleasOf task) (seen R.Roll.meaning R.Roll.LEVER self.new) result }
    {
        let task = self.setup.registered(task)?;
        check(self.tasks.is_released(task.get()), Code::IsReleased)?;
        self.tasks.release(task);
        Ok(Effect::quiet())
    }

    // The present level of a task changes.
    pub(crate) fn obey_chap(&mut self, task: u8, level: Level) -> Result<Effect, Answer>
        ensures { Changes (seen R.Roll.meaning R.Roll.LEVER self.old) (ChapOf task level) (seen R.Roll.meaning R.Roll.LEVER self.new) result }
    {
        let task = self.released(task)?;
        self.tasks.set_level(task, level);
        Ok(Effect::telling(0))
    }

    // A factor of a task is set.
    pub(crate) fn obey_sfact(&mut self, task: u8, factor: Factor) -> Result<Effect, Answer>
        ensures { Changes (seen R.Roll.meaning R.Roll.LEVER self.old) (SfactOf task factor) (seen R.Roll.meaning R.Roll.LEVER self.new) result }
    {
        let task = self.released(task)?;
        check(self.tasks.has_factor(task, factor), Code::FactorSet)?;
        self.tasks.set_factor(task, factor);
        Ok(Effect::quiet())
    }

    // The issuer's smallest factor is taken; 0 is answered where none is set.
    pub(crate) fn obey_gfact(&mut self, issuer: Task) -> Effect
        ensures { Obeys (seen R.Roll.meaning R.Roll.LEVER self.old) issuer GfactOf [] (seen R.Roll.meaning R.Roll.LEVER self.new) (Ok result) [] }
    {
        let factor = self.tasks.take_factor(issuer).map_or(0, Bounded::get);
        Effect {
            answer: Answer {
                factor,
                ..Answer::done()
            },
            ..Effect::quiet()
        }
    }

    // A task is held, or its hold ends.
    pub(crate) fn obey_hold(&mut self, task: u8, held: bool) -> Result<Effect, Answer>
        ensures { Changes (seen R.Roll.meaning R.Roll.LEVER self.old) (if held then SuspOf task else RsumOf task) (seen R.Roll.meaning R.Roll.LEVER self.new) result }
    {
        let task = self.setup.registered(task)?;
        check(!R::LEVER, Code::NoLever)?;
        check(!self.tasks.is_released(task.get()), Code::Dormant)?;
        self.tasks
            .set_hold(task, held)
            .map_err(|_| Code::HoldStands)?;
        Ok(Effect::telling(0))
    }
}
