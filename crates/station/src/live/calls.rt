//! The calls of a live station. Each says what its rule makes of station, answer and sheet, and hands the laws on: for
//! every history that led to the station, the history with this call leads on, and the laws hold of it.

ghost use Rattle.rules.specs.declared.call.Call.TheVariants.{Macro as MacroOf, Tick as TickOf, Coil as CoilOf};
ghost use Rattle.rules.specs.declared.call.Macro.TheVariants.{Rleas as RleasOf, Queue as QueueOf, Abort as AbortOf, Delay as DelayOf, Timer as TimerOf, Ctime as CtimeOf, Chap as ChapOf, Sfact as SfactOf, Gfact as GfactOf, Susp as SuspOf, Rsum as RsumOf, Wake as WakeOf, Cwake as CwakeOf, Stime as StimeOf, Exit as ExitOf};
ghost use Rattle.station.specs.Views.{seen};
ghost use Rattle.station.specs.Makes.{Makes};

use crate::live::Live;
use roll::Roll;
use rules::{Answer, Call, Macro};
use sheet::Event;

impl<R: Roll> Live<R> {
    // Any call, as data.
    pub fn perform(&mut self, call: Call, sheet: &mut [Event]) -> Answer
        ensures { Makes (seen R.Roll.meaning R.Roll.LEVER self.old) call sheet.old (seen R.Roll.meaning R.Roll.LEVER self.new) result sheet.new }
    {
        self.kernel.carry_out(call, sheet)
    }

    // One millisecond passes. This and the next are the host's calls.
    pub fn tick(&mut self, sheet: &mut [Event]) -> Answer
        ensures { Makes (seen R.Roll.meaning R.Roll.LEVER self.old) TickOf sheet.old (seen R.Roll.meaning R.Roll.LEVER self.new) result sheet.new }
    {
        self.perform(Call::Tick, sheet)
    }

    // A contact of the cabinet closes: a start of a task is asked for, without a factor.
    pub fn coil(&mut self, task: u8, sheet: &mut [Event]) -> Answer
        ensures { Makes (seen R.Roll.meaning R.Roll.LEVER self.old) (CoilOf task) sheet.old (seen R.Roll.meaning R.Roll.LEVER self.new) result sheet.new }
    {
        self.perform(Call::Coil { task }, sheet)
    }

    // A dormant task is released.
    pub fn rleas(&mut self, task: u8, sheet: &mut [Event]) -> Answer
        ensures { Makes (seen R.Roll.meaning R.Roll.LEVER self.old) (MacroOf (RleasOf task)) sheet.old (seen R.Roll.meaning R.Roll.LEVER self.new) result sheet.new }
    {
        self.perform(Call::Macro(Macro::Rleas { task }), sheet)
    }

    // A start of a task is asked for, with a factor.
    pub fn queue(&mut self, task: u8, factor: u8, sheet: &mut [Event]) -> Answer
        ensures { Makes (seen R.Roll.meaning R.Roll.LEVER self.old) (MacroOf (QueueOf task factor)) sheet.old (seen R.Roll.meaning R.Roll.LEVER self.new) result sheet.new }
    {
        self.perform(Call::Macro(Macro::Queue { task, factor }), sheet)
    }

    // All starts of a task are cut, and it is dormant.
    pub fn abort(&mut self, task: u8, sheet: &mut [Event]) -> Answer
        ensures { Makes (seen R.Roll.meaning R.Roll.LEVER self.old) (MacroOf (AbortOf task)) sheet.old (seen R.Roll.meaning R.Roll.LEVER self.new) result sheet.new }
    {
        self.perform(Call::Macro(Macro::Abort { task }), sheet)
    }

    // The issuer sleeps for t milliseconds.
    pub fn delay(&mut self, t: u32, sheet: &mut [Event]) -> Answer
        ensures { Makes (seen R.Roll.meaning R.Roll.LEVER self.old) (MacroOf (DelayOf t)) sheet.old (seen R.Roll.meaning R.Roll.LEVER self.new) result sheet.new }
    {
        self.perform(Call::Macro(Macro::Delay { t }), sheet)
    }

    // Starts of a task are set: after t milliseconds, and then at each cycle.
    pub fn timer(&mut self, task: u8, t: u32, cycle: u32, factor: u8, sheet: &mut [Event]) -> Answer
        ensures { Makes (seen R.Roll.meaning R.Roll.LEVER self.old) (MacroOf (TimerOf task t cycle factor)) sheet.old (seen R.Roll.meaning R.Roll.LEVER self.new) result sheet.new }
    {
        self.perform(
            Call::Macro(Macro::Timer {
                task,
                t,
                cycle,
                factor,
            }),
            sheet,
        )
    }

    // All timers of a task and a factor go.
    pub fn ctime(&mut self, task: u8, factor: u8, sheet: &mut [Event]) -> Answer
        ensures { Makes (seen R.Roll.meaning R.Roll.LEVER self.old) (MacroOf (CtimeOf task factor)) sheet.old (seen R.Roll.meaning R.Roll.LEVER self.new) result sheet.new }
    {
        self.perform(Call::Macro(Macro::Ctime { task, factor }), sheet)
    }

    // The present level of a task changes.
    pub fn chap(&mut self, task: u8, level: u8, sheet: &mut [Event]) -> Answer
        ensures { Makes (seen R.Roll.meaning R.Roll.LEVER self.old) (MacroOf (ChapOf task level)) sheet.old (seen R.Roll.meaning R.Roll.LEVER self.new) result sheet.new }
    {
        self.perform(Call::Macro(Macro::Chap { task, level }), sheet)
    }

    // A factor of a task is set.
    pub fn sfact(&mut self, task: u8, factor: u8, sheet: &mut [Event]) -> Answer
        ensures { Makes (seen R.Roll.meaning R.Roll.LEVER self.old) (MacroOf (SfactOf task factor)) sheet.old (seen R.Roll.meaning R.Roll.LEVER self.new) result sheet.new }
    {
        self.perform(Call::Macro(Macro::Sfact { task, factor }), sheet)
    }

    // The issuer's smallest factor is taken, and answered beside the code.
    pub fn gfact(&mut self, sheet: &mut [Event]) -> Answer
        ensures { Makes (seen R.Roll.meaning R.Roll.LEVER self.old) (MacroOf GfactOf) sheet.old (seen R.Roll.meaning R.Roll.LEVER self.new) result sheet.new }
    {
        self.perform(Call::Macro(Macro::Gfact), sheet)
    }

    // A task is held.
    pub fn susp(&mut self, task: u8, sheet: &mut [Event]) -> Answer
        ensures { Makes (seen R.Roll.meaning R.Roll.LEVER self.old) (MacroOf (SuspOf task)) sheet.old (seen R.Roll.meaning R.Roll.LEVER self.new) result sheet.new }
    {
        self.perform(Call::Macro(Macro::Susp { task }), sheet)
    }

    // A task's hold ends.
    pub fn rsum(&mut self, task: u8, sheet: &mut [Event]) -> Answer
        ensures { Makes (seen R.Roll.meaning R.Roll.LEVER self.old) (MacroOf (RsumOf task)) sheet.old (seen R.Roll.meaning R.Roll.LEVER self.new) result sheet.new }
    {
        self.perform(Call::Macro(Macro::Rsum { task }), sheet)
    }

    // Starts of a task are set: at a second of the day, and then at each cycle.
    pub fn wake(
        &mut self,
        task: u8,
        factor: u8,
        second: u32,
        cycle: u32,
        sheet: &mut [Event],
    ) -> Answer
        ensures { Makes (seen R.Roll.meaning R.Roll.LEVER self.old) (MacroOf (WakeOf task factor second cycle)) sheet.old (seen R.Roll.meaning R.Roll.LEVER self.new) result sheet.new }
    {
        self.perform(
            Call::Macro(Macro::Wake {
                task,
                factor,
                second,
                cycle,
            }),
            sheet,
        )
    }

    // All wakes of a task and a factor go.
    pub fn cwake(&mut self, task: u8, factor: u8, sheet: &mut [Event]) -> Answer
        ensures { Makes (seen R.Roll.meaning R.Roll.LEVER self.old) (MacroOf (CwakeOf task factor)) sheet.old (seen R.Roll.meaning R.Roll.LEVER self.new) result sheet.new }
    {
        self.perform(Call::Macro(Macro::Cwake { task, factor }), sheet)
    }

    // The clock moves to the beginning of a second of the day.
    pub fn stime(&mut self, second: u32, sheet: &mut [Event]) -> Answer
        ensures { Makes (seen R.Roll.meaning R.Roll.LEVER self.old) (MacroOf (StimeOf second)) sheet.old (seen R.Roll.meaning R.Roll.LEVER self.new) result sheet.new }
    {
        self.perform(Call::Macro(Macro::Stime { second }), sheet)
    }

    // The issuer's current start is ended.
    pub fn exit(&mut self, sheet: &mut [Event]) -> Answer
        ensures { Makes (seen R.Roll.meaning R.Roll.LEVER self.old) (MacroOf ExitOf) sheet.old (seen R.Roll.meaning R.Roll.LEVER self.new) result sheet.new }
    {
        self.perform(Call::Macro(Macro::Exit), sheet)
    }
}
