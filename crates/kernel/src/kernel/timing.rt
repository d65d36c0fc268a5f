//! The macros on timers, wakes and the clock, once their common checks are passed.

ghost use Rattle.std.specs.Prelude.{◌≡◌, ◌<◌, not, [], length, filter, if◌then◌else◌, Ok, Err, OnErr, nat_eq, nat_lt};
ghost use Rattle.table.specs.declared.selection.Selection.TheVariants.{Set as SetOf};
ghost use Rattle.table.specs.Rows.{entries, added};
ghost use Rattle.rules.specs.declared.answer.Code.TheVariants.{NothingSet as NothingSetOf, TableFull as TableFullOf};
ghost use Rattle.rules.specs.declared.call.Macro.TheVariants.{Delay as DelayOf, Timer as TimerOf, Ctime as CtimeOf, Wake as WakeOf, Cwake as CwakeOf, Stime as StimeOf};
ghost use Rattle.kernel.specs.Views.{seen};
ghost use Rattle.kernel.specs.Obeys.{Obeys, Changes};

use crate::effect::{Effect, check};
use crate::kernel::Kernel;
use numbers::{Factor, Task};
use roll::Roll;
use rules::{Answer, Code};
use table::entry::TableEntry;
use table::row;
use table::selection::Selection;
use table::timer::Timer;
use table::wake::Wake;

// A cancel: every entry of a table that was set for a task and a factor goes.
fn cancel<E: TableEntry>(places: &mut [E::Place], task: u8, factor: u8) -> Result<(), Code>
    ensures outcome { result ≡ (if nat_eq (length (filter (E.TableEntry.chosen (SetOf task factor)) (entries E.TableEntry.live places.old))) 0 then Err NothingSetOf else Ok tt) }
    ensures entries { entries E.TableEntry.live places.new ≡ filter (λ p. not (E.TableEntry.chosen (SetOf task factor) p)) (entries E.TableEntry.live places.old) }
    ensures same { OnErr result (entries E.TableEntry.live places.new ≡ entries E.TableEntry.live places.old) }
{
    let removed = row::remove::<E>(places, Selection::Set { task, factor });
    check(removed == 0, Code::NothingSet)
}

// A set: an entry goes behind the others of its table, if there is room.
fn set<E: TableEntry>(places: &mut [E::Place], entry: E) -> Result<(), Code>
    ensures outcome { result ≡ (if nat_lt (length (entries E.TableEntry.live places.old)) (length places.old) then Ok tt else Err TableFullOf) }
    ensures entries { entries E.TableEntry.live places.new ≡ added (length places.old) (entries E.TableEntry.live places.old) (E.TableEntry.place entry) }
    ensures same { OnErr result (entries E.TableEntry.live places.new ≡ entries E.TableEntry.live places.old) }
{
    row::add::<E>(places, entry).map_err(|_| Code::TableFull)
}

impl<R: Roll> Kernel<R> {
    // The issuer sleeps.
    pub(crate) fn obey_delay(&mut self, t: u32, issuer: Task) -> Result<Effect, Answer>
        ensures { Obeys (seen R.Roll.meaning R.Roll.LEVER self.old) issuer (DelayOf t) [] (seen R.Roll.meaning R.Roll.LEVER self.new) result [] }
    {
        set(&mut self.timers, Timer::delay(issuer, t))?;
        self.tasks.sleep(issuer.get());
        Ok(Effect::telling(0))
    }

    // A timer is set for a task.
    pub(crate) fn obey_timer(
        &mut self,
        task: u8,
        factor: Factor,
        t: u32,
        cycle: u32,
    ) -> Result<Effect, Answer>
        ensures { Changes (seen R.Roll.meaning R.Roll.LEVER self.old) (TimerOf task t cycle factor) (seen R.Roll.meaning R.Roll.LEVER self.new) result }
    {
        let task = self.setup.registered(task)?;
        set(&mut self.timers, Timer::timer(task, factor, t, cycle))?;
        Ok(Effect::quiet())
    }

    // All timers of a task and a factor go.
    pub(crate) fn obey_ctime(&mut self, task: u8, factor: u8) -> Result<Effect, Answer>
        ensures { Changes (seen R.Roll.meaning R.Roll.LEVER self.old) (CtimeOf task factor) (seen R.Roll.meaning R.Roll.LEVER self.new) result }
    {
        cancel::<Timer>(&mut self.timers, task, factor)?;
        Ok(Effect::quiet())
    }

    // A wake is set for a task.
    pub(crate) fn obey_wake(
        &mut self,
        task: u8,
        factor: Factor,
        second: u32,
        cycle: u32,
    ) -> Result<Effect, Answer>
        ensures { Changes (seen R.Roll.meaning R.Roll.LEVER self.old) (WakeOf task factor second cycle) (seen R.Roll.meaning R.Roll.LEVER self.new) result }
    {
        let task = self.setup.registered(task)?;
        set(&mut self.wakes, Wake::waiting(task, factor, second, cycle))?;
        Ok(Effect::quiet())
    }

    // All wakes of a task and a factor go.
    pub(crate) fn obey_cwake(&mut self, task: u8, factor: u8) -> Result<Effect, Answer>
        ensures { Changes (seen R.Roll.meaning R.Roll.LEVER self.old) (CwakeOf task factor) (seen R.Roll.meaning R.Roll.LEVER self.new) result }
    {
        cancel::<Wake>(&mut self.wakes, task, factor)?;
        Ok(Effect::quiet())
    }

    // The clock moves to the beginning of a second.
    pub(crate) fn obey_stime(&mut self, second: u32) -> Effect
        requires { second < 86400 }
        ensures { Changes (seen R.Roll.meaning R.Roll.LEVER self.old) (StimeOf second) (seen R.Roll.meaning R.Roll.LEVER self.new) (Ok result) }
    {
        self.clock.set(second);
        Effect::quiet()
    }
}
