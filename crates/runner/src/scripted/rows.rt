//! One row of a script, and one tick.

ghost use Rattle.std.specs.Prelude.{◌≡◌, ◌^◌, ◌<◌, true, is_some, Some};
ghost use Rattle.runner.specs.declared.instruction.Instruction.TheVariants.{Macro as MacroRow, Jump as JumpRow};
ghost use Rattle.runner.specs.Scripts.{instruction_of, calling, does, row_done, tick_done};
ghost use Rattle.runner.specs.Views.{progress_in};

use super::{ScriptedStation, calls};
use crate::instruction::{Instruction, decode};
use book::Book;
use roll::Roll;
use rules::{Call, LEAST_SHEET, Macro};
use sheet::Event;

// The instruction in a row of a task's script, if there is one.
#[tactic(auto, using(crate::proofs::Rows::small_row, crate::proofs::Rows::handed_some, crate::proofs::Rows::handed_none), unfolding(crate::specs::Scripts::instruction_of))]
fn instruction_at(book: Book<'_>, task: u8, row: usize) -> Option<Instruction>
    ensures value { result ≡ instruction_of book.entry.bytes.now task row }
    ensures bound { is_some result ≡ true → row < 2 ^ 32 }
{
    decode(book.row(task, row)?)
}

// What makes a call here answers the events that it told, which stand at the front of the sheet.
impl<R: Roll> ScriptedStation<R> {
    // The task issues a macro and goes on to the next row.
    fn issue<'s>(&mut self, task: u8, m: Macro, sheet: &'s mut [Event; LEAST_SHEET]) -> &'s [Event]
        requires { ((progress_in R.Roll.meaning R.Roll.LEVER self.old).positions task).row < 2 ^ 32 }
        ensures progress { progress_in R.Roll.meaning R.Roll.LEVER self.new ≡ (does (progress_in R.Roll.meaning R.Roll.LEVER self.old) task (Some (MacroRow m))).progress }
        ensures told { result.now ≡ (does (progress_in R.Roll.meaning R.Roll.LEVER self.old) task (Some (MacroRow m))).told }
    {
        let reply = calls::ask(&mut self.station, Call::Macro(m), sheet);
        let position = self.positions.at(task);
        self.positions.put(task, position.passed(m, reply.factor));
        self.positions.set_back(reply.told);
        reply.told
    }

    // The task goes to another row.
    fn jump(&mut self, task: u8, x: u8, t: u32)
        requires { ((progress_in R.Roll.meaning R.Roll.LEVER self.old).positions task).row < 2 ^ 32 }
        ensures { progress_in R.Roll.meaning R.Roll.LEVER self.new ≡ (does (progress_in R.Roll.meaning R.Roll.LEVER self.old) task (Some (JumpRow x t))).progress }
    {
        let position = self.positions.at(task);
        self.positions.put(task, position.jumped(x, t));
    }

    // The task does what an instruction says.
    fn follow<'s>(
        &mut self,
        task: u8,
        instruction: Instruction,
        sheet: &'s mut [Event; LEAST_SHEET],
    ) -> &'s [Event]
        requires { ((progress_in R.Roll.meaning R.Roll.LEVER self.old).positions task).row < 2 ^ 32 }
        ensures progress { progress_in R.Roll.meaning R.Roll.LEVER self.new ≡ (does (progress_in R.Roll.meaning R.Roll.LEVER self.old) task (Some instruction)).progress }
        ensures told { result.now ≡ (does (progress_in R.Roll.meaning R.Roll.LEVER self.old) task (Some instruction)).told }
    {
        match instruction {
            Instruction::Macro(m) => self.issue(task, m, sheet),
            Instruction::Jump { x, t } => {
                self.jump(task, x, t);
                &[]
            }
        }
    }

    // Makes a call that moves no task to another row of its script.
    fn call<'s>(&mut self, call: Call, sheet: &'s mut [Event; LEAST_SHEET]) -> &'s [Event]
        ensures progress { progress_in R.Roll.meaning R.Roll.LEVER self.new ≡ (calling (progress_in R.Roll.meaning R.Roll.LEVER self.old).station (progress_in R.Roll.meaning R.Roll.LEVER self.old).positions call).progress }
        ensures told { result.now ≡ (calling (progress_in R.Roll.meaning R.Roll.LEVER self.old).station (progress_in R.Roll.meaning R.Roll.LEVER self.old).positions call).told }
    {
        let told = calls::ask(&mut self.station, call, sheet).told;
        self.positions.set_back(told);
        told
    }

    // The task with the processor, if any, does the row that it stands at, or exits where its script is at its end.
    #[tactic(auto, using(crate::proofs::Rows::same_progress, crate::proofs::Rows::row_idle))]
    pub(crate) fn do_row<'s>(
        &mut self,
        book: Book<'_>,
        sheet: &'s mut [Event; LEAST_SHEET],
    ) -> &'s [Event]
        ensures progress { progress_in R.Roll.meaning R.Roll.LEVER self.new ≡ (row_done book.entry.bytes.now (progress_in R.Roll.meaning R.Roll.LEVER self.old)).progress }
        ensures told { result.now ≡ (row_done book.entry.bytes.now (progress_in R.Roll.meaning R.Roll.LEVER self.old)).told }
    {
        let Some(task) = calls::first(&mut self.station) else {
            return &[];
        };
        let task = task.get();
        match instruction_at(book, task, self.positions.at(task).row) {
            Some(instruction) => self.follow(task, instruction, sheet),
            None => self.call(Call::Macro(Macro::Exit), sheet),
        }
    }

    // One millisecond passes.
    #[tactic(auto, unfolding(crate::specs::Scripts::tick_done))]
    pub(crate) fn do_tick<'s>(&mut self, sheet: &'s mut [Event; LEAST_SHEET]) -> &'s [Event]
        ensures progress { progress_in R.Roll.meaning R.Roll.LEVER self.new ≡ (tick_done (progress_in R.Roll.meaning R.Roll.LEVER self.old)).progress }
        ensures told { result.now ≡ (tick_done (progress_in R.Roll.meaning R.Roll.LEVER self.old)).told }
    {
        self.call(Call::Tick, sheet)
    }
}
