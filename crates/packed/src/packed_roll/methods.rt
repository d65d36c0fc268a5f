// What a packed roll does.
ghost use Rattle.std.specs.Prelude.{◌≡◌, refl, false};
ghost use Rattle.roll.specs.Entries.{marking};
ghost use Rattle.roll.specs.Model.{empty, has_in, verdict as verdict_of};
ghost use Rattle.packed.specs.Rows.{row};
ghost use Rattle.packed.specs.Meaning.{meaning_of};
ghost use Rattle.std.proofs.Common.{rules, arith};

use super::Packed;
use crate::row::Row;
use crate::scan;
use roll::{Entry, Refused, Roll, in_range, verdict};

impl Packed {
    // A roll with no entry.
    pub fn new() -> Packed
        ensures { meaning_of result ≡ empty }
    {
        let entries = Row::new();
        Packed { entries }
    }

    // Sets the mark of the task's oldest entry. Refused where there is none.
    // No method of the trait, which would promise a third time what `sleep` and `rouse` do.
    fn mark(&mut self, task: u8, asleep: bool) -> Result<(), Refused>
        ensures answer { result ≡ verdict_of (has_in task (meaning_of self.old)) }
        ensures after { row self.new.entries ≡ marking asleep task (row self.old.entries) }
    {
        let i = scan::place(self.entries.as_slice(), task).ok_or(Refused)?;
        self.entries.mark(i, asleep);
        Ok(())
    }
}

impl Roll for Packed {
    ghost meaning = { meaning_of };

    const LEVER: bool = false;

    ghost LEVER = { false };

    ghost sound = { first_of (Prim.search rules, Prim.grind (arith, Self.row.coded.inj)) };

    ghost free = { first_of (Prim.search rules, Prim.grind (arith, Self.row.coded.inj)) };

    fn add(&mut self, task: u8, level: u8) -> Result<(), Refused> {
        in_range(task, level)?;
        verdict(self.count(task) < 2)?;
        self.entries.push(Entry {
            task,
            level,
            asleep: false,
        });
        Ok(())
    }

    fn end(&mut self, task: u8) -> Result<(), Refused> {
        let i = scan::place(self.entries.as_slice(), task).ok_or(Refused)?;
        self.entries.remove(i);
        Ok(())
    }

    fn sleep(&mut self, task: u8) -> Result<(), Refused> {
        self.mark(task, true)
    }

    fn rouse(&mut self, task: u8) -> Result<(), Refused> {
        self.mark(task, false)
    }

    fn set_level(&mut self, task: u8, level: u8) -> Result<(), Refused> {
        in_range(task, level)?;
        self.entries.set_level(task, level);
        Ok(())
    }

    fn first(&mut self) -> Option<u8> {
        scan::first(self.entries.as_slice())
    }

    fn count(&self, task: u8) -> u8 {
        scan::tally(self.entries.as_slice(), task)
    }

    // No default of the trait could refuse both, since a roll may have a lever.
    fn hold(&mut self, task: u8) -> Result<(), Refused> {
        Err(Refused)
    }

    fn unhold(&mut self, task: u8) -> Result<(), Refused> {
        Err(Refused)
    }
}
