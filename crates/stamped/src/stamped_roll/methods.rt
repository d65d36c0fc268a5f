// What a stamped roll does.
ghost use Rattle.std.specs.Prelude.{◌≡◌, refl, ◌+◌, ◌<◌, ◌≤◌, true, false, ◌&&◌, [], ◌∷◌, ◌++◌, length, if◌then◌else◌, nat_lt};
ghost use Rattle.roll.specs.Ranges.{task?, level?};
ghost use Rattle.roll.specs.Entries.{awake, count_of, marking};
ghost use Rattle.roll.specs.Model.{empty, has_in, may_add, after_add, verdict as verdict_of};
ghost use Rattle.stamped.specs.Numbers.{renumbered};
ghost use Rattle.stamped.specs.Meaning.{meaning_of, stamp_for};
ghost use Rattle.std.proofs.lemmas.Bool.{false≢true};
ghost use Rattle.stamped.specs.Tables.{orderly_of};
ghost use Rattle.stamped.specs.Counts.{sound_listed};
ghost use Rattle.std.proofs.Common.{rules, arith};

use super::Stamped;
use crate::candidate::Candidate;
use crate::renumbering::slots::renumber;
use crate::slot::{Slot, Start};
use roll::{Refused, Roll, in_range, verdict};

impl Stamped {
    // A roll with no entry.
    pub fn new() -> Stamped
        ensures { meaning_of result ≡ empty }
    {
        Stamped {
            slots: [Slot::Empty; 128],
            next: 0,
        }
    }

    // Sets the mark of the task's oldest entry. Refused where there is none.
    // No method of the trait, which would promise a third time what `sleep` and `rouse` do.
    fn mark(&mut self, task: u8, asleep: bool) -> Result<(), Refused>
        ensures answer { result ≡ verdict_of (has_in task (meaning_of self.old)) }
        ensures after { (meaning_of self.new).entries ≡ marking asleep task (meaning_of self.old).entries }
    {
        verdict(self.count(task) > 0)?;
        let t = task as usize;
        self.slots[t] = self.slots[t].marked(asleep);
        Ok(())
    }

    // Gives all stamps anew, in order.
    fn renumber(&mut self)
        ensures slots { self.new.slots ≡ renumbered self.old.slots }
        ensures next { self.new.next ≡ length (meaning_of self.old).entries }
        ensures small { self.new.next ≤ 254 }
        ensures same { (meaning_of self.new).entries ≡ (meaning_of self.old).entries }
    {
        let count = renumber(&mut self.slots);
        self.next = count;
    }

    // Renumbers where the next stamp would pass 65,535, and changes nothing where it would not.
    fn make_room(&mut self)
        ensures next { self.new.next ≡ stamp_for self.old }
        ensures room { self.new.next < 65536 }
        ensures same { (meaning_of self.new).entries ≡ (meaning_of self.old).entries }
    {
        let used_up = self.next > 65535;
        if used_up {
            self.renumber();
        }
    }

    // Puts an awake entry at the end.
    fn push(&mut self, task: u8, level: u8)
        requires range { task? task && level? level ≡ true }
        requires few { count_of task (meaning_of self.old).entries < 2 }
        requires room { self.old.next < 65536 }
        ensures next { self.new.next ≡ self.old.next + 1 }
        ensures after { (meaning_of self.new).entries ≡ (meaning_of self.old).entries ++ awake task level ∷ [] }
    {
        let t = task as usize;
        self.slots[t] = self.slots[t].pushed(Start {
            stamp: self.next as u16,
            level,
            asleep: false,
        });
        self.next += 1;
    }
}

impl Roll for Stamped {
    ghost meaning = { meaning_of };

    const LEVER: bool = false;

    ghost LEVER = { false };

    ghost sound = { λ s. (sound_listed s.slots s.next s.whole (orderly_of s), λ t p. absurd (false≢true p)) };

    ghost free = { first_of (Prim.search rules, Prim.grind (arith, Self.row.coded.inj)) };

    // As every roll does, and `next` says when it renumbers.
    fn add(&mut self, task: u8, level: u8) -> Result<(), Refused>
        ensures answer { result ≡ verdict_of (may_add task level (meaning_of self.old)) }
        ensures after { meaning_of self.new ≡ after_add task level (meaning_of self.old) }
        ensures next { self.new.next ≡ (if may_add task level (meaning_of self.old) then stamp_for self.old + 1 else self.old.next) }
    {
        in_range(task, level)?;
        verdict(self.count(task) < 2)?;
        self.make_room();
        self.push(task, level);
        Ok(())
    }

    fn end(&mut self, task: u8) -> Result<(), Refused> {
        verdict(self.count(task) > 0)?;
        let t = task as usize;
        self.slots[t] = self.slots[t].ended();
        Ok(())
    }

    fn sleep(&mut self, task: u8) -> Result<(), Refused> {
        self.mark(task, true)
    }

    fn rouse(&mut self, task: u8) -> Result<(), Refused> {
        self.mark(task, false)
    }

    fn set_level(&mut self, task: u8, level: u8) -> Result<(), Refused> {
        in_range(task, level)?;
        let t = task as usize;
        self.slots[t] = self.slots[t].levelled(level);
        Ok(())
    }

    fn first(&mut self) -> Option<u8> {
        let mut best = None;
        for (task, slot) in self.slots.iter().enumerate() {
            if let Some(start) = slot.live() {
                best = Candidate {
                    task: task as u8,
                    start,
                }
                .or(best);
            }
        }
        best.map(|candidate| candidate.task)
    }

    fn count(&self, task: u8) -> u8 {
        self.slots.get(task as usize).map_or(0, |slot| slot.len())
    }

    // No default of the trait could refuse both, since a roll may have a lever.
    fn hold(&mut self, task: u8) -> Result<(), Refused> {
        Err(Refused)
    }

    fn unhold(&mut self, task: u8) -> Result<(), Refused> {
        Err(Refused)
    }
}
