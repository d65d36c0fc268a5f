ghost use Rattle.std.specs.Prelude.{◌≡◌, refl, true};
ghost use Rattle.roll.specs.Model.{empty};
ghost use Rattle.lever.specs.Meaning.{over};
ghost use Rattle.lever.specs.Holding.{over_sound};
ghost use Rattle.std.proofs.Common.{rules};

use crate::holds::Holds;
use crate::search;
use roll::{Refused, Roll, clear_all, is_task, verdict};

// A roll with a lever, over the roll `below`. Where the roll below has a lever itself, holds are
// passed on to it; where it has none, they are kept in the set `own`.
#[derive(Clone, Copy)]
pub struct Lever<R> {
    below: R,
    own: Holds,
}

impl<R: Roll> Lever<R> {
    // Puts a lever over the roll, which loses its entries and its holds.
    pub fn new(mut roll: R) -> Lever<R>
        ensures { over R.Roll.LEVER (R.Roll.meaning result.below) result.own ≡ empty }
    {
        clear_all(&mut roll);
        Lever {
            below: roll,
            own: Holds::new(),
        }
    }
}

impl<R: Roll> Roll for Lever<R> {
    ghost meaning = { λ s. over R.Roll.LEVER (R.Roll.meaning s.below) s.own };

    const LEVER: bool = true;

    ghost LEVER = { true };

    ghost sound = { λ s. over_sound R.Roll.LEVER (R.Roll.meaning s.below) s.own (R.Roll.sound s.below) };

    ghost free = { Prim.search rules };

    fn add(&mut self, task: u8, level: u8) -> Result<(), Refused> {
        self.below.add(task, level)
    }

    fn end(&mut self, task: u8) -> Result<(), Refused> {
        self.below.end(task)
    }

    fn clear(&mut self, task: u8) -> u8 {
        self.below.clear(task)
    }

    fn sleep(&mut self, task: u8) -> Result<(), Refused> {
        self.below.sleep(task)
    }

    fn rouse(&mut self, task: u8) -> Result<(), Refused> {
        self.below.rouse(task)
    }

    fn set_level(&mut self, task: u8, level: u8) -> Result<(), Refused> {
        self.below.set_level(task, level)
    }

    // A roll with a lever looks past the held tasks itself.
    fn first(&mut self) -> Option<u8> {
        if R::LEVER {
            return self.below.first();
        }
        search::first(&mut self.below, &self.own)
    }

    fn count(&self, task: u8) -> u8 {
        self.below.count(task)
    }

    fn hold(&mut self, task: u8) -> Result<(), Refused> {
        if R::LEVER {
            return self.below.hold(task);
        }
        verdict(is_task(task) && !self.own.has(task))?;
        self.own.put(task, true);
        Ok(())
    }

    fn unhold(&mut self, task: u8) -> Result<(), Refused> {
        if R::LEVER {
            return self.below.unhold(task);
        }
        verdict(is_task(task) && self.own.has(task))?;
        self.own.put(task, false);
        Ok(())
    }
}
