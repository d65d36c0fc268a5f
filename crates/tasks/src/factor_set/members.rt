//! What is in a set, and what goes in and out.

ghost use Rattle.std.specs.Prelude.{◌≡◌, true, false};
ghost use Rattle.roll.specs.Tables.{put, none};
ghost use Rattle.rules.specs.Effects.{smallest};
ghost use Rattle.tasks.specs.Factors.{members};

use crate::factor_set::FactorSet;
use numbers::Factor;

impl FactorSet {
    // The set that has no factor in it.
    pub fn new() -> FactorSet
        ensures { members result ≡ none }
    {
        FactorSet { bits: 0 }
    }

    // Whether the factor is in the set.
    pub fn has(self, factor: Factor) -> bool
        ensures { result ≡ members self factor }
    {
        (self.bits >> factor.get()) & 1 == 1
    }

    // Puts the factor into the set.
    pub fn insert(&mut self, factor: Factor)
        ensures { members self.new ≡ put (members self.old) factor true }
    {
        self.bits |= 1 << factor.get();
    }

    // Takes the factor out of the set.
    pub fn remove(&mut self, factor: Factor)
        ensures { members self.new ≡ put (members self.old) factor false }
    {
        self.bits &= !(1 << factor.get());
    }

    // The smallest factor of the set, if there is one.
    pub fn smallest(self) -> Option<Factor>
        ensures { result ≡ smallest 17 0 (members self) }
    {
        Factor::new(self.bits.trailing_zeros() as u8)
    }
}
