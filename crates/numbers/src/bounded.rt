//! Numbers that keep to a range. A clause sees only the number.

ghost use Rattle.std.specs.Prelude.{◌≡◌, ℕ, ◌≤◌, ◌&&◌, if◌then◌else◌, Some, None, nat_le};

use std::marker::Model;

/// A number from LOW to HIGH.
#[derive(Clone, Copy, PartialEq, Eq, PartialOrd, Ord, Hash, Debug)]
pub struct Bounded<const LOW: u8, const HIGH: u8> {
    number: u8,
}

impl<const LOW: u8, const HIGH: u8> Model for Bounded<LOW, HIGH> {
    ghost Value = { ℕ };

    ghost view = { λ b. b.number };

    ghost invariant = { λ b. (LOW ≤ b.number) × (b.number ≤ HIGH) };

    ghost inverse = { λ n. record { number = n } };
}

/// The number of a task.
pub type Task = Bounded<1, 127>;

/// A factor of a task.
pub type Factor = Bounded<0, 16>;

/// A level; 0 is the best, 4 the last.
pub type Level = Bounded<0, 4>;

impl<const LOW: u8, const HIGH: u8> Bounded<LOW, HIGH> {
    // `new` and `get` as the library's NonZero: TryFrom and From promise relations, which no clause can compute with.

    /// The number as one of the range, if it is in it.
    pub fn new(number: u8) -> Option<Bounded<LOW, HIGH>>
        ensures { result ≡ (if nat_le LOW number && nat_le number HIGH then Some number else None) }
    {
        if (LOW..=HIGH).contains(&number) {
            Some(Bounded::within(number))
        } else {
            None
        }
    }

    /// A number that the caller has tested to be in the range.
    pub fn within(number: u8) -> Bounded<LOW, HIGH>
        requires { (LOW ≤ number) × (number ≤ HIGH) }
        ensures { result ≡ number }
    {
        Bounded { number }
    }

    /// The number itself.
    pub fn get(self) -> u8
        ensures value { result ≡ self.entry }
        ensures range { (LOW ≤ result) × (result ≤ HIGH) }
    {
        self.number
    }
}
