//! What a table asks of the entries that stand in its places.

ghost use Rattle.std.specs.Prelude.{◌≡◌, Bool, true, false, Option, MatchOption};
ghost use Rattle.table.specs.declared.firing.Firing.{Firing};
ghost use Rattle.table.specs.declared.selection.Selection.{Selection};
ghost use Rattle.table.specs.Rows.{placed};

use crate::firing::Firing;
use crate::selection::Selection;

// What a beat made of an entry: what is left of it, and what it asks for.
#[derive(Drop)]
pub struct Beaten<E> {
    pub left: Option<E>,
    pub firing: Option<Firing>,
}

// A kind of entry. The places of its table are plain records of a type of its own: an entry is made from a place after
// a test, and a place that fails the test is free. The test is two lines in each kind, and a type that holds any kind's
// place would need a trait for its two numbers.
pub trait TableEntry: Copy {
    type Place: Copy;

    // What a beat of this kind brings along.
    type Beat: Copy;

    // How many places a table of this kind has.
    const PLACES: usize;

    // Whether an entry stands in a place.
    ghost live: { Self.Place → Bool };

    ghost place: { Self → Self.Place };

    // The place that is written where an entry goes.
    ghost vacant: { Self.Place };

    // What is left of an entry after a beat, and what it fires.
    ghost after: { Self.Beat → Self.Place → Option Self.Place };

    ghost fires: { Self.Beat → Self.Place → Option Firing };

    // Whether a removal takes an entry.
    ghost chosen: { Selection → Self.Place → Bool };

    // No Option of an entry: a table answers for a row that holds anything, also what is no entry.
    fn free() -> Self::Place
        ensures { result ≡ vacant };

    // These two are no TryFrom and From, whose contracts are relations that a law would have to tie to `live` and `place`.
    fn from_place(p: Self::Place) -> Option<Self>
        ensures { MatchOption result (live p ≡ false) (λ e. (live p ≡ true) × (place e ≡ p)) };

    fn to_place(self) -> Self::Place
        ensures { result ≡ place self };

    fn beaten(self, beat: Self::Beat) -> Beaten<Self>
        ensures left { placed place result.left ≡ after beat (place self) }
        ensures firing { result.firing ≡ fires beat (place self) };

    fn is_selected(self, by: Selection) -> bool
        ensures { result ≡ chosen by (place self) };

    ghost freed: { live vacant ≡ false };

    ghost stands: { (e : Self) → live (place e) ≡ true };
}
