//! A row of places, lent by the station for each call, and what is done to its entries. Their order is the order of
//! acceptance, whatever the places they stand in; nothing is asked of what a place holds. The slice is lent as it is, since
//! a struct round it would have to say in each caller's contract what becomes of the slice when the loan is over.

ghost use Rattle.std.specs.Prelude.{◌≡◌, ◌≤◌, false, not, [], ◌∷◌, ◌++◌, Some, codes, length, is_ok, if◌then◌else◌, filter, nat_lt, position};
ghost use Rattle.sheet.specs.Sheets.{written};
ghost use Rattle.table.specs.Rows.{entries, lefts, listed, firings, all_fired, all_told, added};

use crate::entry::{Beaten, TableEntry};
use crate::firing::Target;
use crate::selection::Selection;
use sheet::Event;
use std::error::Error;
use std::fmt;

// Every place of a table is taken.
#[derive(Clone, Copy, Debug, PartialEq, Eq)]
pub struct Full;

impl fmt::Display for Full {
    ghost output = { λ _. Some (codes "every place is taken") };

    fn fmt<W: fmt::Write>(&self, f: &mut fmt::Formatter<W>) -> fmt::Result {
        write!(f, "every place is taken")
    }
}

impl Error for Full {}

// Beats what stands in one place, and tells the event of its firing, if it fires.
fn strike<E: TableEntry, T: Target>(
    place: &mut E::Place,
    beat: E::Beat,
    target: &mut T,
) -> Option<Event>
    ensures place { entries E.live (place.new ∷ []) ≡ lefts (E.after beat) (entries E.live (place.old ∷ [])) }
    ensures target { T.seen target.new ≡ all_fired T.fired (T.seen target.old) (firings (E.fires beat) (entries E.live (place.old ∷ []))) }
    ensures event { listed result ≡ all_told T.fired T.tells (T.seen target.old) (firings (E.fires beat) (entries E.live (place.old ∷ []))) }
{
    let Beaten { left, firing } = E::from_place(*place)?.beaten(beat);
    *place = match left {
        Some(entry) => entry.to_place(),
        None => E::free(),
    };
    Some(target.fire(firing?))
}

// Beats every entry once, oldest first, and tells an event for each that fires at the front of the sheet; answers how
// many. That the sheet has a record for each place is asked of the station, whose calls test it.
pub fn beat<E: TableEntry, T: Target>(
    places: &mut [E::Place],
    beat: E::Beat,
    target: &mut T,
    sheet: &mut [Event],
) -> usize
    requires { length places.old ≤ length sheet.old }
    ensures entries { entries E.live places.new ≡ lefts (E.after beat) (entries E.live places.old) }
    ensures target { T.seen target.new ≡ all_fired T.fired (T.seen target.old) (firings (E.fires beat) (entries E.live places.old)) }
    ensures sheet { sheet.new ≡ written (all_told T.fired T.tells (T.seen target.old) (firings (E.fires beat) (entries E.live places.old))) sheet.old }
    ensures count { result ≡ length (all_told T.fired T.tells (T.seen target.old) (firings (E.fires beat) (entries E.live places.old))) }
    ensures within { result ≤ length places.old }
{
    // Told events are counted and written by number: nothing is known of the places after an adapter of `iter_mut`.
    let mut told = 0;
    for place in places.iter_mut() {
        if let Some(event) = strike::<E, T>(place, beat, target) {
            sheet[told] = event;
            told += 1;
        }
    }
    told
}

// The first free place, if there is one.
fn first_free<E: TableEntry>(places: &[E::Place]) -> Option<usize>
    ensures { result ≡ position (λ p. not (E.live p)) places.now }
{
    places
        .iter()
        .position(|place| E::from_place(*place).is_none())
}

// Adds an entry behind the others; refused, with the entries as they were, exactly when every place is taken.
#[tactic(auto, using(crate::proofs::Adds::all_taken))]
pub fn add<E: TableEntry>(places: &mut [E::Place], entry: E) -> Result<(), Full>
    ensures room { is_ok result ≡ nat_lt (length (entries E.live places.old)) (length places.old) }
    ensures entries { entries E.live places.new ≡ (if is_ok result then entries E.live places.old ++ (E.place entry ∷ []) else entries E.live places.old) }
    ensures taken { entries E.live places.new ≡ added (length places.old) (entries E.live places.old) (E.place entry) }
{
    let free = first_free::<E>(places).ok_or(Full)?;
    // The place goes behind all others, whose order stays.
    places[free..].rotate_left(1);
    let last = places.len() - 1;
    places[last] = entry.to_place();
    Ok(())
}

// Whether a removal takes what stands in a place.
fn takes<E: TableEntry>(place: E::Place, by: Selection) -> bool
    ensures { result ≡ (if E.live place then E.chosen by place else false) }
{
    E::from_place(place).is_some_and(|entry| entry.is_selected(by))
}

// Removes every entry that is selected; answers how many there were.
pub fn remove<E: TableEntry>(places: &mut [E::Place], by: Selection) -> usize
    ensures entries { entries E.live places.new ≡ filter (λ p. not (E.chosen by p)) (entries E.live places.old) }
    ensures count { result ≡ length (filter (E.chosen by) (entries E.live places.old)) }
{
    // Counted beside the loop, for the same reason as in `beat`.
    let mut count = 0;
    for place in places.iter_mut() {
        if takes::<E>(*place, by) {
            *place = E::free();
            count += 1;
        }
    }
    count
}
