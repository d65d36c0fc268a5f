//! When entries fire, over any number of beats. Each function does nothing: its contract is a theorem about the rules
//! that the table's own contracts cite.

ghost use Rattle.table.specs.Times.{KeepsTime, FiresOnce, RousesOnce, WakesOnce, WakesOn, InOrder, TakesWhatFits};

use crate::entry::TableEntry;

// A timer with a cycle fires at exactly the beats t, t + cycle, t + 2 * cycle and so on.
pub fn timers_keep_time()
    ensures { KeepsTime }
{}

// A timer without a cycle fires at beat t only, and is gone then.
pub fn timers_fire_once()
    ensures { FiresOnce }
{}

// A delay rouses its task at beat t only, and is gone then.
pub fn delays_rouse_once()
    ensures { RousesOnce }
{}

// A wake without a cycle fires at the first beat with its second of the day only, and keeps its place.
pub fn wakes_fire_once()
    ensures { WakesOnce }
{}

// A wake with a cycle fires at the first beat with its second of the day, and at exactly each cycle-th after it.
pub fn wakes_keep_their_cycle()
    ensures { WakesOn }
{}

// Entries fire in the order of their acceptance.
pub fn entries_fire_in_order<E: TableEntry>(beat: E::Beat)
    ensures { InOrder (E.TableEntry.fires beat) }
{}

// Between two cancels a table refuses nothing as long as its places suffice, and refuses where all are taken.
pub fn tables_take_what_fits<E: TableEntry>()
    ensures { TakesWhatFits E.TableEntry.after }
{}
