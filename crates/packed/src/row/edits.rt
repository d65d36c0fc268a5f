// Reading and changing a row of entries.
ghost use Rattle.std.specs.Prelude.{◌≡◌, ◌<◌, [], ◌∷◌, ◌++◌, length, slice_index_or, slice_set};
ghost use Rattle.std.specs.List.{remove};
ghost use Rattle.roll.specs.Entries.{awake, marked, levelled};
ghost use Rattle.packed.specs.Rows.{row};

use super::Row;
use crate::scan;
use roll::Entry;

impl Row {
    pub(crate) fn new() -> Row
        ensures { row result ≡ [] }
    {
        Row {
            items: [Entry::default(); 254],
            len: 0,
        }
    }

    pub(crate) fn as_slice(&self) -> &[Entry]
        ensures { result.now ≡ row self.now }
    {
        &self.items[0..self.len]
    }

    // Puts an entry at the end.
    pub(crate) fn push(&mut self, e: Entry)
        requires { length (row self.old) < 254 }
        ensures { row self.new ≡ row self.old ++ e ∷ [] }
    {
        self.items[self.len] = e;
        self.len += 1;
    }

    // Sets the asleep mark of the entry at the place i.
    pub(crate) fn mark(&mut self, i: usize, asleep: bool)
        requires { i < length (row self.old) }
        ensures { row self.new ≡ slice_set (row self.old) i (marked asleep (slice_index_or (row self.old) i (awake 0 0))) }
    {
        self.items[i].asleep = asleep;
    }

    // Takes the entry at the place i away; those behind it move up, so that no gap is left.
    pub(crate) fn remove(&mut self, i: usize)
        requires { i < length (row self.old) }
        ensures { row self.new ≡ remove (row self.old) i }
    {
        self.items.copy_within(i + 1..self.len, i);
        self.len -= 1;
    }

    // Sets the level of all entries of the task.
    pub(crate) fn set_level(&mut self, task: u8, level: u8)
        ensures { row self.new ≡ levelled task level (row self.old) }
    {
        scan::set_level(&mut self.items[0..self.len], task, level);
    }
}
