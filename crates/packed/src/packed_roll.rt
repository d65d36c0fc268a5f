ghost use Rattle.roll.specs.Entries.{SoundList};
ghost use Rattle.packed.specs.Rows.{row};

use crate::row::Row;

// A roll without a lever.
#[derive(Clone, Copy)]
pub struct Packed {
    entries: Row,
    ghost sound: { SoundList (row entries) },
}

pub mod methods;
