//! Where each task stands in its script.

ghost use Rattle.std.specs.Prelude.{◌≡◌, length};

/// The row that a task does next, and its register, which the answer of gfact goes into and which jumps look at.
/// Both are 0 where a run begins.
#[derive(Clone, Copy, PartialEq, Eq, Debug, Default)]
pub struct Position {
    pub row: usize,
    pub register: u8,
}

// The positions of all tasks. There is a place for every number that an event can carry.
#[derive(Drop)]
pub struct Positions {
    places: [Position; 256],
    ghost sized: { length places ≡ 256 },
}

mod moves;
