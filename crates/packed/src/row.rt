// Room for the most entries that a roll can have: two for each of 127 tasks.
ghost use Rattle.std.specs.Prelude.{◌≡◌, ◌≤◌, length};

use roll::Entry;

// The first `len` items are the entries, oldest first; what stands behind them means nothing.
// This is no ArrayVec, since a packed roll is Copy, and no ArrayVec is.
#[derive(Clone, Copy)]
pub struct Row {
    items: [Entry; 254],
    len: usize,
    ghost whole: { length items ≡ 254 },
    ghost fits: { len ≤ 254 },
}

mod edits;
