// New numbers for stamps. A roll notes the stamps that are in use, and then gives each start the
// number that it is told for its stamp.
ghost use Rattle.std.specs.Prelude.{◌≡◌, ◌≤◌, length};

// Room for the stamps of 128 tasks, two for each. The first `len` are the noted ones.
// This is no ArrayVec, since the type is Copy, and no ArrayVec is.
#[derive(Clone, Copy)]
pub struct Renumbering {
    stamps: [u16; 256],
    len: usize,
    ghost whole: { length stamps ≡ 256 },
    ghost fits: { len ≤ 256 },
}

mod edits;
pub(crate) mod slots;
