//! What a station keeps of its book.

ghost use Rattle.std.specs.Prelude.{◌≡◌, length, None, slice_index_or};

use numbers::Level;

// The written level of each task that the book has a row for, by the task's number.
#[derive(Drop)]
pub struct Setup {
    rows: [Option<Level>; 128],
    ghost sized: { length rows ≡ 128 },
    ghost nobody: { slice_index_or rows 0 None ≡ None },
}

mod read;
