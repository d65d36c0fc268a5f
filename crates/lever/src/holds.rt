// A set of held tasks in memory of a fixed size.
ghost use Rattle.std.specs.Prelude.{◌≡◌, false, length, slice_index_or};

// The mark at a place says whether the task of that number is held. There is no task 0.
#[derive(Clone, Copy)]
pub struct Holds {
    marks: [bool; 128],
    ghost whole: { length marks ≡ 128 },
    ghost nobody: { slice_index_or marks 0 false ≡ false },
}

mod edits;
