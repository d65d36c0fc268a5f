//! Which entries a removal takes.

// Plain numbers, since any may be asked; one out of range matches no entry.
#[derive(Clone, Copy, PartialEq, Eq)]
pub enum Selection {
    // What a cancel by task and factor matches.
    Set { task: u8, factor: u8 },
    // The delay of a task.
    Delay { task: u8 },
}
