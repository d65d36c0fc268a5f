// An entry of a roll: one start of a task that waits for the processor or has it.
#[derive(Clone, Copy, PartialEq, Eq, Debug, Default)]
pub struct Entry {
    pub task: u8,
    pub level: u8,
    pub asleep: bool,
}

// What a roll answers where it does nothing.
#[derive(Clone, Copy, PartialEq, Eq, Debug)]
pub struct Refused;
