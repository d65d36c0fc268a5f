// Calls as data, so that one list of them goes to every roll.
use roll::Refused;

#[derive(Clone, Copy)]
pub enum Call {
    Add(u8, u8),
    End(u8),
    Clear(u8),
    Sleep(u8),
    Rouse(u8),
    SetLevel(u8, u8),
    First,
    Count(u8),
    Hold(u8),
    Unhold(u8),
}

#[derive(Clone, Copy, PartialEq, Debug)]
pub enum Answer {
    Done(Result<(), Refused>),
    Number(u8),
    Task(Option<u8>),
}
