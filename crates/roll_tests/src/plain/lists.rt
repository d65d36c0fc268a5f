// Short lists of calls with the answers that the rules give.
use super::calls::{Answer, Call};
use roll::Refused;

pub type Step = (Call, Answer);

pub const DONE: Answer = Answer::Done(Ok(()));

pub const REFUSED: Answer = Answer::Done(Err(Refused));

pub const IDLE: Answer = Answer::Task(None);

// Two entries of a task may differ in level, and only the older one counts.
pub const TWO_LEVELS: [Step; 20] = [
    (Call::Add(5, 1), DONE),
    (Call::Add(6, 2), DONE),
    (Call::Add(5, 4), DONE),
    (Call::Add(5, 0), REFUSED),
    (Call::Count(5), Answer::Number(2)),
    (Call::First, Answer::Task(Some(5))),
    (Call::End(5), DONE),
    (Call::First, Answer::Task(Some(6))),
    (Call::Add(5, 0), DONE),
    (Call::First, Answer::Task(Some(6))),
    (Call::Sleep(5), DONE),
    (Call::End(5), DONE),
    (Call::First, Answer::Task(Some(5))),
    (Call::Add(5, 1), DONE),
    (Call::SetLevel(5, 3), DONE),
    (Call::First, Answer::Task(Some(6))),
    (Call::End(6), DONE),
    (Call::Clear(5), Answer::Number(2)),
    (Call::End(5), REFUSED),
    (Call::First, IDLE),
];

// A number that is no level's.
pub const NO_LEVEL: [Step; 6] = [
    (Call::Add(127, 5), REFUSED),
    (Call::Count(127), Answer::Number(0)),
    (Call::Add(127, 4), DONE),
    (Call::SetLevel(127, 5), REFUSED),
    (Call::First, Answer::Task(Some(127))),
    (Call::Clear(127), Answer::Number(1)),
];

// Held tasks in front of others, asleep or awake, with entries or without.
pub const HOLDS: [Step; 31] = [
    (Call::Hold(7), DONE),
    (Call::Hold(7), REFUSED),
    (Call::Add(7, 0), DONE),
    (Call::Add(8, 0), DONE),
    (Call::Add(3, 1), DONE),
    (Call::Add(4, 1), DONE),
    (Call::Hold(8), DONE),
    (Call::Sleep(8), DONE),
    (Call::First, Answer::Task(Some(3))),
    (Call::Unhold(8), DONE),
    (Call::Unhold(8), REFUSED),
    // 8 slept before, and sleeps on.
    (Call::First, Answer::Task(Some(3))),
    (Call::Rouse(8), DONE),
    (Call::First, Answer::Task(Some(8))),
    (Call::Hold(8), DONE),
    (Call::Hold(3), DONE),
    (Call::First, Answer::Task(Some(4))),
    (Call::Hold(4), DONE),
    (Call::First, IDLE),
    // Clear and end leave holds alone.
    (Call::Clear(7), Answer::Number(1)),
    (Call::Unhold(7), DONE),
    (Call::End(8), DONE),
    (Call::Unhold(8), DONE),
    (Call::Unhold(8), REFUSED),
    // Nobody was left asleep.
    (Call::Unhold(3), DONE),
    (Call::Unhold(4), DONE),
    (Call::First, Answer::Task(Some(3))),
    (Call::End(3), DONE),
    (Call::First, Answer::Task(Some(4))),
    (Call::End(4), DONE),
    (Call::First, IDLE),
];

// A roll as it is left by these has entries and a hold.
pub const IN_USE: [Step; 4] = [
    (Call::Add(1, 0), DONE),
    (Call::Add(2, 1), DONE),
    (Call::Hold(1), DONE),
    (Call::First, Answer::Task(Some(2))),
];

// A new lever on it has none of them.
pub const EMPTIED: [Step; 6] = [
    (Call::First, IDLE),
    (Call::Count(1), Answer::Number(0)),
    (Call::Unhold(1), REFUSED),
    (Call::Add(1, 0), DONE),
    (Call::First, Answer::Task(Some(1))),
    (Call::Count(2), Answer::Number(0)),
];
