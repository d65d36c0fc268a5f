//! What a call did, before the turn is told.

ghost use Rattle.std.specs.Prelude.{◌≡◌, true, false, if◌then◌else◌, Ok, Err};
ghost use Rattle.rules.specs.declared.answer.Code.TheVariants.{Done};

use rules::{Answer, Code};

// The answer so far, whether the start that had the processor is over, and whether another task may have it now. Where
// nothing was touched that decides it, none has, and nobody looks again. The events that the answer counts stand at the
// front of the sheet.
#[derive(Clone, Copy)]
pub struct Effect {
    pub answer: Answer,
    pub over: bool,
    pub turning: bool,
}

impl Effect {
    // What is obeyed and tells so many events, after which another task may have the processor.
    pub(crate) fn telling(told: usize) -> Effect
        ensures { result ≡ record { answer = record { code = Done; told = told; factor = 0 }; over = false; turning = true } }
    {
        Effect {
            answer: Answer {
                told,
                ..Answer::done()
            },
            over: false,
            turning: true,
        }
    }

    // What is obeyed, tells nothing, and touches nothing that decides who has the processor.
    pub(crate) fn quiet() -> Effect
        ensures { result ≡ record { answer = record { code = Done; told = 0; factor = 0 }; over = false; turning = false } }
    {
        Effect {
            answer: Answer::done(),
            over: false,
            turning: false,
        }
    }
}

// One check of a call: the cause for which it is turned down, if that applies.
pub(crate) fn check(applies: bool, cause: Code) -> Result<(), Code>
    ensures { result ≡ (if applies then Err cause else Ok tt) }
{
    if applies { Err(cause) } else { Ok(()) }
}
