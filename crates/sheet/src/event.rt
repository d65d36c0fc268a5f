//! One record of a sheet: what happened, and to which task.

ghost use Rattle.std.specs.Prelude.{◌≡◌, Some};
ghost use Rattle.sheet.specs.Events.{word_of, text_of};

use std::fmt;

#[derive(Clone, Copy, PartialEq, Eq, Debug)]
pub enum Kind {
    // A start was accepted.
    Accepted,
    // A start was turned away.
    Missed,
    // A start finished by itself.
    Ended,
    // A start was finished by an abort.
    Cut,
    // A delay is over.
    Wakened,
    // This task has the processor now; task 0 means that it is idle.
    Runs,
}

#[derive(Clone, Copy, PartialEq, Eq, Debug)]
pub struct Event {
    pub kind: Kind,
    // A plain number, since the rules tell of an idle processor as task 0.
    pub task: u8,
}

impl Kind {
    pub fn word(self) -> &'static str
        ensures { result.now ≡ word_of self }
    {
        match self {
            Kind::Accepted => "accepted",
            Kind::Missed => "missed",
            Kind::Ended => "ended",
            Kind::Cut => "cut",
            Kind::Wakened => "wakened",
            Kind::Runs => "runs",
        }
    }
}

// A kind is printed as its word.
impl fmt::Display for Kind {
    ghost output = { λ k. Some (word_of k) };

    fn fmt<W: fmt::Write>(&self, f: &mut fmt::Formatter<W>) -> fmt::Result {
        f.write_str(self.word())
    }
}

// An event is printed as its word and its task.
impl fmt::Display for Event {
    ghost output = { λ e. Some (text_of e) };

    fn fmt<W: fmt::Write>(&self, f: &mut fmt::Formatter<W>) -> fmt::Result {
        write!(f, "{} {}", self.kind, self.task)
    }
}
