// Who may have the processor.
ghost use Rattle.std.specs.Prelude.{◌≡◌, nat_lt};
ghost use Rattle.stamped.specs.Candidates.{rank, preferred};

use crate::slot::Start;

// The oldest start of a task, and whose it is.
#[derive(Clone, Copy)]
pub(crate) struct Candidate {
    pub task: u8,
    pub start: Start,
}

impl Candidate {
    // Whether this one goes first: by the level, then by the stamp.
    fn beats(self, other: Candidate) -> bool
        ensures { result ≡ nat_lt (rank self.start) (rank other.start) }
    {
        let (a, b) = (self.start, other.start);
        (a.level, a.stamp) < (b.level, b.stamp)
    }

    // The better of this one and the best so far.
    pub(crate) fn or(self, best: Option<Candidate>) -> Option<Candidate>
        ensures { result ≡ preferred best self }
    {
        match best {
            Some(b) if !self.beats(b) => best,
            _ => Some(self),
        }
    }
}
