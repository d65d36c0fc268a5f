// Reading and changing a set of held tasks.
ghost use Rattle.std.specs.Prelude.{◌≡◌, true};
ghost use Rattle.roll.specs.Ranges.{task?};
ghost use Rattle.roll.specs.Tables.{put as put_at, none};
ghost use Rattle.lever.specs.Meaning.{members};

use super::Holds;

impl Holds {
    // Nobody is held.
    pub(crate) fn new() -> Holds
        ensures { members result ≡ none }
    {
        Holds {
            marks: [false; 128],
        }
    }

    pub(crate) fn has(&self, task: u8) -> bool
        ensures { result ≡ members self.now task }
    {
        self.marks.get(task as usize).is_some_and(|held| *held)
    }

    // Holds the task, or ends its hold.
    pub(crate) fn put(&mut self, task: u8, held: bool)
        requires { task? task ≡ true }
        ensures { members self.new ≡ put_at (members self.old) task held }
    {
        self.marks[task as usize] = held;
    }
}
