ghost use Rattle.std.specs.Prelude.{◌≡◌, ℕ, if◌then◌else◌, Ok, Err, slice_index};
ghost use Rattle.rules.specs.declared.answer.Code.TheVariants.{NotRegistered};
ghost use Rattle.book.specs.Reader.{registered_in, level_in};
ghost use Rattle.kernel.specs.Views.{registered_by, written_by, row_in};

use crate::setup::Setup;
use book::Book;
use numbers::{Level, Task};
use rules::Code;

// The written level of a task that the book has a row for.
fn row_of(book: Book<'_>, task: u8) -> Option<Level>
    ensures { result ≡ row_in book.entry.bytes.now task }
{
    let row = book.task(task)?;
    Some(Level::within(row.level))
}

impl Setup {
    // What a book says of its tasks. A loop by the task's number: no clause of `array::from_fn` says that its closure
    // holds the same book at each call.
    pub(crate) fn of(book: Book<'_>) -> Setup
        ensures registered { registered_by result ≡ registered_in book.entry.bytes.now }
        ensures written { written_by result ≡ level_in book.entry.bytes.now }
    {
        let mut rows = [None; 128];
        for task in 0..128u8 {
            rows[task as usize] = row_of(book, task);
        }
        Setup { rows }
    }

    // The task of this number, if the book has a row for it.
    pub(crate) fn registered(&self, task: u8) -> Result<Task, Code>
        ensures { result ≡ (if registered_by self.now task then Ok task else Err NotRegistered) }
    {
        match self.rows.get(task as usize) {
            Some(Some(_)) => Ok(Task::within(task)),
            _ => Err(Code::NotRegistered),
        }
    }

    // The written level of a task; 0 if the book has no row for it.
    pub(crate) fn level(&self, task: Task) -> Level
        ensures { result ≡ written_by self.now task }
    {
        self.rows[task.get() as usize].unwrap_or(Level::within(0))
    }

    // The written levels of all tasks. A loop by the task's number: only an array that is owned is mapped, and one
    // of levels is not copied from what is lent.
    pub(crate) fn levels(&self) -> [Level; 128]
        ensures { (t : ℕ) → slice_index result t ≡ written_by self.now t }
    {
        let mut levels = [Level::within(0); 128];
        for task in 0..128 {
            levels[task] = self.rows[task].unwrap_or(Level::within(0));
        }
        levels
    }
}
