//! A book that passed the check, and what it says.

ghost use Rattle.std.specs.Prelude.{◌≡◌, true, length, IfSome, None, IfOk, MatchResult};
ghost use Rattle.std.specs.Result.{result_err};
ghost use Rattle.book.specs.Layout.{layout_of};
ghost use Rattle.book.specs.Verdict.{told, clean};
ghost use Rattle.book.specs.Reader.{count_in, steps_in, task_in, registered_in, level_in, length_in, script_place, Handed, blank_bytes, opened};

use crate::checking::check;
use crate::faults::Fault;
use crate::rows::Rows;
use crate::sections::{Layout, TaskRow};

static BLANK: [u8; 18] = [0, 1, 0, 12, 0, 0, 0, 18, 0, 0, 0, 0, 1, 4, 0, 0, 0, 0];

/// A book without faults, in bytes that are lent to it.
#[derive(Clone, Copy, Debug)]
pub struct Book<'a> {
    bytes: &'a [u8],
    layout: Layout,
    ghost sound: { clean (told bytes.now) ≡ true },
    ghost laid: { layout ≡ layout_of bytes.now },
}

impl<'a> Book<'a> {
    /// The book in these bytes, or the fault that is told of them. With a fault the book that is opened is the blank one,
    /// so that a caller who wants it too takes `Book::blank` and checks once.
    pub fn read(bytes: &'a [u8]) -> Result<Book<'a>, Fault>
        ensures fault { result_err result ≡ told bytes.now }
        ensures bytes { MatchResult result (λ book. book.bytes.now ≡ opened bytes.now) (λ _. blank_bytes ≡ opened bytes.now) }
        ensures lent { IfOk result (λ book. book.bytes ≡ bytes.entry) }
    {
        let layout = check(bytes)?;
        Ok(Book { bytes, layout })
    }

    /// The book in these bytes, or the blank book where they have a fault.
    pub fn open(bytes: &'a [u8]) -> Book<'a>
        ensures bytes { result.bytes.now ≡ opened bytes.now }
        ensures lent { told bytes.now ≡ None → result.bytes ≡ bytes.entry }
    {
        Book::read(bytes).unwrap_or(Book::blank())
    }

    /// The book with task 1 alone, at level 4, without instructions or steps.
    #[tactic(auto, using(crate::proofs::Clean::blank_clean))]
    pub fn blank() -> Book<'a>
        ensures { result.bytes.now ≡ blank_bytes }
    {
        Book {
            bytes: &BLANK,
            layout: Layout::read(&BLANK),
        }
    }

    /// How many tasks are registered.
    pub fn task_count(self) -> u16
        ensures { result ≡ count_in self.entry.bytes.now }
    {
        self.layout.tasks.count
    }

    /// For how many steps a runner runs.
    pub fn steps(self) -> u32
        ensures { result ≡ steps_in self.entry.bytes.now }
    {
        self.layout.steps
    }

    /// The row of a task, if it is registered.
    #[tactic(auto, using(crate::proofs::Held::framed_held))]
    pub fn task(self, task: u8) -> Option<TaskRow>
        ensures { result ≡ task_in self.entry.bytes.now task }
    {
        let rows = Rows {
            bytes: self.bytes,
            layout: self.layout,
        };
        let index = rows.find(task, rows.layout.tasks.count)?;
        Some(rows.task(index))
    }

    /// Whether a task has a row.
    pub fn registered(self, task: u8) -> bool
        ensures { result ≡ registered_in self.entry.bytes.now task }
    {
        self.task(task).is_some()
    }

    /// The written level of a task; 0 if it is not registered.
    // Callers are promised a number, 0 for no row; `task` tells a row of level 0 from no row.
    pub fn level(self, task: u8) -> u8
        ensures { result ≡ level_in self.entry.bytes.now task }
    {
        self.task(task).map_or(0, |row| row.level)
    }

    /// How many instructions the script of a task has; 0 if the task is not registered.
    // Callers are promised a number here too; `task` tells an empty script from no row.
    pub fn script_length(self, task: u8) -> u16
        ensures { result ≡ length_in self.entry.bytes.now task }
    {
        self.task(task).map_or(0, |row| row.length)
    }

    /// Instruction `index` of the script of a task: those twelve bytes of the book themselves.
    pub fn row(self, task: u8, index: usize) -> Option<&'a [u8]>
        ensures handed { Handed self.entry.bytes (script_place self.entry.bytes.now task index) result }
        ensures twelve { IfSome result (λ row. length row.now ≡ 12) }
    {
        let script = self.task(task)?;
        if index >= script.length as usize {
            return None;
        }
        let start = self.layout.instructions.place(script.first + index as u16) as usize;
        Some(&self.bytes[start..start + 12])
    }
}
