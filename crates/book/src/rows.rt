//! The rows of a book whose header has no fault.

ghost use Rattle.std.specs.Prelude.{◌≡◌};
ghost use Rattle.book.specs.Layout.{task_at, row_for, numbered};
ghost use Rattle.book.specs.Verdict.{Framed};

use crate::numbers::{byte_at, u16_at};
use crate::sections::{Layout, TaskRow};

/// The bytes of a book, with the layout by which their rows are read.
#[derive(Clone, Copy)]
pub(crate) struct Rows<'a> {
    pub(crate) bytes: &'a [u8],
    pub(crate) layout: Layout,
    ghost framed: { Framed bytes.now layout },
}

impl Rows<'_> {
    /// One of the task rows.
    pub(crate) fn task(self, index: u16) -> TaskRow
        ensures { result ≡ task_at self.entry.bytes.now self.entry.layout index }
    {
        let place = self.layout.tasks.place(index);
        TaskRow {
            number: byte_at(self.bytes, place as usize),
            level: byte_at(self.bytes, place as usize + 1),
            first: u16_at(self.bytes, place + 2),
            length: u16_at(self.bytes, place + 4),
        }
    }

    /// The first of the task rows below `below` that is for the task `number`.
    pub(crate) fn find(self, number: u8, below: u16) -> Option<u16>
        ensures { result ≡ row_for self.entry.bytes.now self.entry.layout number below }
    {
        (0..below).find(|&index| {
            byte_at(self.bytes, self.layout.tasks.place(index) as usize) == number
        })
    }

    /// Whether one of the task rows below `below` is for the task `number`.
    pub(crate) fn is_numbered(self, number: u8, below: u16) -> bool
        ensures { result ≡ numbered self.entry.bytes.now self.entry.layout number below }
    {
        self.find(number, below).is_some()
    }
}
