//! How a book lies in its bytes: the two sections that its header names.

ghost use Rattle.std.specs.Prelude.{◌≡◌, ◌+◌, ◌*◌};
ghost use Rattle.book.specs.Layout.{layout_of};
ghost use Rattle.book.specs.Verdict.{astray};

use crate::numbers::{u16_at, u32_at};

/// Rows of one kind, of `ROW` bytes each, one after the other: where they begin, and how many they are.
#[derive(Clone, Copy, Debug, PartialEq, Eq)]
pub struct Section<const ROW: u16> {
    pub offset: u16,
    pub count: u16,
}

/// What a header says: the sections of the task rows and of the instruction rows, and for how many steps a
/// runner runs.
#[derive(Clone, Copy, Debug, PartialEq, Eq)]
pub struct Layout {
    pub tasks: Section<6>,
    pub instructions: Section<12>,
    pub steps: u32,
}

/// A task row. The script is `length` instructions from the instruction `first` on.
#[derive(Clone, Copy, Debug, PartialEq, Eq)]
pub struct TaskRow {
    pub number: u8,
    pub level: u8,
    pub first: u16,
    pub length: u16,
}

impl<const ROW: u16> Section<ROW> {
    /// The byte at which a row begins.
    pub(crate) fn place(self, index: u16) -> u32
        ensures { result ≡ self.entry.offset + ROW * index }
    {
        self.offset as u32 + ROW as u32 * index as u32
    }

    /// The byte behind the last row.
    pub(crate) fn end(self) -> u32
        ensures { result ≡ self.entry.offset + ROW * self.entry.count }
    {
        self.place(self.count)
    }

    /// Whether the section begins within the header or ends past the book.
    pub(crate) fn is_astray(self, bytes: &[u8]) -> bool
        ensures { result ≡ astray bytes.now self.entry.offset (self.entry.offset + ROW * self.entry.count) }
    {
        self.offset < 12 || self.end() as usize > bytes.len()
    }
}

impl Layout {
    /// What the first twelve bytes say, whether it is in range or not.
    pub(crate) fn read(bytes: &[u8]) -> Layout
        ensures { result ≡ layout_of bytes.now }
    {
        Layout {
            tasks: Section {
                count: u16_at(bytes, 0),
                offset: u16_at(bytes, 2),
            },
            instructions: Section {
                count: u16_at(bytes, 4),
                offset: u16_at(bytes, 6),
            },
            steps: u32_at(bytes, 8),
        }
    }
}
