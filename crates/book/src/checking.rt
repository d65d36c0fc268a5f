//! The check of a whole book, which tells the first of its faults.

ghost use Rattle.std.specs.Prelude.{◌≡◌};
ghost use Rattle.book.specs.Layout.{layout_of};
ghost use Rattle.book.specs.Verdict.{Tells, OnlyTells, size_tests, row_tests, tests, verdict};

use crate::faults::{Cause, Fault};
use crate::rows::Rows;
use crate::sections::Layout;
use header::check_header;
use instructions::check_instructions;
use tasks::check_tasks;

mod header;
mod instructions;
mod tasks;

/// The layout of a book, or the fault that is told of it.
pub fn check(bytes: &[u8]) -> Result<Layout, Fault>
    ensures value { result ≡ verdict bytes.now }
    ensures first { Tells (tests bytes.now (layout_of bytes.now)) result }
    ensures only { OnlyTells (tests bytes.now (layout_of bytes.now)) result }
{
    check_size(bytes)?;
    let layout = check_header(bytes)?;
    check_rows(Rows { bytes, layout })?;
    Ok(layout)
}

fn check_size(bytes: &[u8]) -> Result<(), Fault>
    ensures { Tells (size_tests bytes.now) result }
{
    if !(12..=65535).contains(&bytes.len()) {
        return Err(Cause::Size.at(0));
    }
    Ok(())
}

// The sections in the order of the bytes, so that the first fault found has the lowest place.
fn check_rows(rows: Rows<'_>) -> Result<(), Fault>
    ensures { Tells (row_tests rows.entry.bytes.now rows.entry.layout) result }
{
    if rows.layout.tasks.offset < rows.layout.instructions.offset {
        check_tasks(rows)?;
        check_instructions(rows)
    } else {
        check_instructions(rows)?;
        check_tasks(rows)
    }
}
