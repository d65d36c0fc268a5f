//! The check of the task rows.

ghost use Rattle.std.specs.Prelude.{◌≡◌, not, if◌then◌else◌, Ok, Err};
ghost use Rattle.book.specs.declared.faults.Cause.TheVariants.{BadTask, NoTaskOne};
ghost use Rattle.book.specs.Layout.{place_of_task, numbered};
ghost use Rattle.book.specs.Faults.{fault};
ghost use Rattle.book.specs.Verdict.{Tells, bad_task, task_tests};

use crate::faults::{Cause, Fault};
use crate::rows::Rows;

fn check_task(rows: Rows<'_>, index: u16) -> Result<(), Fault>
    ensures { result ≡ (if bad_task rows.entry.bytes.now rows.entry.layout index then Err (fault BadTask (place_of_task rows.entry.layout index)) else Ok tt) }
{
    let row = rows.task(index);
    // The bounds stand as numbers: a row may hold any, and two tests are no reason to need another crate's types.
    if !(1..=127).contains(&row.number)
        || rows.is_numbered(row.number, index)
        || row.level > 4
        || row.first as u32 + row.length as u32 > rows.layout.instructions.count as u32
    {
        return Err(Cause::BadTask.at(rows.layout.tasks.place(index)));
    }
    Ok(())
}

fn check_task_one(rows: Rows<'_>) -> Result<(), Fault>
    ensures { result ≡ (if not (numbered rows.entry.bytes.now rows.entry.layout 1 rows.entry.layout.tasks.count) then Err (fault NoTaskOne rows.entry.layout.tasks.offset) else Ok tt) }
{
    if !rows.is_numbered(1, rows.layout.tasks.count) {
        return Err(Cause::NoTaskOne.at(rows.layout.tasks.offset as u32));
    }
    Ok(())
}

pub(super) fn check_tasks(rows: Rows<'_>) -> Result<(), Fault>
    ensures { Tells (task_tests rows.entry.bytes.now rows.entry.layout) result }
{
    // A missing row for task 1 is told at the offset of the section. The first row lies there too, and its
    // fault has the lower number; the faults of the other rows lie higher.
    let first = check_task(rows, 0);
    let task_one = check_task_one(rows);
    first.and(task_one)?;
    for i in 1..rows.layout.tasks.count {
        check_task(rows, i)?;
    }
    Ok(())
}
