//! The check of the instruction rows, used by a script or not.

ghost use Rattle.std.specs.Prelude.{◌≡◌, if◌then◌else◌, Ok, Err};
ghost use Rattle.book.specs.declared.faults.Cause.TheVariants.{BadInstruction};
ghost use Rattle.book.specs.Layout.{place_of_instruction};
ghost use Rattle.book.specs.Faults.{fault};
ghost use Rattle.book.specs.Verdict.{Tells, bad_instruction, instruction_tests};

use crate::faults::{Cause, Fault};
use crate::letters::Letter;
use crate::numbers::byte_at;
use crate::rows::Rows;

fn check_instruction(rows: Rows<'_>, index: u16) -> Result<(), Fault>
    ensures { result ≡ (if bad_instruction rows.entry.bytes.now rows.entry.layout index then Err (fault BadInstruction (place_of_instruction rows.entry.layout index)) else Ok tt) }
{
    let place = rows.layout.instructions.place(index);
    if Letter::try_from(byte_at(rows.bytes, place as usize)).is_err()
        || byte_at(rows.bytes, place as usize + 3) != 0
    {
        return Err(Cause::BadInstruction.at(place));
    }
    Ok(())
}

pub(super) fn check_instructions(rows: Rows<'_>) -> Result<(), Fault>
    ensures { Tells (instruction_tests rows.entry.bytes.now rows.entry.layout) result }
{
    for i in 0..rows.layout.instructions.count {
        check_instruction(rows, i)?;
    }
    Ok(())
}
