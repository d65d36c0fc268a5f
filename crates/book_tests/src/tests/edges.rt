//! Each range at its edges, in short books: header, then the rows.

use super::{text_passes, text_refused};
use std::test::Fail;

#[test]
fn size(rt: HostRuntime) -> Result<(), Fail> {
    text_refused(&rt, "", "header", 21, 0)?;
    text_refused(&rt, "0001 000C 0000 000C 000000", "header", 21, 0)?;
    // Twelve bytes are long enough for a header, and hold no task row.
    text_refused(&rt, "0001 000C 0000 000C 00000000", "header", 23, 2)?;
    text_passes(&rt, "0001 000C 0000 0012 00000000 0104 0000 0000")
}

#[test]
fn steps(rt: HostRuntime) -> Result<(), Fail> {
    // 1,000,000 is 000F4240.
    text_passes(&rt, "0001 000C 0000 0012 000F4240 0104 0000 0000")?;
    text_refused(
        &rt,
        "0001 000C 0000 0012 000F4241 0104 0000 0000",
        "header",
        22,
        8,
    )?;
    text_refused(
        &rt,
        "0001 000C 0000 0012 01000000 0104 0000 0000",
        "header",
        22,
        8,
    )
}

#[test]
fn task_section(rt: HostRuntime) -> Result<(), Fail> {
    // No task; within the header; past the end; behind a gap.
    text_refused(
        &rt,
        "0000 000C 0000 0012 00000000 0104 0000 0000",
        "header",
        22,
        0,
    )?;
    text_refused(
        &rt,
        "0001 000B 0000 0012 00000000 0104 0000 0000",
        "header",
        23,
        2,
    )?;
    text_refused(
        &rt,
        "0001 000D 0000 0012 00000000 0104 0000 0000",
        "header",
        23,
        2,
    )?;
    text_passes(&rt, "0001 000D 0000 0013 00000000 FF 0104 0000 0000")
}

#[test]
fn empty_instruction_section(rt: HostRuntime) -> Result<(), Fail> {
    // Within the header; among the task rows; at the end; past it.
    text_refused(
        &rt,
        "0001 000C 0000 000B 00000000 0104 0000 0000",
        "header",
        23,
        6,
    )?;
    text_passes(&rt, "0001 000C 0000 000D 00000000 0104 0000 0000")?;
    text_passes(&rt, "0001 000C 0000 0012 00000000 0104 0000 0000")?;
    text_refused(
        &rt,
        "0001 000C 0000 0013 00000000 0104 0000 0000",
        "header",
        23,
        6,
    )
}

#[test]
fn task_rows(rt: HostRuntime) -> Result<(), Fail> {
    // Numbers 0 and 128; level 5; a script of one; an empty script past the end; a sum over 16 bits.
    text_refused(
        &rt,
        "0001 000C 0000 0012 00000000 0004 0000 0000",
        "task row",
        24,
        12,
    )?;
    text_refused(
        &rt,
        "0001 000C 0000 0012 00000000 8004 0000 0000",
        "task row",
        24,
        12,
    )?;
    text_refused(
        &rt,
        "0001 000C 0000 0012 00000000 0105 0000 0000",
        "task row",
        24,
        12,
    )?;
    text_refused(
        &rt,
        "0001 000C 0000 0012 00000000 0104 0000 0001",
        "task row",
        24,
        12,
    )?;
    text_refused(
        &rt,
        "0001 000C 0000 0012 00000000 0104 0001 0000",
        "task row",
        24,
        12,
    )?;
    text_refused(
        &rt,
        "0001 000C 0000 0012 00000000 0104 FFFF 0001",
        "task row",
        24,
        12,
    )?;
    // Number 127 passes, and a number used before does not.
    text_passes(
        &rt,
        "0002 000C 0000 0018 00000000 7F00 0000 0000 0104 0000 0000",
    )?;
    text_refused(
        &rt,
        "0002 000C 0000 0018 00000000 0100 0000 0000 0104 0000 0000",
        "task row",
        24,
        18,
    )
}

#[test]
fn instruction_rows(rt: HostRuntime) -> Result<(), Fail> {
    // Of the fields only letter and fourth byte are looked at. 44 is D, 64 is d.
    text_passes(
        &rt,
        "0001 000C 0001 0012 00000004 0102 0000 0001 44 FF FF 00 FFFFFFFF FFFFFFFF",
    )?;
    text_refused(
        &rt,
        "0001 000C 0001 0012 00000004 0102 0000 0001 64 00 00 00 00000002 00000000",
        "instruction row",
        26,
        18,
    )?;
    text_refused(
        &rt,
        "0001 000C 0001 0012 00000004 0102 0000 0001 44 00 00 01 00000002 00000000",
        "instruction row",
        26,
        18,
    )?;
    // A row that is in no script.
    text_refused(
        &rt,
        "0001 000C 0001 0012 00000004 0102 0000 0000 42 00 00 00 00000002 00000000",
        "instruction row",
        26,
        18,
    )?;
    // The section over the task row, and past the end.
    text_refused(
        &rt,
        "0001 000C 0001 0011 00000004 0102 0000 0001 44 00 00 00 00000002 00000000",
        "header",
        23,
        6,
    )?;
    text_refused(
        &rt,
        "0001 000C 0001 0013 00000004 0102 0000 0001 44 00 00 00 00000002 00000000",
        "header",
        23,
        6,
    )
}
