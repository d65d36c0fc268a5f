//! Books with several faults: which one is told.

use super::{text_passes, text_refused};
use std::test::Fail;

#[test]
fn header(rt: HostRuntime) -> Result<(), Fail> {
    // Size, task count, task section, instruction count, instruction section, steps, rows: each before the next.
    text_refused(&rt, "0000 000B 6300 000B 630000", "header", 21, 0)?;
    text_refused(
        &rt,
        "0000 000B 6300 000B 63000000 0009 0000 0000",
        "header",
        22,
        0,
    )?;
    text_refused(
        &rt,
        "0001 000B 6300 000B 63000000 0009 0000 0000",
        "header",
        23,
        2,
    )?;
    text_refused(
        &rt,
        "0001 000C 6300 000B 63000000 0009 0000 0000",
        "header",
        22,
        4,
    )?;
    text_refused(
        &rt,
        "0001 000C 0000 000B 63000000 0009 0000 0000",
        "header",
        23,
        6,
    )?;
    text_refused(
        &rt,
        "0001 000C 0000 0012 63000000 0009 0000 0000",
        "header",
        22,
        8,
    )?;
    text_refused(
        &rt,
        "0001 000C 0000 0012 00000000 0009 0000 0000",
        "task row",
        24,
        12,
    )
}

#[test]
fn task_one(rt: HostRuntime) -> Result<(), Fail> {
    text_refused(
        &rt,
        "0001 000C 0000 0012 00000000 0204 0000 0000",
        "task row",
        25,
        12,
    )?;
    // A fault of the first row goes before, one of the second row behind.
    text_refused(
        &rt,
        "0001 000C 0000 0012 00000000 0205 0000 0000",
        "task row",
        24,
        12,
    )?;
    text_refused(
        &rt,
        "0002 000C 0000 0018 00000000 0204 0000 0000 0305 0000 0000",
        "task row",
        25,
        12,
    )?;
    // A row for task 1 that has a fault is a row for task 1.
    text_refused(
        &rt,
        "0002 000C 0000 0018 00000000 0204 0000 0000 0105 0000 0000",
        "task row",
        24,
        18,
    )
}

// The task row at 12, the instruction row at 18.
#[test]
fn tasks_lie_first(rt: HostRuntime) -> Result<(), Fail> {
    text_refused(
        &rt,
        "0001 000C 0001 0012 00000000 0105 0000 0001 3F 00 00 00 00000000 00000000",
        "task row",
        24,
        12,
    )?;
    text_refused(
        &rt,
        "0001 000C 0001 0012 00000000 0204 0000 0001 3F 00 00 00 00000000 00000000",
        "task row",
        25,
        12,
    )?;
    text_refused(
        &rt,
        "0001 000C 0001 0012 00000000 0104 0000 0001 3F 00 00 00 00000000 00000000",
        "instruction row",
        26,
        18,
    )
}

// The instruction row at 12, the task row at 24.
#[test]
fn instructions_lie_first(rt: HostRuntime) -> Result<(), Fail> {
    text_passes(
        &rt,
        "0001 0018 0001 000C 00000000 58 00 00 00 00000000 00000000 0104 0000 0001",
    )?;
    text_refused(
        &rt,
        "0001 0017 0001 000C 00000000 58 00 00 00 00000000 00000000 0104 0000 0001",
        "header",
        23,
        6,
    )?;
    text_refused(
        &rt,
        "0001 0018 0001 000C 00000000 3F 00 00 00 00000000 00000000 0105 0000 0001",
        "instruction row",
        26,
        12,
    )?;
    text_refused(
        &rt,
        "0001 0018 0001 000C 00000000 3F 00 00 00 00000000 00000000 0204 0000 0001",
        "instruction row",
        26,
        12,
    )?;
    text_refused(
        &rt,
        "0001 0018 0001 000C 00000000 58 00 00 00 00000000 00000000 0105 0000 0001",
        "task row",
        24,
        24,
    )
}
