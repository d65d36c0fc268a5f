//! The worked book, runs without steps, books that are refused, and a run that is longer than what is put at once.

use super::{bytes_of, lists, shows};
use std::alloc::{AllocError, Global};
use std::fmt::Write;
use std::iter;
use std::test::Fail;

const WORKED: &str = "0001 000C 0001 0012 00000004  0102 0000 0001  44 00 00 00 00000002 00000000";

const WORKED_LINES: &str =
    "0 accepted 1\n0 runs 1\n1 runs 0\n2 wakened 1\n2 runs 1\n3 ended 1\n3 runs 0\nleft 0\n";

#[test]
fn worked(rt: HostRuntime) -> Result<(), Fail> {
    lists(&rt, WORKED, WORKED_LINES)
}

#[test]
fn takes_no_steps(rt: HostRuntime) -> Result<(), Fail> {
    lists(
        &rt,
        "0001 000C 0001 0012 00000000  0102 0000 0001  44 00 00 00 00000002 00000000",
        "0 accepted 1\n0 runs 1\nleft 1\n",
    )?;
    // The blank book, as it is opened where there is no other, is a book like any.
    lists(
        &rt,
        "0001 000C 0000 0012 00000000  0104 0000 0000",
        "0 accepted 1\n0 runs 1\nleft 1\n",
    )
}

#[test]
fn is_refused(rt: HostRuntime) -> Result<(), Fail> {
    lists(&rt, "", "book 21 0\n")?;
    lists(&rt, "00", "book 21 0\n")?;
    // 1,000,001 steps.
    lists(
        &rt,
        "0001 000C 0000 0012 000F4241  0104 0000 0000",
        "book 22 8\n",
    )?;
    lists(
        &rt,
        "0001 000B 0000 0012 00000000  0104 0000 0000",
        "book 23 2\n",
    )?;
    lists(
        &rt,
        "0001 000C 0000 0012 00000000  0105 0000 0000",
        "book 24 12\n",
    )?;
    lists(
        &rt,
        "0001 000C 0000 0012 00000000  0204 0000 0000",
        "book 25 12\n",
    )?;
    // No letter is Z.
    lists(
        &rt,
        "0001 000C 0001 0012 00000004  0102 0000 0001  5A 00 00 00 00000002 00000000",
        "book 26 18\n",
    )
}

/// The worked book with zeros behind it.
fn padded(heap: Global, zeros: usize) -> Result<Vec<u8>, Fail> {
    let mut bytes = bytes_of(heap, WORKED)?;
    bytes.extend(iter::repeat_n(0, zeros))?;
    Ok(bytes)
}

#[test]
fn is_as_long_as_may_be(rt: HostRuntime) -> Result<(), Fail> {
    // The worked book has 30 bytes. A book may have 65,535.
    shows(&rt, padded(rt.alloc(), 65_505)?.as_slice(), WORKED_LINES)?;
    shows(&rt, padded(rt.alloc(), 65_506)?.as_slice(), "book 21 0\n")
}

/// What is told where task 1 asks for a start of its own in every second step: the first is accepted, and then two stand.
fn missed_starts(heap: Global) -> Result<String, AllocError> {
    let mut lines = String::from_str(heap, "0 accepted 1\n0 runs 1\n1 accepted 1\n")?;
    for step in (3..1200u32).step_by(2) {
        writeln!(lines, "{step} missed 1")?;
    }
    lines.push_str("left 2\n")?;
    Ok(lines)
}

#[test]
fn is_put_in_parts(rt: HostRuntime) -> Result<(), Fail> {
    // 1,200 steps; the second row jumps back to the first.
    let book = bytes_of(
        rt.alloc(),
        "0001 000C 0002 0012 000004B0  0102 0000 0002  51 01 00 00 00000000 00000000  4A 00 FF 00 00000000 00000000",
    )?;
    shows(&rt, book.as_slice(), missed_starts(rt.alloc())?.as_str())
}
