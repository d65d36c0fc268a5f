//! Long books, at the edges of the counts and of the size.

use super::{passes, refused};
use std::alloc::{AllocError, Global};
use std::iter;
use std::test::Fail;

/// An instruction that ends the run.
const EXIT: &[u8] = b"X\0\0\0\0\0\0\0\0\0\0\0";

/// Counts and offsets as the header has them: tasks, their offset, instructions, their offset.
fn header(heap: Global, fields: [u16; 4]) -> Result<Vec<u8>, AllocError> {
    let mut bytes = Vec::new(heap);
    for field in fields {
        bytes.extend_from_slice(&field.to_be_bytes())?;
    }
    bytes.extend_from_slice(b"\0\0\0\0")?;
    Ok(bytes)
}

/// Tasks from 1 up to `last`, without scripts.
fn add_tasks(bytes: &mut Vec<u8>, last: u8) -> Result<(), AllocError> {
    for number in 1..=last {
        bytes.push(number)?;
        bytes.extend_from_slice(b"\0\0\0\0\0")?;
    }
    Ok(())
}

/// The same bytes so many times.
fn add_times(bytes: &mut Vec<u8>, row: &[u8], count: usize) -> Result<(), AllocError> {
    bytes.extend(iter::repeat_n(row, count).flatten().copied())
}

#[test]
fn tasks(rt: HostRuntime) -> Result<(), Fail> {
    // 12 + 127 × 6 = 774, and one row more ends at 780.
    let mut most = header(rt.alloc(), [127, 12, 0, 774])?;
    add_tasks(&mut most, 127)?;
    passes(&rt, most.as_slice());
    let mut over = header(rt.alloc(), [128, 12, 0, 780])?;
    add_tasks(&mut over, 128)?;
    refused(&rt, over.as_slice(), "header", 22, 0)?;
    // The last row has a number that the first row has used.
    let mut twice = header(rt.alloc(), [127, 12, 0, 774])?;
    add_tasks(&mut twice, 126)?;
    add_tasks(&mut twice, 1)?;
    refused(&rt, twice.as_slice(), "task row", 24, 768)
}

#[test]
fn instructions(rt: HostRuntime) -> Result<(), Fail> {
    // One script of all 4,096, which is hexadecimal 1000.
    let mut most = header(rt.alloc(), [1, 12, 4096, 18])?;
    most.extend_from_slice(b"\x01\x04\0\0\x10\0")?;
    add_times(&mut most, EXIT, 4096)?;
    passes(&rt, most.as_slice());
    let mut over = header(rt.alloc(), [1, 12, 4097, 18])?;
    over.extend_from_slice(b"\x01\x04\0\0\x10\0")?;
    add_times(&mut over, EXIT, 4097)?;
    refused(&rt, over.as_slice(), "header", 22, 4)?;
    // From instruction 1 on there are 4,095.
    let mut script = header(rt.alloc(), [1, 12, 4096, 18])?;
    script.extend_from_slice(b"\x01\x04\0\x01\x10\0")?;
    add_times(&mut script, EXIT, 4096)?;
    refused(&rt, script.as_slice(), "task row", 24, 12)
}

#[test]
fn bytes(rt: HostRuntime) -> Result<(), Fail> {
    // The task row is the book's last six bytes, and the empty section lies at its end.
    let mut most = header(rt.alloc(), [1, 65529, 0, 65535])?;
    add_times(&mut most, b"\0", 65517)?;
    add_tasks(&mut most, 1)?;
    assert!(rt; most.len() == 65535);
    passes(&rt, most.as_slice());
    most.push(0)?;
    refused(&rt, most.as_slice(), "header", 21, 0)
}
