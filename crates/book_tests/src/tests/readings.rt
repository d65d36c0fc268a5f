//! What a book hands out.

use super::bytes_of;
use book::{Book, Letter};
use std::test::Fail;

// Tasks 5 and 1, then a gap of two bytes, then three instructions: A of task 5, D and X of task 1. 7 steps.
const BOOK: &str = "
    0002 000C 0003 001A 00000007
    05 03 0000 0001
    01 02 0001 0002
    FFFF
    41 05 00 00 00000001 00000002
    44 00 00 00 00000003 00000004
    58 00 00 00 00000005 00000006";

#[test]
fn tasks(rt: HostRuntime) -> Result<(), Fail> {
    let bytes = bytes_of(rt.alloc(), BOOK)?;
    let book = Book::read(bytes.as_slice())?;
    assert_eq!(rt; book.task_count(), 2);
    assert_eq!(rt; book.steps(), 7);
    assert!(rt;
        book.registered(1) && book.registered(5) && !book.registered(2) && !book.registered(0)
    );
    assert!(rt; book.level(1) == 2 && book.level(5) == 3 && book.level(2) == 0);
    assert!(rt;
        book.script_length(1) == 2 && book.script_length(5) == 1 && book.script_length(2) == 0
    );
    assert!(rt; book.task(2).is_none());
    let Some(row) = book.task(1) else {
        return Err(Fail::new("task 1 has a row"));
    };
    assert!(rt; row.number == 1 && row.level == 2 && row.first == 1 && row.length == 2);
    Ok(())
}

#[test]
fn rows(rt: HostRuntime) -> Result<(), Fail> {
    let bytes = bytes_of(rt.alloc(), BOOK)?;
    let book = Book::open(bytes.as_slice());
    assert!(rt; book.row(5, 0) == Some(b"A\x05\0\0\0\0\0\x01\0\0\0\x02".as_slice()));
    assert!(rt; book.row(1, 0) == Some(b"D\0\0\0\0\0\0\x03\0\0\0\x04".as_slice()));
    assert!(rt; book.row(1, 1) == Some(b"X\0\0\0\0\0\0\x05\0\0\0\x06".as_slice()));
    // Beyond the script there is none, though the book has instructions there.
    assert!(rt; book.row(5, 1).is_none() && book.row(1, 2).is_none());
    assert!(rt; book.row(1, 65536).is_none() && book.row(1, 0xFFFF_FFFF).is_none());
    assert!(rt; book.row(2, 0).is_none() && book.row(0, 0).is_none() && book.row(255, 0).is_none());
    Ok(())
}

#[test]
fn blank(rt: HostRuntime) -> Result<(), Fail> {
    // Task 1 at level 5, which is refused.
    let bytes = bytes_of(rt.alloc(), "0001 000C 0000 0012 00000009 01 05 0000 0000")?;
    let Err(fault) = Book::read(bytes.as_slice()) else {
        return Err(Fail::new("level 5 is refused"));
    };
    assert!(rt; u8::from(fault.cause) == 24 && fault.place == 12);
    let book = Book::open(bytes.as_slice());
    assert!(rt; book.task_count() == 1 && book.steps() == 0);
    assert!(rt; book.registered(1) && !book.registered(2));
    assert!(rt; book.level(1) == 4 && book.script_length(1) == 0 && book.row(1, 0).is_none());
    assert!(rt; Book::open(b"").level(1) == 4);
    assert!(rt; Book::blank().level(1) == 4);
    Ok(())
}

#[test]
fn letters(rt: HostRuntime) {
    let mut known = 0u16;
    for byte in 0..=255u8 {
        if let Ok(letter) = Letter::try_from(byte) {
            assert_eq!(rt; u8::from(letter), byte);
            known = known.wrapping_add(1);
        }
    }
    assert_eq!(rt; known, 16);
    for byte in b"RQADTCPSGHUWKMXJ" {
        assert!(rt; Letter::try_from(*byte).is_ok());
    }
}

#[test]
fn told(rt: HostRuntime) -> Result<(), Fail> {
    // Task 1 at level 5, which is refused.
    let bytes = bytes_of(rt.alloc(), "0001 000C 0000 0012 00000009 01 05 0000 0000")?;
    let Err(fault) = Book::read(bytes.as_slice()) else {
        return Err(Fail::new("level 5 is refused"));
    };
    assert!(rt; format!(in rt.alloc(); "{fault}")?.as_str() == "book 24 12");
    assert!(rt; format!(in rt.alloc(); "{}", fault.layer)?.as_str() == "task row");
    Ok(())
}
