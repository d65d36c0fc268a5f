//! What the check tells of a book, which is given as text: hexadecimal digits, spaces as one likes.

use std::alloc::Global;
use std::process::Abort;
use std::test::Fail;

mod edges;
mod long;
mod order;
mod readings;

/// The bytes that the digits name; what is no digit is passed over.
fn bytes_of(heap: Global, text: &str) -> Result<Vec<u8>, Fail> {
    let digits: String = text
        .chars()
        .filter(|c| c.is_ascii_hexdigit())
        .collect(heap)?;
    Ok(hex::decode(heap, digits.as_str())?)
}

/// The book in these bytes has no fault.
fn passes(rt: &impl Abort, bytes: &[u8]) {
    assert!(rt; book::check(bytes).is_ok());
}

/// A fault of the book in these bytes is told: its layer, its number and its place.
fn refused(
    rt: &impl Abort,
    bytes: &[u8],
    layer: &str,
    number: u8,
    place: usize,
) -> Result<(), Fail> {
    let Err(fault) = book::check(bytes) else {
        return Err(Fail::new("the book passes"));
    };
    assert_eq!(rt; u8::from(fault.cause), number);
    assert_eq!(rt; fault.place, place);
    assert_eq!(rt; fault.layer.word(), layer);
    Ok(())
}

/// The book in this text has no fault.
fn text_passes(rt: &(impl Abort + AllocGlobal), text: &str) -> Result<(), Fail> {
    passes(rt, bytes_of(rt.alloc(), text)?.as_slice());
    Ok(())
}

/// A fault of the book in this text is told.
fn text_refused(
    rt: &(impl Abort + AllocGlobal),
    text: &str,
    layer: &str,
    number: u8,
    place: usize,
) -> Result<(), Fail> {
    refused(
        rt,
        bytes_of(rt.alloc(), text)?.as_slice(),
        layer,
        number,
        place,
    )
}
