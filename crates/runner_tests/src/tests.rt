//! What the runner lists of a book, which is given as text: hexadecimal digits, spaces as one likes. The letters are
//! R 52, Q 51, A 41, D 44, T 54, C 43, P 50, S 53, G 47, H 48, U 55, W 57, K 4B, M 4D, X 58 and J 4A.

use lever::Lever;
use packed::Packed;
use runner::{Recorder, run};
use std::alloc::Global;
use std::process::Abort;
use std::test::Fail;

mod edges;
mod letters;
mod scripts;

/// The bytes that the digits name; what is no digit is passed over.
// The tests of the book have it too: a crate for one function of two crates of tests would be no plainer.
fn bytes_of(heap: Global, text: &str) -> Result<Vec<u8>, Fail> {
    let digits: String = text
        .chars()
        .filter(|c| c.is_ascii_hexdigit())
        .collect(heap)?;
    Ok(hex::decode(heap, digits.as_str())?)
}

/// The listing of these bytes is these lines.
fn shows(rt: &(impl Abort + AllocGlobal), bytes: &[u8], lines: &str) -> Result<(), Fail> {
    let mut recorder = Recorder {
        bytes: Vec::new(rt.alloc()),
    };
    run(Lever::new(Packed::new()), bytes, &mut recorder)?;
    assert!(rt; recorder.bytes.as_slice() == lines.as_bytes());
    Ok(())
}

/// The same of the bytes that the digits name.
fn lists(rt: &(impl Abort + AllocGlobal), digits: &str, lines: &str) -> Result<(), Fail> {
    shows(rt, bytes_of(rt.alloc(), digits)?.as_slice(), lines)
}
