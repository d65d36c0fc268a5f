//! Numbers and hexadecimal digits of the input.

use hex::FromHex;
use std::alloc::{AllocError, Global};
use std::str;
use std::str::FromStr;

// The bytes that pairs of hexadecimal digits name, with spaces between the pairs as one likes; none where the line is
// no such text. Each byte goes into the one vector as soon as its pair is read.
pub fn read_hex(heap: Global, line: &[u8]) -> Result<Option<Vec<u8>>, AllocError> {
    let mut bytes = Vec::new(heap);
    let mut rest = line;
    loop {
        match rest {
            [] => return Ok(Some(bytes)),
            [b' ', more @ ..] => rest = more,
            [high, low, more @ ..] => {
                let Ok(byte) = <[u8; 1]>::from_hex([*high, *low]) else {
                    return Ok(None);
                };
                bytes.push(byte[0])?;
                rest = more;
            }
            _ => return Ok(None),
        }
    }
}

// A decimal number of one to ten digits, without a sign.
pub fn number<T: FromStr>(word: &[u8]) -> Option<T>
where
    T::Err: Drop,
{
    if word.len() > 10 || !word.iter().all(|b| b.is_ascii_digit()) {
        return None;
    }
    str::from_utf8(word).ok()?.parse().ok()
}
