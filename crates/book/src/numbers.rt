//! Numbers in bytes, big-endian. A byte past the end reads as 0.
//!
//! The place of a number has 32 bits, so that the bytes behind it have places too. The two widths stand apart: each is
//! one call of the library, and one function for both would need a trait with that call.

ghost use Rattle.std.specs.Prelude.{◌≡◌, slice_index};
ghost use Rattle.book.specs.Numbers.{be16, be32};

/// The byte at a place.
pub fn byte_at(bytes: &[u8], place: usize) -> u8
    ensures { result ≡ slice_index bytes.now place }
{
    bytes.get(place).copied().unwrap_or(0)
}

/// The 16 bits at a place.
pub fn u16_at(bytes: &[u8], place: u32) -> u16
    ensures { result ≡ be16 bytes.now place }
{
    let place = place as usize;
    u16::from_be_bytes([byte_at(bytes, place), byte_at(bytes, place + 1)])
}

/// The 32 bits at a place.
pub fn u32_at(bytes: &[u8], place: u32) -> u32
    ensures { result ≡ be32 bytes.now place }
{
    let place = place as usize;
    u32::from_be_bytes([
        byte_at(bytes, place),
        byte_at(bytes, place + 1),
        byte_at(bytes, place + 2),
        byte_at(bytes, place + 3),
    ])
}
