//! The letter that an instruction row begins with.

ghost use Rattle.std.specs.Prelude.{◌≡◌, ◌++◌, codes, decimal, Some};
ghost use Rattle.book.specs.Letters.{byte_of, letter_of, Reads};

use std::error::Error;
use std::fmt;

/// What an instruction does: a macro of the station, or a jump within the script. Its number is its byte in a book.
#[derive(Clone, Copy, Debug, PartialEq, Eq)]
pub enum Letter {
    Rleas = b'R' as isize,
    Queue = b'Q' as isize,
    Abort = b'A' as isize,
    Delay = b'D' as isize,
    Timer = b'T' as isize,
    Ctime = b'C' as isize,
    Chap = b'P' as isize,
    Sfact = b'S' as isize,
    Gfact = b'G' as isize,
    Susp = b'H' as isize,
    Rsum = b'U' as isize,
    Wake = b'W' as isize,
    Cwake = b'K' as isize,
    Stime = b'M' as isize,
    Exit = b'X' as isize,
    Jump = b'J' as isize,
}

/// A byte that stands for no letter.
#[derive(Clone, Copy, Debug, PartialEq, Eq)]
pub struct UnknownLetter(pub u8);

/// The byte that stands for the letter in a book.
impl From<Letter> for u8 {
    ghost from_gives = { λ letter byte. (byte ≡ byte_of letter) × (letter_of byte ≡ Some letter) };

    fn from(letter: Letter) -> u8 {
        letter as u8
    }
}

/// The letter that a byte stands for, if any.
impl TryFrom<u8> for Letter {
    type Error = UnknownLetter;

    ghost try_from_gives = { Reads };

    fn try_from(byte: u8) -> Result<Letter, UnknownLetter> {
        match byte {
            b'R' => Ok(Letter::Rleas),
            b'Q' => Ok(Letter::Queue),
            b'A' => Ok(Letter::Abort),
            b'D' => Ok(Letter::Delay),
            b'T' => Ok(Letter::Timer),
            b'C' => Ok(Letter::Ctime),
            b'P' => Ok(Letter::Chap),
            b'S' => Ok(Letter::Sfact),
            b'G' => Ok(Letter::Gfact),
            b'H' => Ok(Letter::Susp),
            b'U' => Ok(Letter::Rsum),
            b'W' => Ok(Letter::Wake),
            b'K' => Ok(Letter::Cwake),
            b'M' => Ok(Letter::Stime),
            b'X' => Ok(Letter::Exit),
            b'J' => Ok(Letter::Jump),
            _ => Err(UnknownLetter(byte)),
        }
    }
}

impl fmt::Display for UnknownLetter {
    ghost output = { λ e. Some (codes "no letter has byte " ++ decimal e.0) };

    fn fmt<W: fmt::Write>(&self, f: &mut fmt::Formatter<W>) -> fmt::Result {
        write!(f, "no letter has byte {}", self.0)
    }
}

impl Error for UnknownLetter {}
