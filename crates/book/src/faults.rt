//! What can be wrong with a book, and how it is told.

ghost use Rattle.std.specs.Prelude.{◌≡◌, Some};
ghost use Rattle.book.specs.Faults.{number_of, word_of, fault, text_of};

use std::error::Error;
use std::fmt;

/// The part of a book that a fault is in.
#[derive(Clone, Copy, Debug, PartialEq, Eq)]
pub enum Layer {
    Header,
    Task,
    Instruction,
}

impl Layer {
    /// The words for the layer.
    pub fn word(self) -> &'static str
        ensures { result.now ≡ word_of self }
    {
        match self {
            Layer::Header => "header",
            Layer::Task => "task row",
            Layer::Instruction => "instruction row",
        }
    }
}

impl fmt::Display for Layer {
    ghost output = { λ layer. Some (word_of layer) };

    fn fmt<W: fmt::Write>(&self, f: &mut fmt::Formatter<W>) -> fmt::Result {
        f.write_str(self.word())
    }
}

/// Why a book is refused, each with the number under which the cause is known outside.
#[derive(Clone, Copy, Debug, PartialEq, Eq)]
pub enum Cause {
    /// It has fewer bytes than a header, or more than 16 bits can address.
    Size = 21,
    /// A count, or the steps, is out of its range.
    Range = 22,
    /// A section lies outside the book or over the other one.
    Sections = 23,
    /// A task row has a number, a level or a script that it may not have.
    BadTask = 24,
    /// No row is for task 1, with which every station begins.
    NoTaskOne = 25,
    /// An instruction row has an unknown letter, or its fourth byte is not 0.
    BadInstruction = 26,
}

impl From<Cause> for u8 {
    ghost from_gives = { λ cause number. number ≡ number_of cause };

    fn from(cause: Cause) -> u8 {
        cause as u8
    }
}

impl Cause {
    /// The fault of this cause at a byte place.
    pub(crate) fn at(self, place: u32) -> Fault
        ensures { result ≡ fault self place }
    {
        let layer = match self {
            Cause::Size | Cause::Range | Cause::Sections => Layer::Header,
            Cause::BadTask | Cause::NoTaskOne => Layer::Task,
            Cause::BadInstruction => Layer::Instruction,
        };
        Fault {
            cause: self,
            place: place as usize,
            layer,
        }
    }
}

/// One fault of a book: why, at which byte, and in which layer.
#[derive(Clone, Copy, Debug, PartialEq, Eq)]
pub struct Fault {
    pub cause: Cause,
    pub place: usize,
    pub layer: Layer,
}

impl fmt::Display for Fault {
    ghost output = { λ fault. Some (text_of fault) };

    fn fmt<W: fmt::Write>(&self, f: &mut fmt::Formatter<W>) -> fmt::Result {
        let number = u8::from(self.cause);
        let place = self.place;
        write!(f, "book {number} {place}")
    }
}

impl Error for Fault {}
