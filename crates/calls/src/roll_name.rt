//! The rolls by their names.

use std::error::Error;
use std::fmt;
use std::str::FromStr;

/// A roll that the first argument can name.
#[derive(Clone, Copy, PartialEq, Eq, Debug)]
pub enum RollName {
    Packed,
    Stamped,
    LeverPacked,
    LeverStamped,
}

/// The first argument names no roll, or there is none.
#[derive(Clone, Copy, PartialEq, Eq, Debug)]
pub struct UnknownRoll;

impl FromStr for RollName {
    type Err = UnknownRoll;

    fn from_str(name: &str) -> Result<RollName, UnknownRoll> {
        match name {
            "packed" => Ok(RollName::Packed),
            "stamped" => Ok(RollName::Stamped),
            "lever-packed" => Ok(RollName::LeverPacked),
            "lever-stamped" => Ok(RollName::LeverStamped),
            _ => Err(UnknownRoll),
        }
    }
}

impl fmt::Display for UnknownRoll {
    fn fmt<W: fmt::Write>(&self, f: &mut fmt::Formatter<W>) -> fmt::Result {
        f.write_str("name a roll: packed, stamped, lever-packed or lever-stamped")
    }
}

impl Error for UnknownRoll {}
