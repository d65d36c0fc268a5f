//! A live station whose tasks follow their scripts.

use crate::positions::Positions;
use station::Live;

pub struct ScriptedStation<R> {
    station: Live<R>,
    positions: Positions,
}

mod calls;
mod power;
mod rows;
