//! From a line to a call and the length of its sheet.

use crate::text::number;
use arrayvec::ArrayVec;
use rules::{Call, LEAST_SHEET, Macro};

// The longest sheet that can be asked for.
pub const LONGEST_SHEET: usize = 200;

// One word more than the longest order has: a sheet, a name and four fields.
const MOST_WORDS: usize = 7;

#[derive(Clone, Copy)]
pub struct Order {
    pub room: usize,
    pub call: Call,
}

// The order in a line, or none where the line is no call. Its words take no heap, since only so many are looked at.
pub fn read_order(line: &[u8]) -> Option<Order> {
    let mut words = ArrayVec::<&[u8], MOST_WORDS>::new();
    words
        .extend(line.split(|b| *b == b' ').take(MOST_WORDS))
        .ok()?;
    let words = words.as_slice();
    let (first, others) = words.split_first()?;
    let (room, call) = match number(first) {
        Some(room) => (room, others),
        None => (LEAST_SHEET, words),
    };
    if room > LONGEST_SHEET {
        return None;
    }
    Some(Order {
        room,
        call: call_of(call)?,
    })
}

fn call_of(words: &[&[u8]]) -> Option<Call> {
    Some(match words {
        [b"tick"] => Call::Tick,
        [b"coil", task] => Call::Coil {
            task: number(task)?,
        },
        _ => Call::Macro(macro_of(words)?),
    })
}

fn macro_of(words: &[&[u8]]) -> Option<Macro> {
    Some(match words {
        [b"gfact"] => Macro::Gfact,
        [b"exit"] => Macro::Exit,
        [b"delay", t] => Macro::Delay { t: number(t)? },
        [b"stime", second] => Macro::Stime {
            second: number(second)?,
        },
        [b"rleas", task] => Macro::Rleas {
            task: number(task)?,
        },
        [b"abort", task] => Macro::Abort {
            task: number(task)?,
        },
        [b"susp", task] => Macro::Susp {
            task: number(task)?,
        },
        [b"rsum", task] => Macro::Rsum {
            task: number(task)?,
        },
        [name, task, fields @ ..] => longer_macro(name, number(task)?, fields)?,
        _ => return None,
    })
}

// The macros that have more fields behind the task.
fn longer_macro(name: &[u8], task: u8, fields: &[&[u8]]) -> Option<Macro> {
    Some(match (name, fields) {
        (b"queue", [factor]) => Macro::Queue {
            task,
            factor: number(factor)?,
        },
        (b"ctime", [factor]) => Macro::Ctime {
            task,
            factor: number(factor)?,
        },
        (b"chap", [level]) => Macro::Chap {
            task,
            level: number(level)?,
        },
        (b"sfact", [factor]) => Macro::Sfact {
            task,
            factor: number(factor)?,
        },
        (b"cwake", [factor]) => Macro::Cwake {
            task,
            factor: number(factor)?,
        },
        (b"timer", [t, cycle, factor]) => Macro::Timer {
            task,
            t: number(t)?,
            cycle: number(cycle)?,
            factor: number(factor)?,
        },
        (b"wake", [factor, second, cycle]) => Macro::Wake {
            task,
            factor: number(factor)?,
            second: number(second)?,
            cycle: number(cycle)?,
        },
        _ => return None,
    })
}
