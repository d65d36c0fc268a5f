//! Makes calls on a station, one a line, over the roll that the first argument names.

#![tactic(auto)]

mod order;
mod roll_name;
mod text;

use book::Book;
use lever::Lever;
use order::{LONGEST_SHEET, read_order};
use packed::Packed;
use roll::Roll;
use roll_name::{RollName, UnknownRoll};
use rules::Answer;
use sheet::{Event, Kind};
use stamped::Stamped;
use station::{Cold, Live};
use std::alloc::{AllocError, Global};
use std::env;
use std::fmt::Write as _;
use std::io::{Read, Write};
use text::read_hex;

// The line of an answer: code, factor, and each event's word and task.
fn answer_line(heap: Global, answer: Answer, sheet: &[Event]) -> Result<String, AllocError> {
    let mut line = format!(in heap; "{} {}", u8::from(answer.code), answer.factor)?;
    for event in sheet.iter().take(answer.told) {
        write!(line, " {event}")?;
    }
    line.push('\n')?;
    Ok(line)
}

// Makes the calls of the later lines, and tells what each answered.
fn make_calls<R: Roll>(
    rt: &HostRuntime,
    live: &mut Live<R>,
    text: &[u8],
    sheet: &mut [Event],
) -> anyhow::Result<()> {
    let heap = rt.alloc();
    let mut out = rt.stdout();
    for (n, line) in text.split(|b| *b == b'\n').enumerate().skip(1) {
        let told = match read_order(line) {
            Some(order) => {
                let room = order.room.min(sheet.len());
                let answer = live.perform(order.call, &mut sheet[..room]);
                answer_line(heap, answer, sheet)?
            }
            None => format!(in heap; "line {}: not a call\n", n.saturating_add(1))?,
        };
        out.write_all(told.as_str().as_bytes())?;
    }
    Ok(())
}

// A station from power-up to its end, which comes also where its answers cannot be written.
fn play<R: Roll + Drop>(
    rt: &HostRuntime,
    roll: R,
    book: Book<'_>,
    text: &[u8],
) -> anyhow::Result<()> {
    let nothing = Event {
        kind: Kind::Accepted,
        task: 0,
    };
    let mut sheet = [nothing; LONGEST_SHEET];
    let mut live = Cold::new(roll).power_up(book);
    let made = make_calls(rt, &mut live, text, &mut sheet);
    let left = live.stop();
    made?;
    println!(rt; "left {left}")?;
    Ok(())
}

// A station over the roll that a name names, with the book that stands in the first line.
fn run(rt: &HostRuntime, name: &str, text: &[u8]) -> anyhow::Result<()> {
    let first = text.split(|b| *b == b'\n').next().unwrap_or(b"");
    let Some(bytes) = read_hex(rt.alloc(), first)? else {
        rt.println("line 1: not a book in hexadecimal")?;
        return Ok(());
    };
    let book = match Book::read(bytes.as_slice()) {
        Ok(book) => book,
        Err(fault) => {
            rt.println(fault)?;
            return Ok(());
        }
    };
    match name.parse()? {
        RollName::Packed => play(rt, Packed::new(), book, text),
        RollName::Stamped => play(rt, Stamped::new(), book, text),
        RollName::LeverPacked => play(rt, Lever::new(Packed::new()), book, text),
        RollName::LeverStamped => play(rt, Lever::new(Stamped::new()), book, text),
    }
}

fn main(rt: HostRuntime) -> anyhow::Result<()> {
    let name = env::args(&rt)?.nth(1).ok_or(UnknownRoll)?;
    let mut input = Vec::new(rt.alloc());
    rt.stdin().read_to_end(&mut input)?;
    let text = input.as_slice();
    run(&rt, name.as_str(), text.strip_suffix(b"\n").unwrap_or(text))
}
