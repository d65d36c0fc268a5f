use super::Plain;
use super::calls::{Answer, Call};
use super::lists::{EMPTIED, HOLDS, IN_USE, NO_LEVEL, REFUSED, Step, TWO_LEVELS};
use lever::Lever;
use packed::Packed;
use roll::Roll;
use stamped::Stamped;
use std::alloc::Global;
use std::process::Abort;
use std::test::Fail;

// Numbers in and out of range, those of few tasks more often, so that they meet.
const TASKS: [u8; 16] = [1, 2, 3, 4, 5, 1, 2, 3, 4, 126, 127, 0, 128, 255, 64, 65];

const LEVELS: [u8; 8] = [0, 1, 2, 3, 4, 2, 5, 255];

// A linear generator of calls.
#[derive(Clone, Copy)]
struct Source {
    state: u32,
}

impl Source {
    fn number(&mut self) -> usize {
        self.state = self.state.wrapping_mul(1664525).wrapping_add(1013904223);
        (self.state >> 16) as usize
    }

    fn call(&mut self) -> Call {
        let task = TASKS[self.number() % 16];
        let level = LEVELS[self.number() % 8];
        match self.number() % 16 {
            0..=4 => Call::Add(task, level),
            5 => Call::End(task),
            6 => Call::Clear(task),
            7 | 8 => Call::Sleep(task),
            9 | 10 => Call::Rouse(task),
            11 => Call::SetLevel(task, level),
            12 => Call::First,
            13 => Call::Count(task),
            14 => Call::Hold(task),
            _ => Call::Unhold(task),
        }
    }
}

// Asks a roll.
fn ask<R: Roll>(roll: &mut R, call: Call) -> Answer {
    match call {
        Call::Add(task, level) => Answer::Done(roll.add(task, level)),
        Call::End(task) => Answer::Done(roll.end(task)),
        Call::Clear(task) => Answer::Number(roll.clear(task)),
        Call::Sleep(task) => Answer::Done(roll.sleep(task)),
        Call::Rouse(task) => Answer::Done(roll.rouse(task)),
        Call::SetLevel(task, level) => Answer::Done(roll.set_level(task, level)),
        Call::First => Answer::Task(roll.first()),
        Call::Count(task) => Answer::Number(roll.count(task)),
        Call::Hold(task) => Answer::Done(roll.hold(task)),
        Call::Unhold(task) => Answer::Done(roll.unhold(task)),
    }
}

// Asks the roll and the plain list, and wants the same answer.
fn agree<R: Roll>(
    rt: &impl Abort,
    roll: &mut R,
    plain: &mut Plain,
    call: Call,
) -> Result<(), Fail> {
    assert_eq!(rt; ask(roll, call), plain.ask(call)?);
    Ok(())
}

// A long list of calls, and after each of them who is first.
fn any_calls<R: Roll>(rt: &impl Abort, heap: Global, roll: &mut R, seed: u32) -> Result<(), Fail> {
    let mut plain = Plain::new(heap, R::LEVER);
    let mut source = Source { state: seed };
    for _ in 0..20_000 {
        agree(rt, roll, &mut plain, source.call())?;
        agree(rt, roll, &mut plain, Call::First)?;
    }
    drained(rt, roll, &mut plain)
}

// Ends one first after another, so that the whole order is seen.
fn drained<R: Roll>(rt: &impl Abort, roll: &mut R, plain: &mut Plain) -> Result<(), Fail> {
    for task in 1..=127 {
        agree(rt, roll, plain, Call::Rouse(task))?;
        agree(rt, roll, plain, Call::Unhold(task))?;
    }
    for _ in 0..255 {
        agree(rt, roll, plain, Call::First)?;
        if let Some(task) = roll.first() {
            agree(rt, roll, plain, Call::End(task))?;
        }
    }
    assert_eq!(rt; roll.first(), None);
    Ok(())
}

#[test]
fn long_lists_of_any_calls(rt: HostRuntime) -> Result<(), Fail> {
    any_calls(&rt, rt.alloc(), &mut Packed::new(), 1)?;
    any_calls(&rt, rt.alloc(), &mut Stamped::new(), 1)?;
    any_calls(&rt, rt.alloc(), &mut Lever::new(Packed::new()), 1)?;
    any_calls(&rt, rt.alloc(), &mut Lever::new(Stamped::new()), 1)?;
    any_calls(
        &rt,
        rt.alloc(),
        &mut Lever::new(Lever::new(Packed::new())),
        1,
    )?;
    any_calls(
        &rt,
        rt.alloc(),
        &mut Lever::new(Lever::new(Stamped::new())),
        2,
    )
}

// More adds than there are stamps. The entry of 9 stands throughout, and every 8,000th add is one
// that stays, so that entries of all ages are there when the stamps are given anew.
fn many_adds<R: Roll>(rt: &impl Abort, heap: Global, roll: &mut R) -> Result<(), Fail> {
    let mut plain = Plain::new(heap, R::LEVER);
    agree(rt, roll, &mut plain, Call::Add(9, 2))?;
    for i in 0..70_000u32 {
        agree(rt, roll, &mut plain, Call::Add(1, 2))?;
        agree(rt, roll, &mut plain, Call::First)?;
        agree(rt, roll, &mut plain, Call::End(1))?;
        if i % 8_000 == 0 {
            agree(rt, roll, &mut plain, Call::Add(10 + (i / 8_000) as u8, 2))?;
        }
    }
    assert_eq!(rt; roll.first(), Some(9));
    agree(rt, roll, &mut plain, Call::Add(9, 0))?;
    drained(rt, roll, &mut plain)
}

#[test]
fn more_adds_than_stamps(rt: HostRuntime) -> Result<(), Fail> {
    many_adds(&rt, rt.alloc(), &mut Packed::new())?;
    many_adds(&rt, rt.alloc(), &mut Stamped::new())?;
    many_adds(&rt, rt.alloc(), &mut Lever::new(Stamped::new()))
}

// Asks for each step, and wants its answer.
fn steps<R: Roll>(rt: &impl Abort, roll: &mut R, list: &[Step]) {
    for step in list {
        assert_eq!(rt; ask(roll, step.0), step.1);
    }
}

// What every call answers for a number that is no task's.
fn for_no_task(task: u8) -> [Step; 9] {
    [
        (Call::Add(task, 0), REFUSED),
        (Call::SetLevel(task, 0), REFUSED),
        (Call::End(task), REFUSED),
        (Call::Sleep(task), REFUSED),
        (Call::Rouse(task), REFUSED),
        (Call::Hold(task), REFUSED),
        (Call::Unhold(task), REFUSED),
        (Call::Clear(task), Answer::Number(0)),
        (Call::Count(task), Answer::Number(0)),
    ]
}

fn any_roll<R: Roll>(rt: &impl Abort, roll: &mut R) {
    assert_eq!(rt; roll.hold(1).is_ok(), R::LEVER);
    assert_eq!(rt; roll.unhold(1).is_ok(), R::LEVER);
    steps(rt, roll, &TWO_LEVELS);
    for task in [0, 128, 255] {
        steps(rt, roll, &for_no_task(task));
    }
    steps(rt, roll, &NO_LEVEL);
}

#[test]
fn levels_of_entries_and_ranges(rt: HostRuntime) {
    any_roll(&rt, &mut Packed::new());
    any_roll(&rt, &mut Stamped::new());
    any_roll(&rt, &mut Lever::new(Packed::new()));
    any_roll(&rt, &mut Lever::new(Stamped::new()));
    any_roll(&rt, &mut Lever::new(Lever::new(Packed::new())));
}

#[test]
fn holds_of_a_lever(rt: HostRuntime) {
    steps(&rt, &mut Lever::new(Packed::new()), &HOLDS);
    steps(&rt, &mut Lever::new(Stamped::new()), &HOLDS);
    steps(&rt, &mut Lever::new(Lever::new(Stamped::new())), &HOLDS);
}

#[test]
fn a_lever_on_a_roll_in_use(rt: HostRuntime) {
    let mut used = Lever::new(Packed::new());
    steps(&rt, &mut used, &IN_USE);
    let mut copy = used;
    steps(&rt, &mut Lever::new(used), &EMPTIED);
    // A copy is a roll of its own.
    assert_eq!(rt; copy.first(), Some(2));
    assert!(rt; copy.unhold(1).is_ok());
    assert_eq!(rt; copy.first(), Some(1));
}
