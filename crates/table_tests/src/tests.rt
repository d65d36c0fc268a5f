use crate::target::Last;
use numbers::{Factor, Task};
use sheet::{Event, Kind};
use std::process::Abort;
use std::test::Fail;
use table::clock::Clock;
use table::entry::TableEntry;
use table::row::{self, Full};
use table::selection::Selection;
use table::timer::{Timer, TimerPlace};
use table::wake::{Phase, Wake, WakePlace};

const DAY: u32 = 86_400_000;

const NO_EVENT: Event = Event {
    kind: Kind::Runs,
    task: 0,
};

fn numbered(task: u8) -> Result<Task, Fail> {
    Ok(Task::new(task).ok_or("no such task")?)
}

fn timer(task: u8, wait: u32, cycle: u32) -> Result<Timer, Fail> {
    Ok(Timer::timer(numbered(task)?, Factor::within(16), wait, cycle))
}

fn delay(task: u8, wait: u32) -> Result<Timer, Fail> {
    Ok(Timer::delay(numbered(task)?, wait))
}

fn wake(task: u8, second: u32, cycle: u32) -> Result<Wake, Fail> {
    Ok(Wake::waiting(numbered(task)?, Factor::within(16), second, cycle))
}

fn beat<E: TableEntry>(
    places: &mut [E::Place],
    beat: E::Beat,
    target: &mut Last,
    sheet: &mut [Event],
) -> Result<usize, Fail> {
    if places.len() > sheet.len() {
        return Err(Fail::new("the sheet is short"));
    }
    Ok(row::beat::<E, Last>(places, beat, target, sheet))
}

// What `make` gives for each of these tasks, all accepted.
fn add_all<E: TableEntry, Make: Fn(u8) -> Result<E, Fail>>(
    places: &mut [E::Place],
    first: u8,
    last: u8,
    make: Make,
) -> Result<(), Fail>
    requires { Make.IsAlwaysCallable make }
{
    for task in first..=last {
        row::add::<E>(places, make(task)?)?;
    }
    Ok(())
}

// A timer of a beat.
fn soon(task: u8) -> Result<Timer, Fail> {
    timer(task, 1, 0)
}

// A wake at midnight.
fn at_midnight(task: u8) -> Result<Wake, Fail> {
    wake(task, 0, 0)
}

// The event at this place of the sheet.
fn told(rt: &impl Abort, sheet: &[Event], at: usize, word: &str, task: u8) -> Result<(), Fail> {
    let event = sheet.get(at).ok_or("the sheet is short")?;
    assert_eq!(rt; event.task, task);
    assert!(rt; event.kind.word() == word);
    Ok(())
}

// Starts of the tasks from 1 on, accepted one after the other, fill the sheet.
fn told_in_order(rt: &impl Abort, sheet: &[Event]) {
    assert!(rt; sheet.len() <= 127);
    for (event, task) in sheet.iter().zip(1..=127) {
        assert_eq!(rt; event.task, task);
        assert!(rt; event.kind.word() == "accepted");
    }
}

// A beat of both tables at midnight: the wakes tell in what the timers left of the sheet.
fn both(
    rt: &impl Abort,
    timers: &mut [TimerPlace],
    wakes: &mut [WakePlace],
    target: &mut Last,
    sheet: &mut [Event],
) -> Result<usize, Fail> {
    let fired = beat::<Timer>(timers, (), target, sheet)?;
    assert!(rt; fired <= sheet.len());
    let rung = beat::<Wake>(wakes, 0, target, &mut sheet[fired..])?;
    Ok(fired.saturating_add(rung))
}

#[test]
fn beats_of_one_entry(rt: HostRuntime) -> Result<(), Fail> {
    let mut places = [Timer::free(); 3];
    let mut sheet = [NO_EVENT; 3];
    let mut target = Last { task: 0 };
    row::add::<Timer>(&mut places, timer(1, 1, 1)?)?;
    row::add::<Timer>(&mut places, timer(2, 2, 3)?)?;
    row::add::<Timer>(&mut places, delay(3, 3)?)?;
    assert_eq!(rt; row::add::<Timer>(&mut places, timer(4, 4, 0)?), Err(Full));
    assert_eq!(rt; beat::<Timer>(&mut places, (), &mut target, &mut sheet)?, 1);
    told(&rt, &sheet, 0, "accepted", 1)?;
    assert_eq!(rt; beat::<Timer>(&mut places, (), &mut target, &mut sheet)?, 2);
    told(&rt, &sheet, 0, "missed", 1)?;
    told(&rt, &sheet, 1, "accepted", 2)?;
    assert_eq!(rt; beat::<Timer>(&mut places, (), &mut target, &mut sheet)?, 2);
    told(&rt, &sheet, 0, "accepted", 1)?;
    told(&rt, &sheet, 1, "wakened", 3)?;
    // The delay is gone, and its place is free.
    row::add::<Timer>(&mut places, timer(4, 1, 0)?)?;
    assert_eq!(rt; beat::<Timer>(&mut places, (), &mut target, &mut sheet)?, 2);
    told(&rt, &sheet, 1, "accepted", 4)?;
    assert_eq!(rt; beat::<Timer>(&mut places, (), &mut target, &mut sheet)?, 2);
    told(&rt, &sheet, 1, "accepted", 2)?;
    Ok(())
}

#[test]
fn longest_wait(rt: HostRuntime) -> Result<(), Fail> {
    let mut places = [Timer::free(); 1];
    let mut sheet = [NO_EVENT; 1];
    let mut target = Last { task: 0 };
    row::add::<Timer>(&mut places, timer(127, DAY, DAY)?)?;
    assert_eq!(rt; beat::<Timer>(&mut places, (), &mut target, &mut sheet)?, 0);
    assert_eq!(rt; places[0].wait, DAY - 1);
    places[0].wait = 2;
    assert_eq!(rt; beat::<Timer>(&mut places, (), &mut target, &mut sheet)?, 0);
    assert_eq!(rt; beat::<Timer>(&mut places, (), &mut target, &mut sheet)?, 1);
    assert_eq!(rt; places[0].wait, DAY);
    Ok(())
}

#[test]
fn full_tables(rt: HostRuntime) -> Result<(), Fail> {
    let mut timers = [Timer::free(); 64];
    add_all(&mut timers, 1, 64, soon)?;
    assert_eq!(rt; row::add::<Timer>(&mut timers, timer(65, 1, 0)?), Err(Full));
    let mut wakes = [Wake::free(); 32];
    add_all(&mut wakes, 1, 32, at_midnight)?;
    assert_eq!(rt; row::add::<Wake>(&mut wakes, wake(33, 0, 0)?), Err(Full));
    Ok(())
}

#[test]
fn removal_in_the_middle(rt: HostRuntime) -> Result<(), Fail> {
    let mut places = [Timer::free(); 4];
    let mut sheet = [NO_EVENT; 4];
    let mut target = Last { task: 0 };
    row::add::<Timer>(&mut places, timer(1, 1, 0)?)?;
    row::add::<Timer>(&mut places, timer(2, 1, 0)?)?;
    row::add::<Timer>(&mut places, delay(2, 1)?)?;
    row::add::<Timer>(&mut places, timer(4, 1, 0)?)?;
    // The timer of task 2 goes, and its delay, which has no factor, stays.
    assert_eq!(rt;
        row::remove::<Timer>(&mut places, Selection::Set { task: 2, factor: 0 }),
        0
    );
    assert_eq!(rt;
        row::remove::<Timer>(
            &mut places,
            Selection::Set {
                task: 2,
                factor: 16,
            },
        ),
        1
    );
    row::add::<Timer>(&mut places, timer(5, 1, 0)?)?;
    assert_eq!(rt; beat::<Timer>(&mut places, (), &mut target, &mut sheet)?, 4);
    told(&rt, &sheet, 0, "accepted", 1)?;
    told(&rt, &sheet, 1, "wakened", 2)?;
    told(&rt, &sheet, 2, "accepted", 4)?;
    told(&rt, &sheet, 3, "accepted", 5)?;
    assert_eq!(rt; beat::<Timer>(&mut places, (), &mut target, &mut sheet)?, 0);
    Ok(())
}

// Places that hold anything: only a task from 1 to 127 with a factor up to 16 is an entry.
fn place(task: u8, factor: u8) -> TimerPlace {
    TimerPlace {
        delay: false,
        task,
        factor,
        wait: 0,
        cycle: 7,
    }
}

#[test]
fn any_places(rt: HostRuntime) -> Result<(), Fail> {
    let mut places = [
        place(0, 0),
        place(128, 0),
        place(255, 255),
        place(1, 17),
        place(127, 255),
        place(127, 16),
    ];
    let mut sheet = [NO_EVENT; 6];
    let mut target = Last { task: 0 };
    assert_eq!(rt; beat::<Timer>(&mut places, (), &mut target, &mut sheet)?, 1);
    told(&rt, &sheet, 0, "accepted", 127)?;
    add_all(&mut places, 1, 5, soon)?;
    assert_eq!(rt; row::add::<Timer>(&mut places, timer(6, 1, 0)?), Err(Full));
    assert_eq!(rt; places[0].task, 127);
    Ok(())
}

#[test]
fn all_in_one_beat(rt: HostRuntime) -> Result<(), Fail> {
    let mut timers = [Timer::free(); 64];
    let mut wakes = [Wake::free(); 32];
    let mut sheet = [NO_EVENT; 96];
    let mut target = Last { task: 0 };
    add_all(&mut timers, 1, 64, soon)?;
    add_all(&mut wakes, 65, 96, at_midnight)?;
    assert_eq!(rt;
        both(&rt, &mut timers, &mut wakes, &mut target, &mut sheet)?,
        96
    );
    told_in_order(&rt, &sheet);
    // The timers are gone; the wakes are spent, and keep their places.
    assert_eq!(rt;
        both(&rt, &mut timers, &mut wakes, &mut target, &mut sheet)?,
        0
    );
    row::add::<Timer>(&mut timers, timer(1, 1, 0)?)?;
    assert_eq!(rt; row::add::<Wake>(&mut wakes, wake(1, 0, 0)?), Err(Full));
    assert_eq!(rt;
        row::remove::<Wake>(
            &mut wakes,
            Selection::Set {
                task: 65,
                factor: 16,
            },
        ),
        1
    );
    row::add::<Wake>(&mut wakes, wake(1, 0, 0)?)?;
    Ok(())
}

#[test]
fn wake_with_a_cycle(rt: HostRuntime) -> Result<(), Fail> {
    let mut places = [Wake::free(); 1];
    let mut sheet = [NO_EVENT; 1];
    let mut target = Last { task: 0 };
    row::add::<Wake>(&mut places, wake(9, 86_399, 2)?)?;
    assert_eq!(rt;
        beat::<Wake>(&mut places, 86_398, &mut target, &mut sheet)?,
        0
    );
    assert_eq!(rt;
        beat::<Wake>(&mut places, 86_399, &mut target, &mut sheet)?,
        1
    );
    assert_eq!(rt;
        beat::<Wake>(&mut places, 86_399, &mut target, &mut sheet)?,
        0
    );
    assert_eq!(rt; beat::<Wake>(&mut places, 0, &mut target, &mut sheet)?, 1);
    Ok(())
}

#[test]
fn midnight(rt: HostRuntime) {
    let mut clock = Clock::midnight();
    clock.set(86_399);
    // No second of the day: the clock stays.
    clock.set(86_400);
    for _ in 0..999 {
        assert_eq!(rt; clock.advance(), None);
    }
    assert_eq!(rt; clock.advance(), Some(0));
    for _ in 0..999 {
        assert_eq!(rt; clock.advance(), None);
    }
    assert_eq!(rt; clock.advance(), Some(1));
}
