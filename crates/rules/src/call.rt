//! What can be asked of a station.

// What a task asks for while it has the processor.
#[derive(Clone, Copy, PartialEq, Eq, Debug)]
pub enum Macro {
    // A dormant task is released: it takes starts from now on.
    Rleas {
        task: u8,
    },
    // A start of a task, with a factor.
    Queue {
        task: u8,
        factor: u8,
    },
    // All starts of a task are cut, and it is dormant.
    Abort {
        task: u8,
    },
    // The issuer sleeps for t milliseconds.
    Delay {
        t: u32,
    },
    // Starts of a task: after t milliseconds, and then at each cycle.
    Timer {
        task: u8,
        t: u32,
        cycle: u32,
        factor: u8,
    },
    // All timers of a task and a factor go.
    Ctime {
        task: u8,
        factor: u8,
    },
    // The present level of a task changes.
    Chap {
        task: u8,
        level: u8,
    },
    // A factor of a task is set.
    Sfact {
        task: u8,
        factor: u8,
    },
    // The issuer's smallest factor is taken and answered.
    Gfact,
    // A task is held: it does not run.
    Susp {
        task: u8,
    },
    // A task's hold ends.
    Rsum {
        task: u8,
    },
    // Starts of a task: at a second of the day, and then at each cycle, in seconds.
    Wake {
        task: u8,
        factor: u8,
        second: u32,
        cycle: u32,
    },
    // All wakes of a task and a factor go.
    Cwake {
        task: u8,
        factor: u8,
    },
    // The clock is set to the beginning of a second of the day.
    Stime {
        second: u32,
    },
    // The issuer's current start is ended.
    Exit,
}

// Every call of a live station. The last two are the host's.
#[derive(Clone, Copy, PartialEq, Eq, Debug)]
pub enum Call {
    Macro(Macro),
    // One millisecond passes.
    Tick,
    // A contact of the cabinet closes: a start of a task without a factor.
    Coil { task: u8 },
}
