// What is found by going through the entries once.
ghost use Rattle.std.specs.Prelude.{◌≡◌, ◌<◌, true, position};
ghost use Rattle.roll.specs.Tables.{none};
ghost use Rattle.roll.specs.Entries.{of?, count_of, levelled, all_good?};
ghost use Rattle.roll.specs.Firsts.{first_of};
ghost use Rattle.packed.specs.Scans.{taken as taken_of};

use roll::Entry;

// Where the oldest entry of the task stands.
pub(crate) fn place(es: &[Entry], task: u8) -> Option<usize>
    ensures { result ≡ position (of? task) es.now }
{
    es.iter().position(|e| e.task == task)
}

// How many entries of the task there are.
pub(crate) fn tally(es: &[Entry], task: u8) -> u8
    requires { count_of task es.now < 256 }
    ensures { result ≡ count_of task es.now }
{
    // A plain loop, since the compiler goes through the entries several at a time for it alone.
    let mut n = 0;
    for e in es {
        if e.task == task {
            n += 1;
        }
    }
    n
}

// The task of the oldest entry with the best level, of the awake ones that are the oldest of their task.
pub(crate) fn first(es: &[Entry]) -> Option<u8>
    requires { all_good? es.now ≡ true }
    ensures { result ≡ first_of none es.now }
{
    let mut seen = [false; 128];
    let mut best = None;
    for e in es {
        let t = e.task as usize;
        if !seen[t] {
            seen[t] = true;
            best = taken(best, *e);
        }
    }
    best.map(|e| e.task)
}

// The best so far, with one more entry.
fn taken(best: Option<Entry>, e: Entry) -> Option<Entry>
    ensures { result ≡ taken_of best e }
{
    match best {
        _ if e.asleep => best,
        Some(b) if b.level <= e.level => best,
        _ => Some(e),
    }
}

// Sets the level of all entries of the task.
pub(crate) fn set_level(es: &mut [Entry], task: u8, level: u8)
    ensures { es.new ≡ levelled task level es.old }
{
    for e in es.iter_mut() {
        if e.task == task {
            e.level = level;
        }
    }
}
