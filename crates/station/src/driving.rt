//! A whole list of calls, from power-up on.

ghost use Rattle.std.specs.Prelude.{◌≡◌, min, length, take, drop};
ghost use Rattle.laws.specs.Runs.{Ran};
ghost use Rattle.station.specs.Views.{setup_in, seen};

use crate::cold::Cold;
use crate::live::Live;
use book::Book;
use roll::Roll;
use rules::{Answer, Call};
use sheet::Event;

// The station after a list of calls, and how many were made.
pub struct Driven<R> {
    pub live: Live<R>,
    pub made: usize,
}

// Powers a station up and makes the calls, each once and in order, on the same sheet, as many as there is room for
// answers; the answers stand at the front of `answers` then.
pub fn drive<R: Roll>(
    cold: Cold<R>,
    book: Book<'_>,
    calls: &[Call],
    sheet: &mut [Event],
    answers: &mut [Answer],
) -> Driven<R>
    ensures made { result.made ≡ min (length calls.now) (length answers.old) }
    ensures setup { (seen R.Roll.meaning R.Roll.LEVER result.live).setup ≡ setup_in R.Roll.LEVER book.entry.bytes.now }
    ensures ran { Ran (setup_in R.Roll.LEVER book.entry.bytes.now) (take result.made calls.now) (take result.made answers.new) (seen R.Roll.meaning R.Roll.LEVER result.live).state }
    ensures rest { drop result.made answers.new ≡ drop result.made answers.old }
{
    let mut live = cold.power_up(book);
    let made = calls.len().min(answers.len());
    // By the index: no clause says what a loop over `answers.iter_mut()` and the calls side by side has written.
    for i in 0..made {
        answers[i] = live.perform(calls[i], sheet);
    }
    Driven { live, made }
}
