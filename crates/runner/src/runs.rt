//! A whole run: from the bytes of a book to the bytes of its listing.

ghost use Rattle.std.specs.Prelude.{◌≡◌, OnOk};
ghost use Rattle.book.specs.Reader.{steps_in};
ghost use Rattle.runner.specs.Lines.{lines_of_events};
ghost use Rattle.runner.specs.Scripts.{stepped};
ghost use Rattle.runner.specs.Lives.{Lives};
ghost use Rattle.runner.specs.Listing.{powered_up, progress_after, step_lines, run_lines, listing};
ghost use Rattle.runner.specs.Views.{progress_in};
ghost use Rattle.runner.specs.Sinks.{Took};

use crate::buffer::BufferedSink;
use crate::line::{fault_line, left_line};
use crate::scripted::ScriptedStation;
use crate::sink::Sink;
use book::Book;
use roll::Roll;
use rules::LEAST_SHEET;
use sheet::{Event, Kind};

// One step: the task with the processor, if any, does a row or exits, and then a millisecond passes. The book is
// handed along: were it kept beside the station, each function there would have to say that it stays.
#[tactic(auto, using(crate::proofs::Sent::events_both), unfolding(crate::specs::Scripts::stepped))]
fn take_step<R: Roll, S: Sink>(
    scripted: &mut ScriptedStation<R>,
    book: Book<'_>,
    step: u32,
    sheet: &mut [Event; LEAST_SHEET],
    out: &mut BufferedSink<'_, S>,
) -> Result<(), S::Error>
    ensures progress { OnOk result (progress_in R.Roll.meaning R.Roll.LEVER scripted.new ≡ (stepped book.entry.bytes.now (progress_in R.Roll.meaning R.Roll.LEVER scripted.old)).progress) }
    ensures lines { OnOk result (Took S.Sink.state S.Sink.took out.old (lines_of_events step (stepped book.entry.bytes.now (progress_in R.Roll.meaning R.Roll.LEVER scripted.old)).told) out.new) }
{
    out.add_events(step, scripted.do_row(book, sheet))?;
    out.add_events(step, scripted.do_tick(sheet))
}

// All steps of a book, from power-up on.
#[tactic(auto, using(crate::proofs::Listed::after_none, crate::proofs::Listed::after_more, crate::proofs::Listed::lines_none, crate::proofs::Listed::lines_after))]
fn take_steps<R: Roll, S: Sink>(
    scripted: &mut ScriptedStation<R>,
    book: Book<'_>,
    out: &mut BufferedSink<'_, S>,
) -> Result<(), S::Error>
    requires { progress_in R.Roll.meaning R.Roll.LEVER scripted.old ≡ powered_up R.Roll.LEVER book.bytes.now }
    ensures progress { OnOk result (progress_in R.Roll.meaning R.Roll.LEVER scripted.new ≡ progress_after R.Roll.LEVER book.entry.bytes.now (steps_in book.entry.bytes.now)) }
    ensures lines { OnOk result (Took S.Sink.state S.Sink.took out.old (step_lines R.Roll.LEVER book.entry.bytes.now (steps_in book.entry.bytes.now)) out.new) }
{
    let blank = Event {
        kind: Kind::Runs,
        task: 0,
    };
    let mut sheet = [blank; LEAST_SHEET];
    // By the steps that are done: a range that has its end is left in two ways, and each would need its own proof.
    for done in 0..book.steps() {
        take_step(scripted, book, done + 1, &mut sheet, out)?;
    }
    Ok(())
}

// Carries out a book without faults.
fn carry_out<R: Roll + Drop, S: Sink>(
    roll: R,
    book: Book<'_>,
    out: &mut BufferedSink<'_, S>,
) -> Result<(), S::Error>
    ensures { OnOk result (Took S.Sink.state S.Sink.took out.old (run_lines R.Roll.LEVER book.entry.bytes.now) out.new) }
{
    let accepted = Event {
        kind: Kind::Accepted,
        task: 1,
    };
    let runs = Event {
        kind: Kind::Runs,
        task: 1,
    };
    out.add_events(0, &[accepted, runs])?;
    let mut scripted = ScriptedStation::power_up(roll, book);
    let outcome = take_steps(&mut scripted, book, out);
    let left = scripted.stop();
    outcome?;
    out.add(&left_line(left))
}

// Carries out the book in these bytes, or says why it is refused.
#[tactic(auto, unfolding(crate::specs::Listing::listing))]
fn write_listing<R: Roll + Drop, S: Sink>(
    roll: R,
    bytes: &[u8],
    out: &mut BufferedSink<'_, S>,
) -> Result<(), S::Error>
    ensures { OnOk result (Took S.Sink.state S.Sink.took out.old (listing R.Roll.LEVER bytes.now) out.new) }
{
    match Book::read(bytes) {
        Ok(book) => carry_out(roll, book, out),
        Err(fault) => out.add(&fault_line(fault)),
    }
}

/// Carries out the book in these bytes over a roll, and puts its listing into the sink. Whatever the bytes are: those
/// that are no book give the one line that says so. The memory used does not grow with the steps or the lines. What the
/// lines of a book tell is a history of calls from power-up on, of which the laws hold after every step.
#[tactic(auto, using(crate::proofs::Lasting::lived))]
pub fn run<R: Roll + Drop, S: Sink>(roll: R, bytes: &[u8], sink: &mut S) -> Result<(), S::Error>
    ensures lives { Lives R.Roll.LEVER bytes.now }
    ensures listing { OnOk result (S.Sink.state sink.new ≡ S.Sink.took (S.Sink.state sink.old) (listing R.Roll.LEVER bytes.now)) }
{
    let mut out = BufferedSink::new(sink);
    write_listing(roll, bytes, &mut out)?;
    out.flush()
}
