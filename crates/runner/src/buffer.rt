//! Lines gathered on their way to a sink.

ghost use Rattle.std.specs.Prelude.{◌≡◌, [], OnOk};
ghost use Rattle.runner.specs.Lines.{bytes_of, lines_of_events};
ghost use Rattle.runner.specs.Sinks.{sent, Took};

use crate::line::{Line, event_line};
use crate::sink::Sink;
use arrayvec::ArrayString;
use sheet::Event;

// A sink, and the lines that wait for it in memory of a fixed size, so that one put serves many of them.
#[derive(Drop)]
pub struct BufferedSink<'s, S> {
    waiting: ArrayString<4096>,
    sink: &'s mut S,
}

impl<'s, S: Sink> BufferedSink<'s, S> {
    pub(crate) fn new(sink: &'s mut S) -> BufferedSink<'s, S>
        ensures same_reference { result.sink.ghost_name ≡ sink.entry.ghost_name }
        ensures nothing { sent S.Sink.state S.Sink.took result ≡ S.Sink.state sink.old }
    {
        BufferedSink {
            waiting: ArrayString::new(),
            sink,
        }
    }

    // Hands on all that waits.
    pub(crate) fn flush(&mut self) -> Result<(), S::Error>
        ensures same_reference { self.new.sink.ghost_name ≡ self.old.sink.ghost_name }
        ensures sent { OnOk result (S.Sink.state self.new.sink.now ≡ sent S.Sink.state S.Sink.took self.old) }
        ensures none { OnOk result (self.new.waiting.bytes ≡ []) }
    {
        self.sink.put(self.waiting.as_str().as_bytes())?;
        self.waiting.clear();
        Ok(())
    }

    // Adds a line; what waits is handed on first if there is no room for it.
    pub(crate) fn add(&mut self, line: &Line) -> Result<(), S::Error>
        ensures { OnOk result (Took S.Sink.state S.Sink.took self.old (bytes_of line.now) self.new) }
    {
        let text = line.as_str();
        if self.waiting.remaining_capacity() < text.len() {
            self.flush()?;
        }
        self.waiting.push_str(text);
        Ok(())
    }

    // Adds a line for each event of a step.
    #[tactic(auto, using(crate::proofs::Sent::events_more, crate::proofs::Sent::events_all))]
    pub(crate) fn add_events(&mut self, step: u32, events: &[Event]) -> Result<(), S::Error>
        ensures { OnOk result (Took S.Sink.state S.Sink.took self.old (lines_of_events step events.now) self.new) }
    {
        for event in events {
            self.add(&event_line(step, *event))?;
        }
        Ok(())
    }
}
