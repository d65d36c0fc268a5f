//! The lines of a listing, each in memory of a fixed size.

ghost use Rattle.std.specs.Prelude.{◌≡◌, ◌≤◌, length};
ghost use Rattle.runner.specs.Lines.{bytes_of, line_of_event, line_of_left, line_of_fault};

use arrayvec::ArrayString;
use book::Fault;
use itoa::Buffer;
use sheet::Event;

/// A line of a listing, with the line feed that ends it. Its pieces are put by `push_str` and not by `write!`, since a
/// line can always be made, and no clause says that a write goes well.
#[derive(Drop)]
pub struct Line {
    text: ArrayString<64>,
}

impl Line {
    /// The bytes of the line.
    pub fn as_bytes(&self) -> &[u8]
        ensures { result.now ≡ bytes_of self.now }
    {
        self.as_str().as_bytes()
    }

    // The line as text.
    pub(crate) fn as_str(&self) -> &str
        ensures value { result.now ≡ bytes_of self.now }
        ensures short { length result.now ≤ 64 }
    {
        self.text.as_str()
    }
}

/// The line of an event: step, word and task.
#[tactic(auto, unfolding(crate::specs::Lines::line_of_event))]
pub fn event_line(step: u32, event: Event) -> Line
    ensures { bytes_of result ≡ line_of_event step event }
{
    let mut digits = Buffer::new();
    let mut text = ArrayString::new();
    text.push_str(digits.format(step));
    text.push_str(" ");
    text.push_str(event.kind.word());
    text.push_str(" ");
    text.push_str(digits.format(event.task));
    text.push_str("\n");
    Line { text }
}

/// The last line: how many starts are left on the roll.
#[tactic(auto, unfolding(crate::specs::Lines::line_of_left))]
pub fn left_line(left: u8) -> Line
    ensures { bytes_of result ≡ line_of_left left }
{
    let mut text = ArrayString::new();
    text.push_str("left ");
    text.push_str(Buffer::new().format(left));
    text.push_str("\n");
    Line { text }
}

/// The only line of a book that is refused: number and place of its fault.
#[tactic(auto, unfolding(crate::specs::Lines::line_of_fault))]
pub fn fault_line(fault: Fault) -> Line
    ensures { bytes_of result ≡ line_of_fault fault }
{
    let mut digits = Buffer::new();
    let mut text = ArrayString::new();
    text.push_str("book ");
    text.push_str(digits.format(u8::from(fault.cause)));
    text.push_str(" ");
    text.push_str(digits.format(fault.place));
    text.push_str("\n");
    Line { text }
}
