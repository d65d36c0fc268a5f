// The starts of one task.
ghost use Rattle.std.specs.Prelude.{◌≡◌, ◌≤◌, ◌++◌, length};
ghost use Rattle.stamped.specs.Slots.{size, live_of, ended_slot, marked_slot, levelled_slot, pushed_slot};
ghost use Rattle.stamped.specs.Numbers.{below, stamps_of, renumbered_slot, renumbered_start};
ghost use Rattle.stamped.specs.Noted.{noted};

use crate::renumbering::Renumbering;

// A start: its stamp says when it came, a later one having the greater stamp.
#[derive(Clone, Copy)]
pub struct Start {
    pub stamp: u16,
    pub level: u8,
    pub asleep: bool,
}

impl Start {
    fn renumbered(self, numbers: &Renumbering) -> Start
        ensures { result ≡ renumbered_start (λ s. below s (noted numbers.now)) self }
    {
        Start {
            stamp: numbers.number(self.stamp),
            ..self
        }
    }
}

// The starts of one task, the older first.
#[derive(Clone, Copy)]
pub enum Slot {
    Empty,
    One(Start),
    Two(Start, Start),
}

impl Slot {
    // How many starts there are.
    pub(crate) fn len(self) -> u8
        ensures { result ≡ size self }
    {
        match self {
            Slot::Empty => 0,
            Slot::One(_) => 1,
            Slot::Two(_, _) => 2,
        }
    }

    // The oldest start, if it is awake.
    pub(crate) fn live(self) -> Option<Start>
        ensures { result ≡ live_of self }
    {
        match self {
            Slot::One(a) | Slot::Two(a, _) if !a.asleep => Some(a),
            _ => None,
        }
    }

    // Without the oldest start.
    pub(crate) fn ended(self) -> Slot
        ensures { result ≡ ended_slot self }
    {
        match self {
            Slot::Two(_, b) => Slot::One(b),
            _ => Slot::Empty,
        }
    }

    // With the mark on the oldest start.
    pub(crate) fn marked(self, asleep: bool) -> Slot
        ensures { result ≡ marked_slot asleep self }
    {
        match self {
            Slot::Empty => Slot::Empty,
            Slot::One(a) => Slot::One(Start { asleep, ..a }),
            Slot::Two(a, b) => Slot::Two(Start { asleep, ..a }, b),
        }
    }

    // With the level at every start.
    pub(crate) fn levelled(self, level: u8) -> Slot
        ensures { result ≡ levelled_slot level self }
    {
        match self {
            Slot::Empty => Slot::Empty,
            Slot::One(a) => Slot::One(Start { level, ..a }),
            Slot::Two(a, b) => Slot::Two(Start { level, ..a }, Start { level, ..b }),
        }
    }

    // With one start more, the youngest; a full slot stays.
    pub(crate) fn pushed(self, x: Start) -> Slot
        ensures { result ≡ pushed_slot x self }
    {
        match self {
            Slot::Empty => Slot::One(x),
            Slot::One(a) => Slot::Two(a, x),
            Slot::Two(_, _) => self,
        }
    }

    // Notes the stamps.
    pub(crate) fn note(self, numbers: &mut Renumbering)
        requires { length (noted numbers.old) ≤ 254 }
        ensures { noted numbers.new ≡ noted numbers.old ++ stamps_of self }
    {
        match self {
            Slot::Empty => {}
            Slot::One(a) => numbers.note(a.stamp),
            Slot::Two(a, b) => {
                numbers.note(a.stamp);
                numbers.note(b.stamp);
            }
        }
    }

    // With the new numbers for stamps.
    pub(crate) fn renumbered(self, numbers: &Renumbering) -> Slot
        ensures { result ≡ renumbered_slot (λ s. below s (noted numbers.now)) self }
    {
        match self {
            Slot::Empty => Slot::Empty,
            Slot::One(a) => Slot::One(a.renumbered(numbers)),
            Slot::Two(a, b) => Slot::Two(a.renumbered(numbers), b.renumbered(numbers)),
        }
    }
}
