//! How the positions change.

ghost use Rattle.std.specs.Prelude.{◌≡◌, ◌+◌, ◌^◌, ◌<◌};
ghost use Rattle.roll.specs.Tables.{put};
ghost use Rattle.runner.specs.Scripts.{beginning, finishes, set_back_by, passed, jumped};
ghost use Rattle.runner.specs.Views.{positions_in};

use super::{Position, Positions};
use rules::Macro;
use sheet::{Event, Kind};

// A row number is small where an instruction stands in that row, and only there: so this is asked, and no fact of every
// position.
impl Position {
    // The next row, after a macro; what gfact answers goes into the register.
    pub(crate) fn passed(self, m: Macro, answer: u8) -> Position
        requires { self.row < 2 ^ 32 }
        ensures { result ≡ passed m answer self }
    {
        let register = match m {
            Macro::Gfact => answer,
            _ => self.register,
        };
        Position {
            row: self.row + 1,
            register,
        }
    }

    // Row t, if the register equals x or x is 255, and else the next row.
    pub(crate) fn jumped(self, x: u8, t: u32) -> Position
        requires { self.row < 2 ^ 32 }
        ensures { result ≡ jumped x t self }
    {
        let row = if self.register == x || x == 255 {
            t as usize
        } else {
            self.row + 1
        };
        Position { row, ..self }
    }
}

// Whether the event says that a start has finished.
fn finishes(kind: Kind) -> bool
    ensures { result ≡ finishes kind }
{
    matches!(kind, Kind::Ended | Kind::Cut)
}

impl Positions {
    // All tasks at the beginning of their scripts.
    pub(crate) fn new() -> Positions
        ensures { positions_in result ≡ (λ _. beginning) }
    {
        Positions {
            places: [Position::default(); 256],
        }
    }

    // Where a task stands.
    pub(crate) fn at(&self, task: u8) -> Position
        ensures { result ≡ positions_in self.now task }
    {
        self.places[task as usize]
    }

    // Moves a task.
    pub(crate) fn put(&mut self, task: u8, position: Position)
        ensures { positions_in self.new ≡ put (positions_in self.old) task position }
    {
        self.places[task as usize] = position;
    }

    // With each ended or cut event its task goes back to the beginning, whoever caused it.
    #[tactic(auto, using(crate::proofs::Moves::back_all))]
    pub(crate) fn set_back(&mut self, events: &[Event])
        ensures { positions_in self.new ≡ set_back_by (positions_in self.old) events.now }
    {
        for event in events {
            if finishes(event.kind) {
                self.put(event.task, Position::default());
            }
        }
    }
}
