//! What an instruction row says.

ghost use Rattle.std.specs.Prelude.{◌≡◌};
ghost use Rattle.runner.specs.Instructions.{fields_of, meant, decoded};

use book::{Letter, byte_at, u32_at};
use rules::Macro;

/// What a task does at a row of its script.
#[derive(Clone, Copy, PartialEq, Eq, Debug)]
pub enum Instruction {
    /// It issues a macro.
    Macro(Macro),
    /// It goes to row t if its register equals x or x is 255, and to the next row if not.
    Jump { x: u8, t: u32 },
}

// The fields of a row, whatever its letter.
#[derive(Clone, Copy)]
pub struct Fields {
    task: u8,
    x: u8,
    t: u32,
    cycle: u32,
}

impl Fields {
    // What stands in a row of twelve bytes; past the end of a shorter one there are only zeros.
    fn read(row: &[u8]) -> Fields
        ensures { result ≡ fields_of row.now }
    {
        Fields {
            task: byte_at(row, 1),
            x: byte_at(row, 2),
            t: u32_at(row, 4),
            cycle: u32_at(row, 8),
        }
    }
}

impl Instruction {
    // What a letter says, with the fields that it uses.
    fn of(letter: Letter, fields: Fields) -> Instruction
        ensures { result ≡ meant letter fields }
    {
        let Fields { task, x, t, cycle } = fields;
        Instruction::Macro(match letter {
            Letter::Rleas => Macro::Rleas { task },
            Letter::Queue => Macro::Queue { task, factor: x },
            Letter::Abort => Macro::Abort { task },
            Letter::Delay => Macro::Delay { t },
            Letter::Timer => Macro::Timer {
                task,
                t,
                cycle,
                factor: x,
            },
            Letter::Ctime => Macro::Ctime { task, factor: x },
            Letter::Chap => Macro::Chap { task, level: x },
            Letter::Sfact => Macro::Sfact { task, factor: x },
            Letter::Gfact => Macro::Gfact,
            Letter::Susp => Macro::Susp { task },
            Letter::Rsum => Macro::Rsum { task },
            Letter::Wake => Macro::Wake {
                task,
                factor: x,
                second: t,
                cycle,
            },
            Letter::Cwake => Macro::Cwake { task, factor: x },
            Letter::Stime => Macro::Stime { second: t },
            Letter::Exit => Macro::Exit,
            Letter::Jump => return Instruction::Jump { x, t },
        })
    }
}

/// What a row of a script says, or nothing where its letter is none.
#[tactic(auto, unfolding(crate::specs::Instructions::decoded))]
pub fn decode(row: &[u8]) -> Option<Instruction>
    ensures { result ≡ decoded row.now }
{
    let letter = Letter::try_from(byte_at(row, 0)).ok()?;
    Some(Instruction::of(letter, Fields::read(row)))
}
