//! What a call answers.

ghost use Rattle.std.specs.Prelude.{◌≡◌};
ghost use Rattle.rules.specs.declared.answer.Code.TheVariants.{Done};
ghost use Rattle.rules.specs.Codes.{number_of};

// That a call was obeyed, or the cause for which it was turned down. `Done` stands beside the causes, since outside all
// of them are known by number, and Done is 0. Several causes share a number.
#[derive(Clone, Copy, PartialEq, Eq, Debug)]
pub enum Code {
    Done,
    // The sheet has fewer records than a call may tell.
    ShortSheet,
    // A macro while no task has the processor.
    Idle,
    // A field of a macro is out of range.
    FieldRange,
    // A coil outside its range.
    CoilRange,
    // The book has no row for the task.
    NotRegistered,
    // A hold on a roll that has no lever.
    NoLever,
    // The task is dormant.
    Dormant,
    // A hold of a held task, or the end of a hold that does not stand.
    HoldStands,
    // The task has two starts already.
    TwoStarts,
    // Every place of the table is taken.
    TableFull,
    // The task is released already.
    IsReleased,
    // The factor is set already.
    FactorSet,
    // A cancel finds nothing.
    NothingSet,
}

// The number by which a code is known outside.
impl From<Code> for u8 {
    ghost from_gives = { λ k n. n ≡ number_of k };

    fn from(code: Code) -> u8 {
        match code {
            Code::Done => 0,
            Code::ShortSheet => 10,
            Code::Idle => 11,
            Code::FieldRange => 12,
            Code::CoilRange => 13,
            Code::NotRegistered => 4,
            Code::NoLever => 5,
            Code::Dormant => 2,
            Code::HoldStands => 3,
            Code::TwoStarts
            | Code::TableFull
            | Code::IsReleased
            | Code::FactorSet
            | Code::NothingSet => 1,
        }
    }
}

// A code, how many events were told, and beside them the factor that gfact took.
#[derive(Clone, Copy, PartialEq, Eq, Debug)]
pub struct Answer {
    pub code: Code,
    pub told: usize,
    // 0 where none was taken, as the rules answer it.
    pub factor: u8,
}

impl Answer {
    // The answer of a call that tells nothing.
    pub fn silent(code: Code) -> Answer
        ensures { result ≡ record { code = code; told = 0; factor = 0 } }
    {
        Answer {
            code,
            told: 0,
            factor: 0,
        }
    }

    // The answer of a call that is obeyed and tells nothing.
    pub fn done() -> Answer
        ensures { result ≡ record { code = Done; told = 0; factor = 0 } }
    {
        Answer::silent(Code::Done)
    }
}

// A call that is turned down for a cause alone tells nothing.
impl From<Code> for Answer {
    ghost from_gives = { λ k a. a ≡ record { code = k; told = 0; factor = 0 } };

    fn from(code: Code) -> Answer {
        Answer::silent(code)
    }
}

// The least number of records that a sheet must have: more than any call tells.
pub const LEAST_SHEET: usize = 100;
