//! A cold station: it holds its roll, and knows only power-up.

ghost use Rattle.std.specs.Prelude.{◌≡◌};
ghost use Rattle.rules.specs.Calls.{started};
ghost use Rattle.laws.specs.Histories.{Reached, History.powered};
ghost use Rattle.laws.specs.Laws.{Laws};
ghost use Rattle.station.specs.Views.{setup_in, seen};

use crate::live::Live;
use book::Book;
use kernel::Kernel;
use roll::Roll;

pub struct Cold<R> {
    roll: R,
}

impl<R: Roll> Cold<R> {
    // A station not powered up, with a roll that may have been in use.
    pub fn new(roll: R) -> Cold<R>
        ensures { result.roll ≡ roll }
    {
        Cold { roll }
    }

    // Powers the station up with a book. Its two events, accepted 1 and runs 1, are fixed and are written nowhere.
    pub fn power_up(self, book: Book<'_>) -> Live<R>
        ensures state { seen R.Roll.meaning R.Roll.LEVER result ≡ record { setup = setup_in R.Roll.LEVER book.entry.bytes.now; state = started (setup_in R.Roll.LEVER book.entry.bytes.now) } }
        ensures reached { Reached (seen R.Roll.meaning R.Roll.LEVER result).setup powered (seen R.Roll.meaning R.Roll.LEVER result).state }
        ensures laws { Laws (seen R.Roll.meaning R.Roll.LEVER result).setup powered (seen R.Roll.meaning R.Roll.LEVER result).state }
    {
        let Cold { roll } = self;
        Live::over(Kernel::powered(roll, book))
    }
}
