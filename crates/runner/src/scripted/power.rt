//! The beginning and the end.

ghost use Rattle.std.specs.Prelude.{◌≡◌};
ghost use Rattle.runner.specs.Listing.{powered_up, left_on};
ghost use Rattle.runner.specs.Views.{progress_in};

use super::ScriptedStation;
use crate::positions::Positions;
use book::Book;
use roll::Roll;
use station::Cold;

impl<R: Roll> ScriptedStation<R> {
    // Powers a station up with a book.
    #[tactic(auto, unfolding(crate::specs::Listing::powered_up, crate::specs::Views::station_in))]
    pub(crate) fn power_up(roll: R, book: Book<'_>) -> ScriptedStation<R>
        ensures { progress_in R.Roll.meaning R.Roll.LEVER result ≡ powered_up R.Roll.LEVER book.entry.bytes.now }
    {
        ScriptedStation {
            station: Cold::new(roll).power_up(book),
            positions: Positions::new(),
        }
    }

    // Stops the station; answers how many starts stood on the roll.
    #[tactic(auto, unfolding(crate::specs::Listing::left_on, crate::specs::Views::station_in))]
    pub(crate) fn stop(self) -> u8
    where
        R: Drop,
        ensures { result ≡ left_on (progress_in R.Roll.meaning R.Roll.LEVER self) }
    {
        let ScriptedStation {
            station,
            positions: _,
        } = self;
        station.stop()
    }
}
