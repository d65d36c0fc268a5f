ghost use Rattle.std.specs.Prelude.{◌≡◌};
ghost use Rattle.table.specs.Clocks.{next_milli, full_second, second_set};

use crate::clock::Clock;

impl Clock {
    // The beginning of the day.
    pub fn midnight() -> Clock
        ensures { result.millis ≡ 0 }
    {
        Clock { millis: 0 }
    }

    // One millisecond passes; answers the second of the day that was reached, if one was.
    pub fn advance(&mut self) -> Option<u32>
        ensures time { self.new.millis ≡ next_milli self.old.millis }
        ensures second { result ≡ full_second (next_milli self.old.millis) }
    {
        let millis = (self.millis + 1) % 86_400_000;
        self.millis = millis;
        millis.is_multiple_of(1000).then_some(millis / 1000)
    }

    // The beginning of a second of the day; a number of 86,400 or more is no second, and the clock stays.
    pub fn set(&mut self, second: u32)
        ensures { self.new.millis ≡ second_set second self.old.millis }
    {
        if second < 86_400 {
            self.millis = second * 1000;
        }
    }
}
