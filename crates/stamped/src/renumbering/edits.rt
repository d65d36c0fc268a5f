// Noting stamps, and telling their new numbers.
ghost use Rattle.std.specs.Prelude.{◌≡◌, ℕ, ◌<◌, [], ◌∷◌, ◌++◌, length};
ghost use Rattle.stamped.specs.Numbers.{below, times_in};
ghost use Rattle.stamped.specs.Noted.{noted};

use super::Renumbering;

impl Renumbering {
    // No stamp is noted.
    pub fn new() -> Renumbering
        ensures { noted result ≡ [] }
    {
        Renumbering {
            stamps: [0; 256],
            len: 0,
        }
    }

    // How many stamps are noted.
    pub fn count(&self) -> u32
        ensures { result ≡ length (noted self.now) }
    {
        self.len as u32
    }

    // Notes a stamp.
    pub fn note(&mut self, stamp: u16)
        requires { length (noted self.old) < 256 }
        ensures { noted self.new ≡ noted self.old ++ stamp ∷ [] }
    {
        self.stamps[self.len] = stamp;
        self.len += 1;
    }

    // The new number of a stamp: how many of the noted ones are smaller. So the new numbers of
    // noted stamps are smaller than the count, and stand in the order of the stamps.
    pub fn number(&self, stamp: u16) -> u16
        ensures number { result ≡ below stamp (noted self.now) }
        ensures small { 0 < times_in stamp (noted self.now) → result < length (noted self.now) }
        ensures order { (s : ℕ) → 0 < times_in s (noted self.now) → s < stamp → below s (noted self.now) < result }
    {
        smaller(&self.stamps[0..self.len], stamp)
    }
}

// How many of the stamps are smaller than this one.
fn smaller(stamps: &[u16], stamp: u16) -> u16
    requires { length stamps.now < 65536 }
    ensures { result ≡ below stamp stamps.now }
{
    stamps.iter().map(|other| u16::from(*other < stamp)).sum()
}
