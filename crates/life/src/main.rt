//! A short life of a station, from power-up to stop: the order that the types ask for.

#![tactic(auto)]

use book::Book;
use packed::Packed;
use sheet::{Event, Kind};
use station::Cold;

fn main() {
    let nothing = Event {
        kind: Kind::Accepted,
        task: 0,
    };
    let mut sheet = [nothing; 100];
    let cold = Cold::new(Packed::new());
    let mut live = cold.power_up(Book::open(b""));
    let _ = live.exit(&mut sheet);
    let _ = live.tick(&mut sheet);
    let _ = live.stop();
}
