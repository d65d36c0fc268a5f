//! The calls that a script makes of its station.

ghost use Rattle.std.specs.Prelude.{◌≡◌};
ghost use Rattle.rules.specs.State.{numbered};
ghost use Rattle.runner.specs.Scripts.{asked, after, processor};
ghost use Rattle.runner.specs.Views.{station_in};

use numbers::Task;
use roll::Roll;
use rules::{Call, LEAST_SHEET};
use sheet::Event;
use station::Live;

// What came of a call: the events that it told, and beside them the factor that gfact took.
#[derive(Clone, Copy)]
pub struct Reply<'s> {
    pub told: &'s [Event],
    pub factor: u8,
}

// Makes a call on a sheet of a hundred records.
pub(super) fn ask<'s, R: Roll>(
    station: &mut Live<R>,
    call: Call,
    sheet: &'s mut [Event; LEAST_SHEET],
) -> Reply<'s>
    ensures station { station_in R.Roll.meaning R.Roll.LEVER station.new ≡ after (station_in R.Roll.meaning R.Roll.LEVER station.old) call }
    ensures told { result.told.now ≡ (asked (station_in R.Roll.meaning R.Roll.LEVER station.old) call).told }
    ensures factor { result.factor ≡ (asked (station_in R.Roll.meaning R.Roll.LEVER station.old) call).factor }
{
    let answer = station.perform(call, sheet);
    Reply {
        told: &sheet[..answer.told],
        factor: answer.factor,
    }
}

// The task with the processor, if there is one.
#[tactic(auto, unfolding(crate::specs::Scripts::processor, crate::specs::Views::station_in))]
pub(super) fn first<R: Roll>(station: &mut Live<R>) -> Option<Task>
    ensures answer { numbered result ≡ processor (station_in R.Roll.meaning R.Roll.LEVER station.old) }
    ensures same { station_in R.Roll.meaning R.Roll.LEVER station.new ≡ station_in R.Roll.meaning R.Roll.LEVER station.old }
{
    station.first()
}
