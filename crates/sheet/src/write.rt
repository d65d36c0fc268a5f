//! Writing at the front of a sheet. The calls test once that a sheet is long enough for all that they may tell,
//! so room is asked of the callers here and proved by each.

ghost use Rattle.std.specs.Prelude.{◌≡◌, ◌<◌, ◌≤◌, [], ◌∷◌, length, replicate};
ghost use Rattle.sheet.specs.Sheets.{written};

use crate::Event;

// Writes one event at the front of the sheet; the records behind it stay.
pub fn tell(sheet: &mut [Event], event: Event)
    requires { 0 < length sheet.old }
    ensures { sheet.new ≡ written (event ∷ []) sheet.old }
{
    tell_times(sheet, event, 1);
}

// Writes the same event so many times at the front of the sheet; the records behind stay.
pub fn tell_times(sheet: &mut [Event], event: Event, times: usize)
    requires { times ≤ length sheet.old }
    ensures { sheet.new ≡ written (replicate times event) sheet.old }
{
    sheet[..times].fill(event);
}
