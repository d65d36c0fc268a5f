// The first of a roll without a lever, with some tasks held.
ghost use Rattle.std.specs.Prelude.{◌≡◌, false};
ghost use Rattle.roll.specs.Firsts.{first_of};
ghost use Rattle.lever.specs.Meaning.{members};
ghost use Rattle.lever.specs.Searches.{roused};

use crate::holds::Holds;
use arrayvec::ArrayVec;
use roll::Roll;

// Which task has the processor where some are held: while the roll answers a held
// task, that one is put to sleep and the roll asked again. In the end exactly these are roused.
pub(crate) fn first<R: Roll>(roll: &mut R, held: &Holds) -> Option<u8>
    requires { R.Roll.LEVER ≡ false }
    ensures answer { result ≡ first_of (members held.now) (R.Roll.meaning roll.old).entries }
    ensures after { R.Roll.meaning roll.new ≡ R.Roll.meaning roll.old }
{
    let mut found = roll.first();
    // Where the first is not held there is nothing to note, and no room is made for it.
    let free = found.is_none_or(|task| !held.has(task));
    if free {
        return found;
    }
    // Each turn puts one more entry to sleep, and a roll has at most 254.
    let mut slept = ArrayVec::<u8, 254>::new();
    while let Some(task) = found {
        if !held.has(task) {
            break;
        }
        let _ = roll.sleep(task);
        slept.push(task);
        found = roll.first();
    }
    rouse(roll, slept.as_slice());
    found
}

// Rouses the tasks, from the last to the first.
fn rouse<R: Roll>(roll: &mut R, slept: &[u8])
    ensures { R.Roll.meaning roll.new ≡ roused slept.now (R.Roll.meaning roll.old) }
{
    for task in slept.iter().rev() {
        let _ = roll.rouse(*task);
    }
}
