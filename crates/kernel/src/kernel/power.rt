//! The beginning and the end of a kernel.

ghost use Rattle.std.specs.Prelude.{◌≡◌, [], length};
ghost use Rattle.rules.specs.State.{Station};
ghost use Rattle.rules.specs.Calls.{started};
ghost use Rattle.kernel.specs.Views.{setup_in, seen};

use crate::kernel::Kernel;
use crate::setup::Setup;
use book::Book;
use roll::Roll;
use table::clock::Clock;
use table::entry::TableEntry;
use table::timer::Timer;
use table::wake::Wake;
use tasks::TaskTable;

impl<R: Roll> Kernel<R> {
    // A kernel just powered up with a book: its roll is emptied with its holds, nothing is set, and task 1 alone is
    // released, with one start.
    pub fn powered(roll: R, book: Book<'_>) -> Kernel<R>
        ensures { seen R.Roll.meaning R.Roll.LEVER result ≡ record { setup = setup_in R.Roll.LEVER book.entry.bytes.now; state = started (setup_in R.Roll.LEVER book.entry.bytes.now) } }
    {
        let setup = Setup::of(book);
        let levels = setup.levels();
        Kernel {
            setup,
            tasks: TaskTable::powered(roll, levels),
            timers: [Timer::free(); Timer::PLACES],
            wakes: [Wake::free(); Wake::PLACES],
            clock: Clock::midnight(),
        }
    }

    // Ends the kernel; answers how many starts stood on the roll, 0 to 254.
    pub fn stop(self) -> u8
    where
        R: Drop,
        ensures { result ≡ length (seen R.Roll.meaning R.Roll.LEVER self).state.tasks.roll.entries }
    {
        let Kernel {
            setup: _,
            tasks,
            timers: _,
            wakes: _,
            clock: _,
        } = self;
        tasks.stop()
    }
}
