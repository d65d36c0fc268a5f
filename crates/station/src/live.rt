//! A live station: it knows the calls, and stop ends it.

ghost use Rattle.std.specs.Prelude.{◌≡◌, ◌≤◌, length, IfSome};
ghost use Rattle.roll.specs.Model.{first_in};
ghost use Rattle.rules.specs.State.{running};
ghost use Rattle.laws.specs.Runs.{Named};
ghost use Rattle.station.specs.Views.{seen};

use kernel::Kernel;
use numbers::Task;
use roll::Roll;

pub struct Live<R> {
    kernel: Kernel<R>,
}

mod calls;

impl<R: Roll> Live<R> {
    pub(crate) fn over(kernel: Kernel<R>) -> Live<R>
        ensures { result.kernel ≡ kernel }
    {
        Live { kernel }
    }

    // The task with the processor, if there is one: the one that the last `runs` named.
    pub fn first(&mut self) -> Option<Task>
        ensures answer { result ≡ first_in (seen R.Roll.meaning R.Roll.LEVER self.old).state.tasks.roll }
        ensures same { seen R.Roll.meaning R.Roll.LEVER self.new ≡ seen R.Roll.meaning R.Roll.LEVER self.old }
        ensures within { IfSome result (λ t. (1 ≤ t) × (t ≤ 127)) }
        ensures named { Named (seen R.Roll.meaning R.Roll.LEVER self.old).setup (seen R.Roll.meaning R.Roll.LEVER self.old).state result }
    {
        self.kernel.first()
    }

    // Who has the processor; 0 means that it is idle.
    pub fn running(&mut self) -> u8
        ensures answer { result ≡ running (seen R.Roll.meaning R.Roll.LEVER self.old).state.tasks }
        ensures same { seen R.Roll.meaning R.Roll.LEVER self.new ≡ seen R.Roll.meaning R.Roll.LEVER self.old }
        ensures within { result ≤ 127 }
    {
        self.kernel.running()
    }

    // Ends the station; answers how many starts stood on the roll, 0 to 254.
    pub fn stop(self) -> u8
    where
        R: Drop,
        ensures { result ≡ length (seen R.Roll.meaning R.Roll.LEVER self).state.tasks.roll.entries }
    {
        let Live { kernel } = self;
        kernel.stop()
    }
}
