//! Who has the processor.

ghost use Rattle.std.specs.Prelude.{◌≡◌, ◌≤◌, IfSome};
ghost use Rattle.roll.specs.Model.{first_in};
ghost use Rattle.rules.specs.State.{running};
ghost use Rattle.kernel.specs.Views.{seen};

use crate::kernel::Kernel;
use numbers::Task;
use roll::Roll;

impl<R: Roll> Kernel<R> {
    // The task with the processor, if there is one.
    pub fn first(&mut self) -> Option<Task>
        ensures answer { result ≡ first_in (seen R.Roll.meaning R.Roll.LEVER self.old).state.tasks.roll }
        ensures same { seen R.Roll.meaning R.Roll.LEVER self.new ≡ seen R.Roll.meaning R.Roll.LEVER self.old }
        ensures within { IfSome result (λ t. (1 ≤ t) × (t ≤ 127)) }
    {
        self.tasks.first()
    }

    // Who has the processor; 0 means that it is idle.
    pub fn running(&mut self) -> u8
        ensures answer { result ≡ running (seen R.Roll.meaning R.Roll.LEVER self.old).state.tasks }
        ensures same { seen R.Roll.meaning R.Roll.LEVER self.new ≡ seen R.Roll.meaning R.Roll.LEVER self.old }
        ensures within { result ≤ 127 }
    {
        self.tasks.running()
    }
}
