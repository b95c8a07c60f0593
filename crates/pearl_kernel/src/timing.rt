// Milliseconds in which no plan fires.

ghost use Rattle.std.specs.Prelude.{◌≡◌, ◌+◌, ◌^◌, ◌≤◌, []};
ghost use Rattle.pearl_rules.specs.Laws.{passed};
ghost use Rattle.pearl_kernel.specs.Timing.{IsQuiet};

use crate::state::State;

impl State {
    /// So many milliseconds pass, in which no plan fires.
    pub fn skip(&mut self, milliseconds: u64)
        requires told { self.old.core.told ≡ [] }
        requires later { self.old.core.moment + milliseconds ≤ 2 ^ 40 }
        requires quiet { IsQuiet self.old.core milliseconds }
        ensures { self.new ≡ record self.old { core = passed milliseconds self.old.core } }
    {
        self.set_moment(self.now() + milliseconds);
    }
}
