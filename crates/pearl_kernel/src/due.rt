// A millisecond's plans: those that fire.

ghost use Rattle.std.specs.Prelude.{◌≡◌, ◌≤◌, [], length};
ghost use Rattle.pearl_rules.specs.Plans.{each_task, served};
ghost use Rattle.pearl_kernel.specs.Eligible.{IsStandOf};

use crate::standing::Standing;
use crate::state::State;

/// The plans that fire now serve, in the order of their tasks, and each of these stands as it does after that.
pub fn serve_due(state: &mut State, standing: &mut Standing)
    requires few { length state.old.core.tasks ≤ 200 }
    requires told { state.old.core.told ≡ [] }
    requires stand { IsStandOf state.old standing.old }
    ensures served { let core = state.old.core in
        state.new ≡ record state.old { core = each_task served (length core.tasks) core } }
    ensures stand { IsStandOf state.new standing.new }
{
    let mut from = 0;
    while let Some(task) = state.due_task(from) {
        state.serve(task as u32);
        standing.moved(state, task as u32);
        from = task + 1;
    }
}
