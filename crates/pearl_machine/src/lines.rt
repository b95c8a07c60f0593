//! The line of how a task stands.

ghost use Rattle.std.specs.Prelude.{◌≡◌, ◌≤◌, ◌<◌, Some, IfSome, length};
ghost use Rattle.pearl_rules.specs.Pick.{pick, shown_of};
ghost use Rattle.pearl_kernel.specs.Kept.{offered};
ghost use Rattle.pearl_script.specs.Lines.{state_line as line_of_state};
ghost use Rattle.pearl_script.specs.Words.{task_name};

use arrayvec::ArrayVec;
use pearl_kernel::Kernel;
use pearl_rules::setup::Setup;
use pearl_script::transcript::state_line;

// The name of a task.
fn name_of(setup: &Setup, task: u32) -> &[u8]
    ensures name { result.now ≡ task_name setup.now task }
    ensures short { length result.now ≤ 63 }
{
    match setup.tasks.as_slice().get(task as usize) {
        Some(entry) => entry.name.as_slice(),
        None => &[],
    }
}

/// The task that acts next, which is sought where it isn't known yet, and is known from then on.
pub fn known_pick(kernel: &Kernel, known: &mut Option<Option<u32>>) -> Option<u32>
    requires { IfSome known.old (λ picked. picked ≡ pick kernel.now.core (offered kernel.now)) }
    ensures picked { result ≡ pick kernel.now.core (offered kernel.now) }
    ensures known { known.new ≡ Some result }
{
    let picked = match *known {
        Some(picked) => picked,
        None => kernel.picked(),
    };
    *known = Some(picked);
    picked
}

/// Makes `into` the line of how a task stands, beside the one that acts next.
pub fn state_of(
    kernel: &Kernel,
    setup: &Setup,
    task: u32,
    picked: Option<u32>,
    into: &mut ArrayVec<u8, 2304>,
)
    requires { picked ≡ pick kernel.now.core (offered kernel.now) }
    ensures { into.new.items ≡ line_of_state kernel.now.core.moment (task_name setup.now task)
        (shown_of kernel.now.core (offered kernel.now) task) }
{
    let shown = kernel.shown_beside(task, picked);
    state_line(kernel.now(), name_of(setup, task), &shown, into);
}
