// Which task's stack this is.

ghost use Rattle.std.specs.Prelude.{◌≡◌, ◌≢◌, ◌-◌, ◌≤◌, [], length};
ghost use Rattle.pearl_solo.specs.Owners.{lowest_of};

use pearl_instructions::valid::Valid;
use pearl_stack::stack::Loaded;

// The number of the task whose stack this is: SuspendOwn, TerminateOwn and PreventOwn offer an action on it.
pub fn own_task(code: &Valid, stack: &Loaded) -> u32
    requires some { stack.now.frames ≢ [] }
    requires task { length code.now.procedures ≤ lowest_of stack.now.frames }
    ensures { result ≡ lowest_of stack.now.frames - length code.now.procedures }
{
    let lowest = stack.frame(0);
    lowest.routine - procedures(code, lowest.routine)
}

// How many procedures there are, which are no more than `most`.
fn procedures(code: &Valid, most: u32) -> u32
    requires { length code.now.procedures ≤ most }
    ensures { result ≡ length code.now.procedures }
{
    code.object().procedures.as_slice().len() as u32
}
