// What an instruction did that offers nothing but a trap.

use pearl_value::trap::Trap;

/// What an instruction did that offers no action but a trap: it left the stack with which its task goes on, or it
/// breaks the task off, and nothing changed.
#[derive(Clone, Copy)]
pub enum Did {
    Silent,
    Trapped(Trap),
}
