// Four words of bits, one for each task, which is set where the task is active and has offered nothing.

ghost use Rattle.std.specs.Prelude.{◌≡◌, ◌/◌, ◌<◌, ◌≤◌, ◌&&◌, IfOk, length};
ghost use Rattle.pearl_bits.specs.Bits.{Changes};
ghost use Rattle.pearl_rules.specs.Core.{is_active_mode};
ghost use Rattle.pearl_kernel.specs.Unsettled.{bit_if, AreActive};

use pearl_bits::words::{clear, lower, raise};
use pearl_rules::row::{Mode, TaskRow};
use std::alloc::{AllocError, Global};

/// Whether a task that stands so is active.
pub fn is_awake(mode: Mode) -> bool
    ensures { result ≡ is_active_mode mode }
{
    match mode {
        Mode::Dormant => false,
        Mode::Active { .. } => true,
    }
}

/// The bits where nothing is offered.
pub fn first_bits(alloc: Global, rows: &[TaskRow]) -> Result<Vec<u64>, AllocError>
    requires { length rows.now ≤ 200 }
    ensures { IfOk result (λ words. AreActive rows.now words.items) }
{
    let mut words = clear(alloc, 4)?;
    for (task, row) in rows.iter().enumerate() {
        put(&mut words, task, is_awake(row.mode), true);
    }
    Ok(words)
}

/// A task's bit becomes what is asked for where it is active, or isn't, and has offered nothing, or something.
pub fn put(words: &mut Vec<u64>, task: usize, active: bool, silent: bool)
    requires { task / 64 < length words.old.items }
    ensures bits { Changes words.old.items words.new.items task (bit_if (active && silent)) }
    ensures words { length words.new.items ≡ length words.old.items }
{
    if active && silent {
        raise(words, task);
    } else {
        lower(words, task);
    }
}
