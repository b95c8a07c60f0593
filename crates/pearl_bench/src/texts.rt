// The texts of the workload.

ghost use Rattle.std.specs.Prelude.{◌≡◌, ◌+◌, ◌^◌, ◌≤◌, ◌++◌, OnOk, IfOk, length};
ghost use Rattle.std.specs.Fmt.{decimal};
ghost use Rattle.pearl_bench.specs.Texts.{for_each, journal_of, source_of, start_line, task_head, task_line};

use itoa::Buffer;
use std::alloc::{AllocError, Global};

/// The source of the workload with this many tasks: one that starts them again and again, and those, which share a sum
/// behind a semaphore. It is shorter than the longest source that there may be.
pub fn source(alloc: Global, n: u8) -> Result<Vec<u8>, AllocError>
    requires some { 1 ≤ n }
    requires few { n ≤ 100 }
    ensures text { IfOk result (λ text. text.items ≡ source_of n) }
    ensures short { IfOk result (λ text. length text.items ≤ 2 ^ 20) }
{
    let mut text = Vec::new(alloc);
    text.extend_from_slice(
        b"MODULE(bench); PROBLEM;\nDCL total FIXED(63);\nDCL lock SEMA PRESET(1);\n",
    )?;
    text.extend_from_slice(b"start: TASK PRIO 1 MAIN;\n")?;
    push_starts(n, &mut text)?;
    text.extend_from_slice(b"END;\n")?;
    push_tasks(n, &mut text)?;
    text.extend_from_slice(b"MODEND;\n")?;
    Ok(text)
}

/// The journal of the workload: a minute, with up to 100 actions in each of its milliseconds.
pub fn journal(alloc: Global) -> Result<Vec<u8>, AllocError>
    ensures { IfOk result (λ text. text.items ≡ journal_of) }
{
    let mut text = Vec::new(alloc);
    text.extend_from_slice(b"pass 60000 100")?;
    Ok(text)
}

// Appends the lines that start the tasks up to this one, again and again.
fn push_starts(n: u8, text: &mut Vec<u8>) -> Result<(), AllocError>
    ensures { OnOk result (text.new.items ≡ text.old.items ++ for_each start_line n) }
{
    for i in 0..n {
        push_start(i + 1, text)?;
    }
    Ok(())
}

// Appends the line that starts this task again and again.
fn push_start(task: u8, text: &mut Vec<u8>) -> Result<(), AllocError>
    ensures { OnOk result (text.new.items ≡ text.old.items ++ start_line task) }
{
    text.extend_from_slice(b"ALL ")?;
    push_number(task, text)?;
    text.extend_from_slice(b" SEC ACTIVATE t")?;
    push_number(task, text)?;
    text.extend_from_slice(b";\n")
}

// Appends the lines of the tasks up to this one.
fn push_tasks(n: u8, text: &mut Vec<u8>) -> Result<(), AllocError>
    requires { n ≤ 100 }
    ensures { OnOk result (text.new.items ≡ text.old.items ++ for_each task_line n) }
{
    for i in 0..n {
        push_head(i + 1, text)?;
        text.extend_from_slice(
            b"; FOR k TO 10 REPEAT REQUEST lock; total := total + k; RELEASE lock; END; END;\n",
        )?;
    }
    Ok(())
}

// Appends the front of this task's line; it is less urgent than the tasks before it.
fn push_head(task: u8, text: &mut Vec<u8>) -> Result<(), AllocError>
    requires { task ≤ 100 }
    ensures { OnOk result (text.new.items ≡ text.old.items ++ task_head task) }
{
    text.extend_from_slice(b"t")?;
    push_number(task, text)?;
    text.extend_from_slice(b": TASK PRIO ")?;
    push_number(task + 1, text)?;
    Ok(())
}

// Appends a number in decimal.
fn push_number(number: u8, text: &mut Vec<u8>) -> Result<(), AllocError>
    ensures { OnOk result (text.new.items ≡ text.old.items ++ decimal number) }
{
    let mut buffer = Buffer::new();
    text.extend_from_slice(buffer.format(number).as_bytes())
}
