// Statements on tasks, semaphores and interrupts.
#![tactic(auto, using(crate::proofs::Texts::text_steps, std::proofs::lemmas::Grind::common_steps))]

ghost use Rattle.std.specs.Prelude.{◌≡◌, ◌++◌, OnOk};
ghost use Rattle.pearl_tree.specs.Statements.{task_word, sema_word, interrupt_word};
ghost use Rattle.pearl_print.specs.Spelled.{text_of_tokens};
ghost use Rattle.pearl_print.specs.Statements.{activate_tokens, continue_tokens, resume_tokens, on_task_tokens, on_semas_tokens, on_interrupt_tokens};

use crate::lists::{Part, put_listed, put_maybe};
use crate::put::{put_symbol, put_word};
use crate::schedule::put_maybe_after;
use pearl_tree::statement::{
    Activate, Continue, InterruptWord, OnInterrupt, OnSemas, OnTask, Resume, SemaWord, TaskWord,
};
use pearl_tree::symbol::SEMICOLON;
use pearl_tree::word_code::{
    ACTIVATE, CONTINUE, DISABLE, ENABLE, PREVENT, PRIO, RELEASE, REQUEST, RESUME, SUSPEND,
    TERMINATE, TRIGGER,
};
use std::alloc::AllocError as NoMemory;

pub(crate) fn put_activate(into: &mut Vec<u8>, part: &Activate) -> Result<(), NoMemory>
    ensures { OnOk result (into.new.items ≡ into.old.items ++ text_of_tokens (activate_tokens part.now)) }
{
    put_maybe(into, &part.start)?;
    put_word(into, ACTIVATE)?;
    part.task.put(into)?;
    put_maybe_after(into, PRIO, &part.priority)?;
    put_symbol(into, SEMICOLON)?;
    Ok(())
}

pub(crate) fn put_continue(into: &mut Vec<u8>, part: &Continue) -> Result<(), NoMemory>
    ensures { OnOk result (into.new.items ≡ into.old.items ++ text_of_tokens (continue_tokens part.now)) }
{
    put_maybe(into, &part.once)?;
    put_word(into, CONTINUE)?;
    part.task.put(into)?;
    put_symbol(into, SEMICOLON)?;
    Ok(())
}

pub(crate) fn put_resume(into: &mut Vec<u8>, part: &Resume) -> Result<(), NoMemory>
    ensures { OnOk result (into.new.items ≡ into.old.items ++ text_of_tokens (resume_tokens part.now)) }
{
    part.once.put(into)?;
    put_word(into, RESUME)?;
    put_symbol(into, SEMICOLON)?;
    Ok(())
}

fn task_word(word: TaskWord) -> u8
    ensures { result ≡ task_word word }
{
    match word {
        TaskWord::Suspend => SUSPEND,
        TaskWord::Terminate => TERMINATE,
        TaskWord::Prevent => PREVENT,
    }
}

pub(crate) fn put_on_task(into: &mut Vec<u8>, part: &OnTask) -> Result<(), NoMemory>
    ensures { OnOk result (into.new.items ≡ into.old.items ++ text_of_tokens (on_task_tokens part.now)) }
{
    put_word(into, task_word(part.word))?;
    put_maybe(into, &part.task)?;
    put_symbol(into, SEMICOLON)?;
    Ok(())
}

fn sema_word(word: SemaWord) -> u8
    ensures { result ≡ sema_word word }
{
    match word {
        SemaWord::Request => REQUEST,
        SemaWord::Release => RELEASE,
    }
}

pub(crate) fn put_on_semas(into: &mut Vec<u8>, part: &OnSemas) -> Result<(), NoMemory>
    ensures { OnOk result (into.new.items ≡ into.old.items ++ text_of_tokens (on_semas_tokens part.now)) }
{
    put_word(into, sema_word(part.word))?;
    put_listed(into, part.names.as_slice())?;
    put_symbol(into, SEMICOLON)?;
    Ok(())
}

fn interrupt_word(word: InterruptWord) -> u8
    ensures { result ≡ interrupt_word word }
{
    match word {
        InterruptWord::Enable => ENABLE,
        InterruptWord::Disable => DISABLE,
        InterruptWord::Trigger => TRIGGER,
    }
}

pub(crate) fn put_on_interrupt(into: &mut Vec<u8>, part: &OnInterrupt) -> Result<(), NoMemory>
    ensures { OnOk result (into.new.items ≡ into.old.items ++ text_of_tokens (on_interrupt_tokens part.now)) }
{
    put_word(into, interrupt_word(part.word))?;
    part.name.put(into)?;
    put_symbol(into, SEMICOLON)?;
    Ok(())
}
