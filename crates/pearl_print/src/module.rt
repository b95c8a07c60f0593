// Modules and their declarations.
#![tactic(auto, using(crate::proofs::Texts::text_steps, std::proofs::lemmas::Grind::common_steps))]

ghost use Rattle.std.specs.Prelude.{◌≡◌, ◌++◌, OnOk};
ghost use Rattle.pearl_print.specs.Lists.{maybe};
ghost use Rattle.pearl_print.specs.Spelled.{text_of_tokens};
ghost use Rattle.pearl_print.specs.Modules.{head_tokens, returns_tokens, task_body_tokens, task_tokens, proc_tokens, decl_tokens, bracketed_name, module_name_tokens, system_tokens, front_tokens, tokens_of};

use crate::lists::{
    Part, put_bracketed_number, put_each, put_flag, put_listed, put_maybe, put_maybe_bracketed,
};
use crate::put::{put_symbol, put_word};
use crate::statement::put_body;
use crate::typing::{put_basic, put_typing, sort_word};
use pearl_tree::declaration::{Device, Param};
use pearl_tree::name::Name;
use pearl_tree::parts::Parts;
use pearl_tree::statement::Body;
use pearl_tree::symbol::{COLON, LEFT_ROUND, RIGHT_ROUND, SEMICOLON};
use pearl_tree::tree::{Decl, ModuleName, TaskHead, Tree};
use pearl_tree::typing::Basic;
use pearl_tree::word_code::{
    DCL, END, LENGTH, MAIN, MODEND, MODULE, PROBLEM, PROC, RETURNS, SPC, SYSTEM, TASK, TYPE,
};
use std::alloc::AllocError as NoMemory;

fn put_head(into: &mut Vec<u8>, head: &TaskHead) -> Result<(), NoMemory>
    ensures { OnOk result (into.new.items ≡ into.old.items ++ text_of_tokens (head_tokens head.now)) }
{
    match head {
        TaskHead::PrioFirst { prio, main } => {
            put_maybe(into, prio)?;
            put_flag(into, MAIN, *main)?;
            Ok(())
        }
        TaskHead::MainFirst { prio } => {
            prio.put(into)?;
            put_word(into, MAIN)?;
            Ok(())
        }
    }
}

fn put_returns(into: &mut Vec<u8>, returns: &Option<Basic>) -> Result<(), NoMemory>
    ensures { OnOk result (into.new.items ≡ into.old.items ++ text_of_tokens (maybe returns_tokens returns.now)) }
{
    if let Some(basic) = returns {
        put_word(into, RETURNS)?;
        put_symbol(into, LEFT_ROUND)?;
        put_basic(into, basic)?;
        put_symbol(into, RIGHT_ROUND)?;
    }
    Ok(())
}

fn put_block(into: &mut Vec<u8>, body: &Body) -> Result<(), NoMemory>
    ensures { OnOk result (into.new.items ≡ into.old.items ++ text_of_tokens (task_body_tokens body.now)) }
{
    put_symbol(into, SEMICOLON)?;
    put_body(into, body)?;
    put_word(into, END)?;
    put_symbol(into, SEMICOLON)?;
    Ok(())
}

fn put_task(into: &mut Vec<u8>, name: &Name, head: &TaskHead, body: &Body) -> Result<(), NoMemory>
    ensures { OnOk result
        (into.new.items ≡ into.old.items ++ text_of_tokens (task_tokens name.now head.now body.now)) }
{
    name.put(into)?;
    put_symbol(into, COLON)?;
    put_word(into, TASK)?;
    put_head(into, head)?;
    put_block(into, body)?;
    Ok(())
}

fn put_proc(
    into: &mut Vec<u8>,
    name: &Name,
    params: &Parts<Param>,
    returns: &Option<Basic>,
    body: &Body,
) -> Result<(), NoMemory>
    ensures { OnOk result
        (into.new.items ≡ into.old.items ++ text_of_tokens (proc_tokens name.now params.now returns.now body.now)) }
{
    name.put(into)?;
    put_symbol(into, COLON)?;
    put_word(into, PROC)?;
    put_maybe_bracketed(into, params.as_slice())?;
    put_returns(into, returns)?;
    put_block(into, body)?;
    Ok(())
}

impl Part for Decl {
    ghost tokens = { decl_tokens };

    fn put(&self, into: &mut Vec<u8>) -> Result<(), NoMemory> {
        match self {
            Decl::Length { sort, number, .. } => {
                put_word(into, LENGTH)?;
                put_word(into, sort_word(*sort))?;
                put_bracketed_number(into, number)?;
                put_symbol(into, SEMICOLON)?;
                Ok(())
            }
            Decl::Type { name, typing, .. } => {
                put_word(into, TYPE)?;
                name.put(into)?;
                put_typing(into, typing)?;
                put_symbol(into, SEMICOLON)?;
                Ok(())
            }
            Decl::Declare { declared, .. } => {
                put_word(into, DCL)?;
                put_listed(into, declared.as_slice())?;
                put_symbol(into, SEMICOLON)?;
                Ok(())
            }
            Decl::Specify { specs, .. } => {
                put_word(into, SPC)?;
                put_listed(into, specs.as_slice())?;
                put_symbol(into, SEMICOLON)?;
                Ok(())
            }
            Decl::Task {
                name,
                head,
                body,
                ..
            } => put_task(into, name, head, body),
            Decl::Proc {
                name,
                params,
                returns,
                body,
                ..
            } => put_proc(into, name, params, returns, body),
        }
    }
}

fn put_bracketed_name(into: &mut Vec<u8>, name: &Name) -> Result<(), NoMemory>
    ensures { OnOk result (into.new.items ≡ into.old.items ++ text_of_tokens (bracketed_name name.now)) }
{
    put_symbol(into, LEFT_ROUND)?;
    name.put(into)?;
    put_symbol(into, RIGHT_ROUND)?;
    Ok(())
}

impl Part for ModuleName {
    ghost tokens = { module_name_tokens };

    fn put(&self, into: &mut Vec<u8>) -> Result<(), NoMemory> {
        match self {
            ModuleName::Bracketed(name) => put_bracketed_name(into, name),
            ModuleName::Bare(name) => put_bracketed_name(into, name),
        }
    }
}

fn put_system(into: &mut Vec<u8>, system: &Option<Parts<Device>>) -> Result<(), NoMemory>
    ensures { OnOk result (into.new.items ≡ into.old.items ++ text_of_tokens (maybe system_tokens system.now)) }
{
    if let Some(devices) = system {
        put_word(into, SYSTEM)?;
        put_symbol(into, SEMICOLON)?;
        put_each(into, devices.as_slice())?;
    }
    Ok(())
}

// Up to PROBLEM and its semicolon.
fn put_front(into: &mut Vec<u8>, tree: &Tree) -> Result<(), NoMemory>
    ensures { OnOk result (into.new.items ≡ into.old.items ++ text_of_tokens (front_tokens tree.now)) }
{
    put_word(into, MODULE)?;
    put_maybe(into, &tree.name)?;
    put_symbol(into, SEMICOLON)?;
    put_system(into, &tree.system)?;
    put_word(into, PROBLEM)?;
    put_symbol(into, SEMICOLON)?;
    Ok(())
}

#[tactic(auto, using(crate::proofs::Texts::text_steps, std::proofs::lemmas::Grind::common_steps), unfolding(crate::specs::Modules::tokens_of))]
pub(crate) fn put_tree(into: &mut Vec<u8>, tree: &Tree) -> Result<(), NoMemory>
    ensures { OnOk result (into.new.items ≡ into.old.items ++ text_of_tokens (tokens_of tree.now)) }
{
    put_front(into, tree)?;
    put_each(into, tree.declarations.as_slice())?;
    put_word(into, MODEND)?;
    put_symbol(into, SEMICOLON)?;
    Ok(())
}
