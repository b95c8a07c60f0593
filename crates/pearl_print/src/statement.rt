// Statements and bodies.
#![tactic(auto, using(crate::proofs::Texts::text_steps, std::proofs::lemmas::Grind::common_steps))]

ghost use Rattle.std.specs.Prelude.{◌≡◌, ◌<◌, ◌++◌, OnOk};
ghost use Rattle.std.specs.List.{flat_map};
ghost use Rattle.pearl_tree.specs.declared.symbol.TheConstants as s;
ghost use Rattle.pearl_tree.specs.declared.word_code.TheConstants as w;
ghost use Rattle.pearl_tree.specs.Words.{code_count};
ghost use Rattle.pearl_print.specs.Lists.{word, symbol, maybe};
ghost use Rattle.pearl_print.specs.Spelled.{text_of_tokens};
ghost use Rattle.pearl_print.specs.Statements.{assign_tokens, call_tokens, return_tokens, value_tokens, body_decl_tokens, for_tokens, loop_tokens, stmt_tokens, branch_tokens, body_tokens, block_tokens};

use crate::expression::{put_expr, put_ref};
use crate::lists::{Part, put_each, put_listed, put_maybe_bracketed};
use crate::put::{put_symbol, put_word};
use crate::schedule::{put_after, put_maybe_after};
use crate::tasking::{
    put_activate, put_continue, put_on_interrupt, put_on_semas, put_on_task, put_resume,
};
use crate::transfer::{put_get, put_put, put_send, put_take};
use pearl_tree::expression::Expr;
use pearl_tree::name::Name;
use pearl_tree::parts::Parts;
use pearl_tree::statement::{Assign, Body, BodyDecl, Branch, Call, Repeat, Return, Stmt};
use pearl_tree::symbol::{BECOMES, LEFT_ROUND, RIGHT_ROUND, SEMICOLON};
use pearl_tree::word_code::{
    ALT, BEGIN, BY, CALL, CASE, DCL, ELSE, END, EXIT, FIN, FOR, FROM, IF, OUT, REPEAT, RETURN,
    THEN, TO, WHILE,
};
use std::alloc::AllocError as NoMemory;

impl Part for BodyDecl {
    ghost tokens = { body_decl_tokens };

    fn put(&self, into: &mut Vec<u8>) -> Result<(), NoMemory> {
        put_word(into, DCL)?;
        put_listed(into, self.items.as_slice())?;
        put_symbol(into, SEMICOLON)?;
        Ok(())
    }
}

fn put_assign(into: &mut Vec<u8>, part: &Assign) -> Result<(), NoMemory>
    ensures { OnOk result (into.new.items ≡ into.old.items ++ text_of_tokens (assign_tokens part.now)) }
{
    put_ref(into, &part.target)?;
    put_symbol(into, BECOMES)?;
    put_expr(into, &part.value)?;
    put_symbol(into, SEMICOLON)?;
    Ok(())
}

fn put_call(into: &mut Vec<u8>, part: &Call) -> Result<(), NoMemory>
    ensures { OnOk result (into.new.items ≡ into.old.items ++ text_of_tokens (call_tokens part.now)) }
{
    put_word(into, CALL)?;
    part.name.put(into)?;
    put_maybe_bracketed(into, part.arguments.as_slice())?;
    put_symbol(into, SEMICOLON)?;
    Ok(())
}

fn put_return(into: &mut Vec<u8>, part: &Return) -> Result<(), NoMemory>
    ensures { OnOk result (into.new.items ≡ into.old.items ++ text_of_tokens (return_tokens part.now)) }
{
    put_word(into, RETURN)?;
    put_returned(into, &part.value)?;
    put_symbol(into, SEMICOLON)?;
    Ok(())
}

fn put_returned(into: &mut Vec<u8>, value: &Option<Expr>) -> Result<(), NoMemory>
    ensures { OnOk result (into.new.items ≡ into.old.items ++ text_of_tokens (maybe value_tokens value.now)) }
{
    if let Some(value) = value {
        put_symbol(into, LEFT_ROUND)?;
        put_expr(into, value)?;
        put_symbol(into, RIGHT_ROUND)?;
    }
    Ok(())
}

fn put_ended(into: &mut Vec<u8>, code: u8) -> Result<(), NoMemory>
    requires { code < code_count }
    ensures { OnOk result (into.new.items ≡ into.old.items ++ text_of_tokens (word code ++ symbol s.SEMICOLON)) }
{
    put_word(into, code)?;
    put_symbol(into, SEMICOLON)?;
    Ok(())
}

// What stands before REPEAT.
fn put_loop(into: &mut Vec<u8>, part: &Repeat) -> Result<(), NoMemory>
    ensures { OnOk result
        (let tokens = loop_tokens part.now.control part.now.begin part.now.step part.now.end part.now.condition in
        into.new.items ≡ into.old.items ++ text_of_tokens tokens) }
{
    put_for(into, &part.control)?;
    put_maybe_after(into, FROM, &part.begin)?;
    put_maybe_after(into, BY, &part.step)?;
    put_maybe_after(into, TO, &part.end)?;
    put_maybe_after(into, WHILE, &part.condition)?;
    Ok(())
}

fn put_for(into: &mut Vec<u8>, control: &Option<Name>) -> Result<(), NoMemory>
    ensures { OnOk result (into.new.items ≡ into.old.items ++ text_of_tokens (maybe for_tokens control.now)) }
{
    if let Some(name) = control {
        put_word(into, FOR)?;
        name.put(into)?;
    }
    Ok(())
}

#[cycle(statement)]
fn put_stmt(into: &mut Vec<u8>, stmt: &Stmt) -> Result<(), NoMemory>
    ensures { OnOk result (into.new.items ≡ into.old.items ++ text_of_tokens (stmt_tokens stmt.now)) }
{
    match stmt {
        Stmt::Empty { .. } => put_symbol(into, SEMICOLON),
        Stmt::Assign(part) => put_assign(into, part),
        Stmt::Call(part) => put_call(into, part),
        Stmt::If(part) => {
            put_after(into, IF, &part.condition)?;
            put_word(into, THEN)?;
            put_stmts(into, &part.statements)?;
            put_otherwise(into, ELSE, &part.otherwise)?;
            put_ended(into, FIN)?;
            Ok(())
        }
        Stmt::Case(part) => {
            put_after(into, CASE, &part.selector)?;
            put_alternatives(into, &part.alternatives)?;
            put_otherwise(into, OUT, &part.otherwise)?;
            put_ended(into, FIN)?;
            Ok(())
        }
        Stmt::Repeat(part) => {
            put_loop(into, part)?;
            put_block(into, REPEAT, &part.body)?;
            Ok(())
        }
        Stmt::Exit { .. } => put_ended(into, EXIT),
        Stmt::Begin(part) => put_block(into, BEGIN, &part.body),
        Stmt::Return(part) => put_return(into, part),
        Stmt::Activate(part) => put_activate(into, part),
        Stmt::Continue(part) => put_continue(into, part),
        Stmt::Resume(part) => put_resume(into, part),
        Stmt::OnTask(part) => put_on_task(into, part),
        Stmt::OnSemas(part) => put_on_semas(into, part),
        Stmt::OnInterrupt(part) => put_on_interrupt(into, part),
        Stmt::Put(part) => put_put(into, part),
        Stmt::Get(part) => put_get(into, part),
        Stmt::Send(part) => put_send(into, part),
        Stmt::Take(part) => put_take(into, part),
    }
}

#[cycle(statement)]
fn put_stmts(into: &mut Vec<u8>, stmts: &Parts<Stmt>) -> Result<(), NoMemory>
    ensures { OnOk result
        (into.new.items ≡ into.old.items ++ text_of_tokens (flat_map stmt_tokens stmts.now.items.items)) }
{
    for stmt in stmts.as_slice() {
        put_stmt(into, stmt)?;
    }
    Ok(())
}

#[cycle(statement)]
fn put_alternatives(into: &mut Vec<u8>, branches: &Parts<Branch>) -> Result<(), NoMemory>
    ensures { OnOk result
        (let tokens = flat_map (branch_tokens w.ALT) branches.now.items.items in
        into.new.items ≡ into.old.items ++ text_of_tokens tokens) }
{
    for branch in branches.as_slice() {
        put_branch(into, ALT, branch)?;
    }
    Ok(())
}

#[cycle(statement)]
fn put_otherwise(into: &mut Vec<u8>, code: u8, branch: &Option<Branch>) -> Result<(), NoMemory>
    requires { code < code_count }
    ensures { OnOk result
        (into.new.items ≡ into.old.items ++ text_of_tokens (maybe (branch_tokens code) branch.now)) }
{
    if let Some(branch) = branch {
        put_branch(into, code, branch)?;
    }
    Ok(())
}

#[cycle(statement)]
fn put_branch(into: &mut Vec<u8>, code: u8, branch: &Branch) -> Result<(), NoMemory>
    requires { code < code_count }
    ensures { OnOk result (into.new.items ≡ into.old.items ++ text_of_tokens (branch_tokens code branch.now)) }
{
    put_word(into, code)?;
    put_stmts(into, &branch.statements)?;
    Ok(())
}

// A body between a word and END.
#[cycle(statement)]
fn put_block(into: &mut Vec<u8>, code: u8, body: &Body) -> Result<(), NoMemory>
    requires { code < code_count }
    ensures { OnOk result (into.new.items ≡ into.old.items ++ text_of_tokens (block_tokens code body.now)) }
{
    put_word(into, code)?;
    put_body(into, body)?;
    put_ended(into, END)?;
    Ok(())
}

#[cycle(statement)]
pub(crate) fn put_body(into: &mut Vec<u8>, body: &Body) -> Result<(), NoMemory>
    ensures { OnOk result (into.new.items ≡ into.old.items ++ text_of_tokens (body_tokens body.now)) }
{
    put_each(into, body.declarations.as_slice())?;
    put_stmts(into, &body.statements)?;
    Ok(())
}
