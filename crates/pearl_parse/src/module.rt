// Tasks and procedures, declarations of all kinds, and whole modules.

ghost use Rattle.std.specs.Prelude.{◌≡◌, ◌+◌, ◌<◌, ◌≤◌, length, false, ◌≢◌, IfOk, IfErr, OnOk};
ghost use Rattle.pearl_tree.specs.Standing.{HasWord, HasSymbol, IsName, SpellsMaybe};
ghost use Rattle.pearl_tree.specs.Modules.{SpellsDecl, SpellsModuleName};
ghost use Rattle.pearl_parse_expr.specs.Reads.{ReadsOnly, ReadsOnlyMaybe};
ghost use Rattle.pearl_parse_expr.specs.declared.reading.Halt.{Halt};
ghost use Rattle.pearl_parse.specs.Reads.{ReadsOnlyBehind};
ghost use Rattle.pearl_tree.specs.declared.symbol.TheConstants as s;
ghost use Rattle.pearl_tree.specs.declared.word_code.TheConstants as w;
ghost use Rattle.pearl_parse.specs.Modules as modules;
ghost use Rattle.pearl_parse.specs.Stops as spec;

use crate::block::block;
use crate::lists::{Repeated, each};
use crate::name::name;
use crate::system::opening;
use crate::token::{symbol, word};
use pearl_parse_decl::declaration::{declare, length_of, specify, type_of};
use pearl_parse_decl::head::{returns, task_head};
use pearl_parse_decl::list::maybe_bracketed;
use pearl_parse_expr::reading::{Halt, Reading};
use pearl_parse_expr::standing::{is_symbol, is_word, name_at, place_at};
use pearl_tree::name::Name;
use pearl_tree::parts::Parts;
use pearl_tree::symbol::{COLON, LEFT_ROUND, RIGHT_ROUND, SEMICOLON};
use pearl_tree::token::Token;
use pearl_tree::tree::{Decl, ModuleName, Tree};
use pearl_tree::word_code::*;
use std::alloc::Global;

/// `id ":" TASK ( [ prio ] [ MAIN ] | MAIN prio ) ";" body END ";"`, where its first three tokens stand.
fn task(alloc: Global, tokens: &[Token], from: usize, name: Name) -> Result<Reading<Decl>, Halt>
    requires within { from + 2 < length tokens.now }
    requires name { IsName tokens.now from name }
    requires colon { HasSymbol tokens.now (from + 1) s.COLON }
    requires word { HasWord tokens.now (from + 2) w.TASK }
    ensures { ReadsOnly 24 SpellsDecl tokens.now from result }
{
    let head = task_head(tokens, from + 3);
    let block = block(alloc, tokens, head.end, head.stop)?;
    Ok(Reading {
        part: Decl::Task {
            name,
            head: head.part,
            body: block.part,
            place: place_at(tokens, from),
        },
        end: block.end,
        stop: block.stop,
    })
}

/// `id ":" PROC [ "(" param { "," param } ")" ] [ RETURNS "(" basic ")" ] ";" body END ";"`, where its first three
/// tokens stand.
fn procedure(
    alloc: Global,
    tokens: &[Token],
    from: usize,
    name: Name,
) -> Result<Reading<Decl>, Halt>
    requires within { from + 2 < length tokens.now }
    requires name { IsName tokens.now from name }
    requires colon { HasSymbol tokens.now (from + 1) s.COLON }
    requires word { HasWord tokens.now (from + 2) w.PROC }
    ensures { ReadsOnly 24 SpellsDecl tokens.now from result }
{
    let params = match maybe_bracketed(alloc, tokens, from + 3) {
        Ok(params) => params,
        Err(_) => return Err(Halt::NoMemory),
    };
    let returns = returns(tokens, params.end);
    let block = block(alloc, tokens, returns.end, params.stop.max(returns.stop))?;
    Ok(Reading {
        part: Decl::Proc {
            name,
            params: Parts::new(params.part),
            returns: returns.part,
            body: block.part,
            place: place_at(tokens, from),
        },
        end: block.end,
        stop: block.stop,
    })
}

/// The task or procedure with this name.
fn unit(alloc: Global, tokens: &[Token], from: usize, name: Name) -> Result<Reading<Decl>, Halt>
    requires within { from < length tokens.now }
    requires name { IsName tokens.now from name }
    ensures { ReadsOnly 24 SpellsDecl tokens.now from result }
{
    symbol(tokens, from + 1, from, COLON)?;
    if is_word(tokens, from + 2, TASK) {
        return task(alloc, tokens, from, name);
    }
    word(tokens, from + 2, from + 2, PROC)?;
    procedure(alloc, tokens, from, name)
}

/// The rule `decl`: what is declared here, by its first token.
fn declaration(alloc: Global, tokens: &[Token], from: usize) -> Result<Reading<Decl>, Halt>
    requires { from ≤ length tokens.now }
    ensures { ReadsOnly 24 SpellsDecl tokens.now from result }
{
    if is_word(tokens, from, LENGTH) {
        return length_of(tokens, from);
    }
    if is_word(tokens, from, TYPE) {
        return type_of(alloc, tokens, from);
    }
    if is_word(tokens, from, DCL) {
        return declare(alloc, tokens, from);
    }
    if is_word(tokens, from, SPC) {
        return specify(alloc, tokens, from);
    }
    match name_at(tokens, from) {
        Some(name) => unit(alloc, tokens, from, name),
        None => Err(Halt::Refused(from)),
    }
}

impl Repeated for Decl {
    ghost spelling = { SpellsDecl };

    ghost begins = { modules.begins_declaration };

    fn read(alloc: Global, tokens: &[Token], from: usize) -> Result<Reading<Decl>, Halt> {
        declaration(alloc, tokens, from)
    }

    ghost first = { modules.declaration_begins };
}

/// `[ "(" id ")" | id ]`
fn module_name(tokens: &[Token], from: usize) -> Result<Reading<Option<ModuleName>>, Halt>
    requires { from ≤ length tokens.now }
    ensures reads { ReadsOnlyMaybe 16 modules.SpellsOptionalName modules.SpellsOptionalName (λ tokens. SpellsMaybe (SpellsModuleName tokens)) tokens.now from result }
    ensures close { IfOk result (λ reading. reading.stop ≡ reading.end) }
    ensures memory { IfErr result (λ halt. halt ≢ Halt.NoMemory) }
{
    if is_symbol(tokens, from, LEFT_ROUND) {
        let name = name(tokens, from + 1, from)?;
        symbol(tokens, from + 2, from, RIGHT_ROUND)?;
        return Ok(Reading {
            part: Some(ModuleName::Bracketed(name)),
            end: from + 3,
            stop: from + 3,
        });
    }
    match name_at(tokens, from) {
        Some(name) => Ok(Reading {
            part: Some(ModuleName::Bare(name)),
            end: from + 1,
            stop: from + 1,
        }),
        None => Ok(Reading {
            part: None,
            end: from,
            stop: from,
        }),
    }
}

/// `MODULE [ "(" id ")" | id ] ";"`
fn head(tokens: &[Token], from: usize) -> Result<Reading<Option<ModuleName>>, Halt>
    requires { from ≤ length tokens.now }
    ensures reads { ReadsOnly 16 modules.SpellsHead tokens.now from result }
    ensures close { IfOk result (λ reading. reading.stop ≡ reading.end) }
    ensures memory { IfErr result (λ halt. halt ≢ Halt.NoMemory) }
{
    word(tokens, from, from, MODULE)?;
    let name = module_name(tokens, from + 1)?;
    symbol(tokens, name.end, name.stop, SEMICOLON)?;
    Ok(name.past(1))
}

/// The end of the tokens.
fn end_of_tokens(tokens: &[Token], at: usize, stop: usize) -> Result<(), Halt>
    requires { at ≤ length tokens.now }
    ensures end_of_tokens { OnOk result (at ≡ length tokens.now) }
    ensures missing { IfErr result (λ halt. spec.IsMissing tokens.now modules.is_end at stop halt) }
{
    if at < tokens.len() {
        return Err(Halt::Refused(stop.max(at)));
    }
    Ok(())
}

/// `MODEND [ ";" ]` and the end of the tokens; whether there is a semicolon.
fn ending(tokens: &[Token], from: usize, least_stop: usize) -> Result<Reading<bool>, Halt>
    requires least_stop { (from ≤ least_stop) × (least_stop ≤ length tokens.now) }
    ensures reads { ReadsOnlyBehind 8 modules.SpellsEnding modules.SpellsEnding modules.SpellsClose tokens.now from (from + 1) least_stop result }
    ensures memory { IfErr result (λ halt. halt ≢ Halt.NoMemory) }
{
    word(tokens, from, least_stop, MODEND)?;
    let stop = least_stop.max(from + 1);
    if is_symbol(tokens, from + 1, SEMICOLON) {
        end_of_tokens(tokens, from + 2, stop)?;
        return Ok(Reading {
            part: true,
            end: from + 2,
            stop: from + 2,
        });
    }
    end_of_tokens(tokens, from + 1, stop)?;
    Ok(Reading {
        part: false,
        end: from + 1,
        stop: from + 1,
    })
}

/// The module that the tokens are, from the first one to the last.
pub fn module(alloc: Global, tokens: &[Token]) -> Result<Reading<Tree>, Halt>
    ensures { ReadsOnly 24 modules.SpellsSource tokens.now 0 result }
{
    let head = head(tokens, 0)?;
    let opening = opening(alloc, tokens, head.end)?;
    let list = match each(alloc, tokens, opening.end) {
        Ok(list) => list,
        Err(_) => return Err(Halt::NoMemory),
    };
    let ending = ending(tokens, list.end, list.stop.max(opening.stop))?;
    Ok(Reading {
        part: Tree {
            name: head.part,
            system: opening.part,
            declarations: Parts::new(list.part),
            modend: place_at(tokens, list.end),
            semicolon: ending.part,
            place: place_at(tokens, 0),
        },
        end: ending.end,
        stop: ending.stop,
    })
}
