// Declarations that have no body, from their first words on.

ghost use Rattle.std.specs.Prelude.{◌≢◌, ◌+◌, ◌≤◌, length, IfErr};
ghost use Rattle.pearl_tree.specs.Standing.{HasWord};
ghost use Rattle.pearl_tree.specs.Modules as modules;
ghost use Rattle.pearl_tree.specs.declared.word_code.TheConstants as w;
ghost use Rattle.pearl_parse_expr.specs.declared.reading.Halt.{Halt};
ghost use Rattle.pearl_parse_expr.specs.Reads.{ReadsOnly};

use crate::list::list;
use crate::name::bracketed_number;
use crate::typing::{sort_at, typing};
use pearl_parse_expr::reading::{Halt, Reading};
use pearl_parse_expr::standing::{is_symbol, name_at, place_at};
use pearl_tree::declaration::{Declared, Spec};
use pearl_tree::limit::STRUCTS_MAX;
use pearl_tree::parts::Parts;
use pearl_tree::symbol::SEMICOLON;
use pearl_tree::token::Token;
use pearl_tree::tree::Decl;
use std::alloc::Global;

/// `LENGTH ( FIXED | BIT | CHAR ) "(" number ")" ";"`
pub fn length_of(tokens: &[Token], from: usize) -> Result<Reading<Decl>, Halt>
    requires within { from ≤ length tokens.now }
    requires word { HasWord tokens.now from w.LENGTH }
    ensures reads { ReadsOnly 16 modules.SpellsDecl tokens.now from result }
    ensures memory { IfErr result (λ halt. halt ≢ Halt.NoMemory) }
{
    let sort = match sort_at(tokens, from + 1) {
        Some(sort) => sort,
        None => return Err(Halt::Refused(from + 1)),
    };
    let number = bracketed_number(tokens, from + 2)?;
    if !is_symbol(tokens, from + 5, SEMICOLON) {
        return Err(Halt::Refused(from + 5));
    }
    Ok(Reading {
        part: Decl::Length {
            sort,
            number: number.part,
            place: place_at(tokens, from),
        },
        end: from + 6,
        stop: from + 6,
    })
}

/// `TYPE id type ";"`
pub fn type_of(alloc: Global, tokens: &[Token], from: usize) -> Result<Reading<Decl>, Halt>
    requires within { from ≤ length tokens.now }
    requires word { HasWord tokens.now from w.TYPE }
    ensures { ReadsOnly 16 modules.SpellsDecl tokens.now from result }
{
    let name = match name_at(tokens, from + 1) {
        Some(name) => name,
        None => return Err(Halt::Refused(from + 1)),
    };
    let typing = typing(alloc, tokens, from + 2, STRUCTS_MAX)?;
    if !is_symbol(tokens, typing.end, SEMICOLON) {
        return Err(Halt::Refused(typing.stop));
    }
    let closed = typing.past(1);
    Ok(Reading {
        part: Decl::Type {
            name,
            typing: closed.part,
            place: place_at(tokens, from),
        },
        end: closed.end,
        stop: closed.stop,
    })
}

/// `DCL ( item | sema ) { "," ( item | sema ) } ";"`
pub fn declare(alloc: Global, tokens: &[Token], from: usize) -> Result<Reading<Decl>, Halt>
    requires within { from ≤ length tokens.now }
    requires word { HasWord tokens.now from w.DCL }
    ensures { ReadsOnly 16 modules.SpellsDecl tokens.now from result }
{
    let parts = list::<Declared>(alloc, tokens, from + 1)?;
    if !is_symbol(tokens, parts.end, SEMICOLON) {
        return Err(Halt::Refused(parts.stop));
    }
    let closed = parts.past(1);
    Ok(Reading {
        part: Decl::Declare {
            declared: Parts::new(closed.part),
            place: place_at(tokens, from),
        },
        end: closed.end,
        stop: closed.stop,
    })
}

/// `SPC spec { "," spec } ";"`
pub fn specify(alloc: Global, tokens: &[Token], from: usize) -> Result<Reading<Decl>, Halt>
    requires within { from ≤ length tokens.now }
    requires word { HasWord tokens.now from w.SPC }
    ensures { ReadsOnly 16 modules.SpellsDecl tokens.now from result }
{
    let parts = list::<Spec>(alloc, tokens, from + 1)?;
    if !is_symbol(tokens, parts.end, SEMICOLON) {
        return Err(Halt::Refused(parts.stop));
    }
    let closed = parts.past(1);
    Ok(Reading {
        part: Decl::Specify {
            specs: Parts::new(closed.part),
            place: place_at(tokens, from),
        },
        end: closed.end,
        stop: closed.stop,
    })
}
