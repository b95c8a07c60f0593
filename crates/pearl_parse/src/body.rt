// Bodies of tasks and procedures, and the declarations of bodies.

ghost use Rattle.std.specs.Prelude.{◌+◌, ◌<◌, ◌≤◌, length};
ghost use Rattle.std.proofs.Common.{ap};
ghost use Rattle.pearl_tree.specs.Statements.{SpellsBodyDecl, SpellsWholeBody};
ghost use Rattle.pearl_tree.specs.declared.word_code.TheConstants as w;
ghost use Rattle.pearl_parse_expr.specs.Stops.{is_word};
ghost use Rattle.pearl_parse_expr.specs.Reads.{ReadsMaybe, ReadsOnly};
ghost use Rattle.pearl_parse.specs.Bodies.{extends_body, SpellsInner};
ghost use Rattle.pearl_tree.specs.declared.limit.TheConstants as limit;

use crate::lists::Repeated;
use crate::statement::body;
use crate::token::{symbol, word};
use pearl_parse_decl::list::list;
use pearl_parse_expr::reading::{Halt, Reading};
use pearl_parse_expr::standing::place_at;
use pearl_tree::limit::NESTED_MAX;
use pearl_tree::parts::Parts;
use pearl_tree::statement::{Body, BodyDecl};
use pearl_tree::symbol::SEMICOLON;
use pearl_tree::token::Token;
use pearl_tree::word_code::DCL;
use std::alloc::Global;

/// `DCL item { "," item } ";"`
fn body_declaration(alloc: Global, tokens: &[Token], from: usize) -> Result<Reading<BodyDecl>, Halt>
    requires { from ≤ length tokens.now }
    ensures { ReadsOnly 24 SpellsBodyDecl tokens.now from result }
{
    word(tokens, from, from, DCL)?;
    let items = list(alloc, tokens, from + 1)?;
    symbol(tokens, items.end, items.stop, SEMICOLON)?;
    let place = place_at(tokens, from);
    let items = items.past(1).map(Parts::new);
    Ok(items.map(|items| BodyDecl { items, place }))
}

impl Repeated for BodyDecl {
    ghost spelling = { SpellsBodyDecl };

    ghost begins = { is_word w.DCL };

    fn read(alloc: Global, tokens: &[Token], from: usize) -> Result<Reading<BodyDecl>, Halt> {
        body_declaration(alloc, tokens, from)
    }

    ghost first = { λ tokens from x to h. ap (is_word w.DCL) h.2 };
}

/// The longest body that begins here, of a task or procedure.
pub fn whole_body(alloc: Global, tokens: &[Token], from: usize) -> Result<Reading<Body>, Halt>
    requires { from ≤ length tokens.now }
    ensures { ReadsMaybe 24 SpellsWholeBody SpellsWholeBody (SpellsInner limit.NESTED_MAX) extends_body tokens.now from result }
{
    match body(alloc, tokens, from, from, NESTED_MAX) {
        Ok(read) => Ok(Reading {
            part: read.part,
            end: read.end,
            stop: read.stop,
        }),
        Err(halt) => Err(halt),
    }
}
