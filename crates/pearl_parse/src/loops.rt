// What stands before the body of a loop.

ghost use Rattle.std.specs.Prelude.{◌≢◌, ◌+◌, ◌<◌, ◌≤◌, length, IfErr};
ghost use Rattle.pearl_tree.specs.Standing.{SpellsMaybe};
ghost use Rattle.pearl_tree.specs.Statements.{SpellsFor};
ghost use Rattle.pearl_parse_expr.specs.declared.reading.Halt.{Halt};
ghost use Rattle.pearl_parse_expr.specs.Reads.{ReadsOnly, ReadsOnlyMaybe};
ghost use Rattle.pearl_parse.specs.Bodies as bodies;

use crate::name::name;
use crate::schedule::maybe_after;
use crate::token::word;
use pearl_parse_expr::reading::{Halt, Reading};
use pearl_parse_expr::standing::is_word;
use pearl_tree::expression::Expr;
use pearl_tree::name::Name;
use pearl_tree::token::Token;
use pearl_tree::word_code::*;
use std::alloc::Global;

/// The heads of a loop, each of which may be missing.
#[derive(Drop)]
pub struct Heads {
    pub control: Option<Name>,
    pub begin: Option<Expr>,
    pub step: Option<Expr>,
    pub end: Option<Expr>,
    pub condition: Option<Expr>,
}

/// `[ FOR id ]`
fn control(tokens: &[Token], from: usize) -> Result<Reading<Option<Name>>, Halt>
    requires { from ≤ length tokens.now }
    ensures reads { ReadsOnlyMaybe 8 (λ tokens. SpellsMaybe (SpellsFor tokens)) bodies.SpellsOptionalFor (λ tokens. SpellsMaybe (SpellsFor tokens)) tokens.now from result }
    ensures memory { IfErr result (λ halt. halt ≢ Halt.NoMemory) }
{
    if !is_word(tokens, from, FOR) {
        return Ok(Reading {
            part: None,
            end: from,
            stop: from,
        });
    }
    let control = name(tokens, from + 1, from)?;
    Ok(Reading {
        part: Some(control),
        end: from + 2,
        stop: from + 2,
    })
}

/// `[ FOR id ] [ FROM expr ] [ BY expr ] [ TO expr ] [ WHILE expr ] REPEAT`
pub fn loop_heads(alloc: Global, tokens: &[Token], from: usize) -> Result<Reading<Heads>, Halt>
    requires { from ≤ length tokens.now }
    ensures { ReadsOnly 16 bodies.SpellsHeads tokens.now from result }
{
    let control = control(tokens, from)?;
    let begin = maybe_after(alloc, tokens, control.end, control.stop, FROM)?;
    let step = maybe_after(alloc, tokens, begin.end, begin.stop, BY)?;
    let end = maybe_after(alloc, tokens, step.end, step.stop, TO)?;
    let condition = maybe_after(alloc, tokens, end.end, end.stop, WHILE)?;
    word(tokens, condition.end, condition.stop, REPEAT)?;
    Ok(
        condition.past(1).map(|condition| Heads {
            control: control.part,
            begin: begin.part,
            step: step.part,
            end: end.part,
            condition,
        }),
    )
}
