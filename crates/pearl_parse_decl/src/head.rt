// Heads of tasks and procedures.

ghost use Rattle.std.specs.Prelude.{◌≡◌, ◌≢◌, ◌+◌, ◌≤◌, Ok, length, IfOk, IfErr, refl};
ghost use Rattle.pearl_tree.specs.Standing.{SpellsMaybe};
ghost use Rattle.pearl_tree.specs.Declarations as grammar;
ghost use Rattle.pearl_tree.specs.Modules as modules;
ghost use Rattle.pearl_tree.specs.declared.word_code.TheConstants as w;
ghost use Rattle.pearl_parse_expr.specs.declared.reading.Halt.{Halt};
ghost use Rattle.pearl_parse_expr.specs.Stops as stops;
ghost use Rattle.pearl_parse_expr.specs.Reads.{Reads, ReadsOnly};
ghost use Rattle.pearl_parse_expr.proofs.Offered as parts;
ghost use Rattle.pearl_parse_decl.specs.Readings as spec;

use crate::flag::{flag, optional};
use crate::list::{Readable, behind};
use crate::name::names;
use crate::typing::basic;
use pearl_parse_expr::reading::{Halt, Reading};
use pearl_parse_expr::standing::{is_symbol, is_word, number_at, place_at};
use pearl_tree::declaration::{Param, Prio};
use pearl_tree::symbol::{LEFT_ROUND, RIGHT_ROUND};
use pearl_tree::token::Token;
use pearl_tree::tree::TaskHead;
use pearl_tree::typing::Basic;
use pearl_tree::word_code::{IDENT, MAIN, PRIO, RETURNS};
use std::alloc::Global;

/// `names basic [ IDENT ]`
pub fn param(alloc: Global, tokens: &[Token], from: usize) -> Result<Reading<Param>, Halt>
    requires { from ≤ length tokens.now }
    ensures { Reads 16 grammar.SpellsParam spec.extends_param tokens.now from result }
{
    let names = names(alloc, tokens, from)?;
    let basic = match basic(tokens, names.end) {
        Ok(basic) => basic,
        Err(halt) => return Err(behind(halt, names.stop)),
    };
    let ident = flag(tokens, basic.end, IDENT);
    Ok(Reading {
        part: Param {
            names: names.part,
            basic: basic.part,
            ident: ident.part,
            place: place_at(tokens, from),
        },
        end: ident.end,
        stop: ident.stop.max(basic.stop.max(names.stop)),
    })
}

impl Readable for Param {
    ghost spelling = { grammar.SpellsParam };

    ghost extends = { spec.extends_param };

    fn read(alloc: Global, tokens: &[Token], from: usize) -> Result<Reading<Param>, Halt> {
        param(alloc, tokens, from)
    }

    ghost begins = { parts.params_begin };

    ghost stops_at_comma = { refl };

    ghost stops_at_bracket = { refl };
}

// `PRIO number`
fn prio(tokens: &[Token], from: usize) -> Result<Reading<Prio>, Halt>
    requires { from ≤ length tokens.now }
    ensures reads { ReadsOnly 16 grammar.SpellsPrio tokens.now from result }
    ensures once { IfOk result (λ reading. reading.stop ≡ reading.end) }
    ensures memory { IfErr result (λ halt. halt ≢ Halt.NoMemory) }
{
    if !is_word(tokens, from, PRIO) {
        return Err(Halt::Refused(from));
    }
    match number_at(tokens, from + 1) {
        Some(number) => Ok(Reading {
            part: Prio {
                number,
                place: place_at(tokens, from),
            },
            end: from + 2,
            stop: from + 2,
        }),
        None => Err(Halt::Refused(from + 1)),
    }
}

/// `[ prio ] [ MAIN ] | MAIN prio`
pub fn task_head(tokens: &[Token], from: usize) -> Reading<TaskHead>
    requires { from ≤ length tokens.now }
    ensures { spec.ReadsMaybePart 16 modules.SpellsTaskHead spec.extends_head tokens.now from (Ok result) }
{
    if is_word(tokens, from, MAIN) {
        let behind = optional(prio(tokens, from + 1), from + 1);
        return match behind.part {
            Some(prio) => Reading {
                part: TaskHead::MainFirst { prio },
                end: behind.end,
                stop: behind.stop,
            },
            None => Reading {
                part: TaskHead::PrioFirst {
                    prio: None,
                    main: true,
                },
                end: behind.end,
                stop: behind.stop,
            },
        };
    }
    let prio = optional(prio(tokens, from), from);
    let main = flag(tokens, prio.end, MAIN);
    Reading {
        part: TaskHead::PrioFirst {
            prio: prio.part,
            main: main.part,
        },
        end: main.end,
        stop: main.stop.max(prio.stop),
    }
}

// `RETURNS "(" basic ")"`
fn returned(tokens: &[Token], from: usize) -> Result<Reading<Basic>, Halt>
    requires { from ≤ length tokens.now }
    ensures reads { ReadsOnly 16 modules.SpellsReturns tokens.now from result }
    ensures memory { IfErr result (λ halt. halt ≢ Halt.NoMemory) }
{
    if !is_word(tokens, from, RETURNS) {
        return Err(Halt::Refused(from));
    }
    if !is_symbol(tokens, from + 1, LEFT_ROUND) {
        return Err(Halt::Refused(from + 1));
    }
    let basic = basic(tokens, from + 2)?;
    if !is_symbol(tokens, basic.end, RIGHT_ROUND) {
        return Err(Halt::Refused(basic.stop));
    }
    Ok(basic.past(1))
}

/// `[ RETURNS "(" basic ")" ]`
pub fn returns(tokens: &[Token], from: usize) -> Reading<Option<Basic>>
    requires { from ≤ length tokens.now }
    ensures { spec.ReadsMaybePart 16 (λ tokens. SpellsMaybe (modules.SpellsReturns tokens)) (stops.is_word w.RETURNS) tokens.now from (Ok result) }
{
    optional(returned(tokens, from), from)
}
