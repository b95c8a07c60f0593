// Variables and semaphores of a declaration.

ghost use Rattle.std.specs.Prelude.{◌+◌, ◌≤◌, length, IfOk, IfErr, Ok, refl};
ghost use Rattle.pearl_tree.specs.Types as types;
ghost use Rattle.pearl_tree.specs.Declarations as grammar;
ghost use Rattle.pearl_parse_expr.specs.Reads.{Reads, ReadsOnly};
ghost use Rattle.pearl_parse_expr.proofs.Offered as parts;
ghost use Rattle.pearl_parse_decl.specs.Readings as spec;

use crate::flag::flag;
use crate::list::{Readable, behind, maybe_headed};
use crate::name::names;
use crate::typing::{bounds, typing};
use pearl_parse_expr::reading::{Halt, Reading};
use pearl_parse_expr::standing::{is_word, place_at};
use pearl_tree::declaration::{Declared, Item, Sema};
use pearl_tree::limit::STRUCTS_MAX;
use pearl_tree::literal::Const;
use pearl_tree::name::{Names, Number};
use pearl_tree::parts::Parts;
use pearl_tree::token::Token;
use pearl_tree::word_code::{INIT, INV, PRESET, SEMA};
use std::alloc::Global;

// An item whose names were read.
fn item_behind(
    alloc: Global,
    tokens: &[Token],
    from: usize,
    names: Reading<Names>,
) -> Result<Reading<Item>, Halt>
    requires within { from ≤ length tokens.now }
    requires names { ReadsOnly 9 types.SpellsNames tokens.now from (Ok names) }
    ensures reads { Reads 16 grammar.SpellsItem spec.extends_item tokens.now from result }
    ensures far { IfOk result (λ reading. names.stop ≤ reading.stop) }
    ensures past { IfErr result (λ halt. spec.IsPast names.stop halt) }
{
    let bounds = bounds(alloc, tokens, names.end)?;
    let inv = flag(tokens, bounds.end, INV);
    let before = names.stop.max(bounds.stop).max(inv.stop);
    let typing = match typing(alloc, tokens, inv.end, STRUCTS_MAX) {
        Ok(typing) => typing,
        Err(halt) => return Err(behind(halt, before)),
    };
    let init = maybe_headed::<Const>(alloc, tokens, typing.end, INIT)?;
    Ok(Reading {
        part: Item {
            names: names.part,
            bounds: bounds.part,
            inv: inv.part,
            typing: typing.part,
            init: Parts::new(init.part),
            place: place_at(tokens, from),
        },
        end: init.end,
        stop: init.stop.max(typing.stop.max(before)),
    })
}

/// `names [ bounds ] [ INV ] type [ INIT "(" const { "," const } ")" ]`
pub fn item(alloc: Global, tokens: &[Token], from: usize) -> Result<Reading<Item>, Halt>
    requires { from ≤ length tokens.now }
    ensures { Reads 16 grammar.SpellsItem spec.extends_item tokens.now from result }
{
    match names(alloc, tokens, from) {
        Ok(names) => item_behind(alloc, tokens, from, names),
        Err(halt) => Err(halt),
    }
}

// A semaphore whose names were read.
fn sema_behind(
    alloc: Global,
    tokens: &[Token],
    from: usize,
    names: Reading<Names>,
) -> Result<Reading<Sema>, Halt>
    requires within { from ≤ length tokens.now }
    requires names { ReadsOnly 9 types.SpellsNames tokens.now from (Ok names) }
    ensures reads { Reads 16 grammar.SpellsSema spec.extends_sema tokens.now from result }
    ensures far { IfOk result (λ reading. names.stop ≤ reading.stop) }
    ensures past { IfErr result (λ halt. spec.IsPast names.stop halt) }
{
    if !is_word(tokens, names.end, SEMA) {
        return Err(Halt::Refused(names.stop));
    }
    let preset = maybe_headed::<Number>(alloc, tokens, names.end + 1, PRESET)?;
    Ok(Reading {
        part: Sema {
            names: names.part,
            preset: Parts::new(preset.part),
            place: place_at(tokens, from),
        },
        end: preset.end,
        stop: preset.stop.max(names.stop),
    })
}

/// A variable or a semaphore, by what follows its names.
pub fn declared(alloc: Global, tokens: &[Token], from: usize) -> Result<Reading<Declared>, Halt>
    requires { from ≤ length tokens.now }
    ensures { Reads 16 grammar.SpellsDeclared spec.extends_declared tokens.now from result }
{
    let names = names(alloc, tokens, from)?;
    if is_word(tokens, names.end, SEMA) {
        return match sema_behind(alloc, tokens, from, names) {
            Ok(sema) => Ok(Reading {
                part: Declared::Sema(sema.part),
                end: sema.end,
                stop: sema.stop,
            }),
            Err(halt) => Err(halt),
        };
    }
    match item_behind(alloc, tokens, from, names) {
        Ok(item) => Ok(Reading {
            part: Declared::Item(item.part),
            end: item.end,
            stop: item.stop,
        }),
        Err(halt) => Err(halt),
    }
}

impl Readable for Item {
    ghost spelling = { grammar.SpellsItem };

    ghost extends = { spec.extends_item };

    fn read(alloc: Global, tokens: &[Token], from: usize) -> Result<Reading<Item>, Halt> {
        item(alloc, tokens, from)
    }

    ghost begins = { parts.items_begin };

    ghost stops_at_comma = { refl };

    ghost stops_at_bracket = { refl };
}

impl Readable for Declared {
    ghost spelling = { grammar.SpellsDeclared };

    ghost extends = { spec.extends_declared };

    fn read(alloc: Global, tokens: &[Token], from: usize) -> Result<Reading<Declared>, Halt> {
        declared(alloc, tokens, from)
    }

    ghost begins = { parts.declared_begin };

    ghost stops_at_comma = { refl };

    ghost stops_at_bracket = { refl };
}
