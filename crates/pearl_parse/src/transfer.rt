// Statements that transfer values: PUT, GET, SEND and TAKE.

ghost use Rattle.std.specs.Prelude.{◌+◌, ◌<◌, ◌≤◌, length};
ghost use Rattle.pearl_tree.specs.Standing.{HasWord};
ghost use Rattle.pearl_grammar.specs.Rules.{Spells};
ghost use Rattle.pearl_grammar.specs.Statements.{transfer_rule};
ghost use Rattle.pearl_parse.specs.Reads.{ReadsOnlyBehind, ReadsStatement};
ghost use Rattle.pearl_tree.specs.declared.word_code.TheConstants as w;
ghost use Rattle.pearl_parse.specs.Stops as spec;

use crate::expression::expr;
use crate::lists::unless;
use crate::name::name;
use crate::token::{symbol, word as word_here};
use pearl_parse_decl::expression::own_reference;
use pearl_parse_decl::list::{behind, list};
use pearl_parse_expr::reading::{Halt, Reading, boxed};
use pearl_parse_expr::standing::place_at;
use pearl_tree::format::Fmt;
use pearl_tree::name::Name;
use pearl_tree::parts::Parts;
use pearl_tree::statement::{Get, Put, Send, Stmt, Take};
use pearl_tree::symbol::SEMICOLON;
use pearl_tree::token::Token;
use pearl_tree::word_code::*;
use std::alloc::Global;

/// What stands behind TO or FROM.
#[derive(Drop)]
struct Transfer {
    dation: Name,
    formats: Vec<Fmt>,
}

/// `id BY fmt { "," fmt } ";"`
fn station(
    alloc: Global,
    tokens: &[Token],
    from: usize,
    least_stop: usize,
) -> Result<Reading<Transfer>, Halt>
    requires from { from ≤ length tokens.now }
    requires least_stop { least_stop ≤ length tokens.now }
    ensures { ReadsOnlyBehind 24 spec.SpellsTransfer (Spells transfer_rule) (Spells transfer_rule) tokens.now from (from + 1) least_stop result }
{
    let dation = name(tokens, from, least_stop)?;
    word_here(tokens, from + 1, least_stop, BY)?;
    match list(alloc, tokens, from + 2) {
        Ok(list) => {
            let formats = list.no_earlier(least_stop);
            symbol(tokens, formats.end, formats.stop, SEMICOLON)?;
            Ok(formats.past(1).map(|formats| Transfer { dation, formats }))
        }
        Err(halt) => Err(behind(halt, least_stop)),
    }
}

/// `PUT [ expr { "," expr } ] TO id BY fmt { "," fmt } ";"`
pub fn put(alloc: Global, tokens: &[Token], from: usize) -> Result<Reading<Stmt>, Halt>
    requires within { from < length tokens.now }
    requires word { HasWord tokens.now from w.PUT }
    ensures { ReadsStatement tokens.now from result }
{
    let values = unless(alloc, tokens, from + 1, TO)?;
    word_here(tokens, values.end, values.stop, TO)?;
    let station = station(alloc, tokens, values.end + 1, values.stop)?;
    let put = Put {
        values: Parts::new(values.part),
        dation: station.part.dation,
        formats: Parts::new(station.part.formats),
        place: place_at(tokens, from),
    };
    Ok(Reading {
        part: Stmt::Put(boxed(alloc, put)?),
        end: station.end,
        stop: station.stop,
    })
}

/// `GET [ ref { "," ref } ] FROM id BY fmt { "," fmt } ";"`
pub fn get(alloc: Global, tokens: &[Token], from: usize) -> Result<Reading<Stmt>, Halt>
    requires within { from < length tokens.now }
    requires word { HasWord tokens.now from w.GET }
    ensures { ReadsStatement tokens.now from result }
{
    let targets = unless(alloc, tokens, from + 1, FROM)?;
    word_here(tokens, targets.end, targets.stop, FROM)?;
    let station = station(alloc, tokens, targets.end + 1, targets.stop)?;
    let get = Get {
        targets: Parts::new(targets.part),
        dation: station.part.dation,
        formats: Parts::new(station.part.formats),
        place: place_at(tokens, from),
    };
    Ok(Reading {
        part: Stmt::Get(boxed(alloc, get)?),
        end: station.end,
        stop: station.stop,
    })
}

/// `SEND expr TO id ";"`
pub fn send(alloc: Global, tokens: &[Token], from: usize) -> Result<Reading<Stmt>, Halt>
    requires within { from < length tokens.now }
    requires word { HasWord tokens.now from w.SEND }
    ensures { ReadsStatement tokens.now from result }
{
    let value = expr(alloc, tokens, from + 1, from)?;
    word_here(tokens, value.end, value.stop, TO)?;
    let dation = name(tokens, value.end + 1, value.stop)?;
    symbol(tokens, value.end + 2, value.stop, SEMICOLON)?;
    let place = place_at(tokens, from);
    let send = value.past(3).map(|value| Send {
        value,
        dation,
        place,
    });
    Ok(send.boxed(alloc)?.map(Stmt::Send))
}

/// `TAKE ref FROM id ";"`
pub fn take(alloc: Global, tokens: &[Token], from: usize) -> Result<Reading<Stmt>, Halt>
    requires within { from < length tokens.now }
    requires word { HasWord tokens.now from w.TAKE }
    ensures { ReadsStatement tokens.now from result }
{
    let target = own_reference(alloc, tokens, from + 1)?;
    word_here(tokens, target.end, target.stop, FROM)?;
    let dation = name(tokens, target.end + 1, target.stop)?;
    symbol(tokens, target.end + 2, target.stop, SEMICOLON)?;
    let place = place_at(tokens, from);
    let take = target.past(3).map(|target| Take {
        target,
        dation,
        place,
    });
    Ok(take.boxed(alloc)?.map(Stmt::Take))
}
