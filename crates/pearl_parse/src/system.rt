// The system part of a module.

ghost use Rattle.std.specs.Prelude.{◌+◌, ◌<◌, ◌≤◌, length};
ghost use Rattle.pearl_tree.specs.Standing.{HasWord, SpellsMaybe};
ghost use Rattle.pearl_tree.specs.Declarations.{SpellsDevice};
ghost use Rattle.pearl_tree.specs.Modules.{SpellsSystem};
ghost use Rattle.pearl_tree.specs.declared.word_code.TheConstants as w;
ghost use Rattle.pearl_parse_expr.specs.Stops.{is_name};
ghost use Rattle.pearl_parse_expr.specs.Reads.{Reads, ReadsOnly, ReadsMaybe};
ghost use Rattle.pearl_parse.specs.Modules as modules;

use crate::lists::{Repeated, each};
use crate::token::{symbol, word};
use pearl_parse_decl::specification::device;
use pearl_parse_expr::reading::{Halt, Reading};
use pearl_parse_expr::standing::is_word;
use pearl_tree::declaration::Device;
use pearl_tree::parts::Parts;
use pearl_tree::symbol::SEMICOLON;
use pearl_tree::token::Token;
use pearl_tree::word_code::{PROBLEM, SYSTEM};
use std::alloc::Global;

impl Repeated for Device {
    ghost spelling = { SpellsDevice };

    ghost begins = { is_name };

    fn read(_alloc: Global, tokens: &[Token], from: usize) -> Result<Reading<Device>, Halt> {
        device(tokens, from)
    }

    ghost first = { modules.device_begins };
}

/// `SYSTEM ";" { device }`
fn system(alloc: Global, tokens: &[Token], from: usize) -> Result<Reading<Parts<Device>>, Halt>
    requires within { from < length tokens.now }
    requires word { HasWord tokens.now from w.SYSTEM }
    ensures { Reads 16 SpellsSystem is_name tokens.now from result }
{
    symbol(tokens, from + 1, from, SEMICOLON)?;
    Ok(each(alloc, tokens, from + 2)?.map(Parts::new))
}

/// `[ SYSTEM ";" { device } ]`
fn maybe_system(
    alloc: Global,
    tokens: &[Token],
    from: usize,
) -> Result<Reading<Option<Parts<Device>>>, Halt>
    requires { from ≤ length tokens.now }
    ensures { ReadsMaybe 16 modules.SpellsOptionalSystem modules.SpellsOptionalSystem (λ tokens. SpellsMaybe (SpellsSystem tokens)) is_name tokens.now from result }
{
    if !is_word(tokens, from, SYSTEM) {
        return Ok(Reading {
            part: None,
            end: from,
            stop: from,
        });
    }
    Ok(system(alloc, tokens, from)?.map(Some))
}

/// `[ SYSTEM ";" { device } ] PROBLEM ";"`
pub fn opening(
    alloc: Global,
    tokens: &[Token],
    from: usize,
) -> Result<Reading<Option<Parts<Device>>>, Halt>
    requires { from ≤ length tokens.now }
    ensures { ReadsOnly 24 modules.SpellsOpening tokens.now from result }
{
    let system = maybe_system(alloc, tokens, from)?;
    word(tokens, system.end, system.stop, PROBLEM)?;
    symbol(tokens, system.end + 1, system.stop, SEMICOLON)?;
    Ok(system.past(2))
}
