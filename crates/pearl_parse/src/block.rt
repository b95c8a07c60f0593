// The bodies of tasks and procedures, from one semicolon to the other.

ghost use Rattle.std.specs.Prelude.{◌+◌, ◌≤◌, length, max};
ghost use Rattle.pearl_tree.specs.Modules.{SpellsBlock};
ghost use Rattle.pearl_parse.specs.Reads.{ReadsOnlyBehind};

use crate::body::whole_body;
use crate::token::{symbol, word};
use pearl_parse_decl::list::behind;
use pearl_parse_expr::reading::{Halt, Reading};
use pearl_tree::statement::Body;
use pearl_tree::symbol::SEMICOLON;
use pearl_tree::token::Token;
use pearl_tree::word_code::END;
use std::alloc::Global;

/// `";" body END ";"`
pub fn block(
    alloc: Global,
    tokens: &[Token],
    from: usize,
    least_stop: usize,
) -> Result<Reading<Body>, Halt>
    requires least_stop { (from ≤ least_stop) × (least_stop ≤ length tokens.now) }
    ensures { ReadsOnlyBehind 24 SpellsBlock SpellsBlock SpellsBlock tokens.now from (from + 1) least_stop result }
{
    symbol(tokens, from, least_stop, SEMICOLON)?;
    let body = match whole_body(alloc, tokens, from + 1) {
        Ok(body) => body,
        Err(halt) => return Err(behind(halt, least_stop)),
    };
    let stop = body.stop.max(least_stop);
    word(tokens, body.end, stop, END)?;
    symbol(tokens, body.end + 1, stop, SEMICOLON)?;
    Ok(body.no_earlier(stop).past(2))
}
