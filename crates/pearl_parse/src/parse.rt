// The tree of a source, from its tokens.

ghost use Rattle.std.specs.Prelude.{◌≡◌, IfOk, IfErr};
ghost use Rattle.pearl_tree.specs.Modules.{Spells};
ghost use Rattle.pearl_tree.specs.Lawful.{IsLawful};
ghost use Rattle.pearl_tree.specs.Tokens.{AreLawful};
ghost use Rattle.pearl_parse.specs.Refusals as spec;

use crate::module::module;
use pearl_parse_expr::fault::ParseFault;
use pearl_parse_expr::reading::Halt;
use pearl_tree::token::Token;
use pearl_tree::tree::Tree;
use std::alloc::Global;

fn place_or_end(tokens: &[Token], end: u32, at: usize) -> u32
    ensures { result ≡ spec.place_or_end tokens.now end at }
{
    match tokens.get(at) {
        Some(token) => token.place,
        None => end,
    }
}

/// The tree of the module that a source is. `tokens` are those of the whole source, in order. `end` is the length of the
/// source: the place that is told where the tokens break off before the module ends.
///
/// Each node of the tree has the place of its first token; a body without tokens has that of the token behind it. The
/// tree has the place of MODEND too.
///
/// `Refused` comes where the tokens are no module, with the place of a token up to and with which no module begins,
/// whatever stands behind it. A token behind the end of a module is such a token. Where the tokens are lawful, it is the
/// first one: some module begins with the tokens before it. `NoMemory` comes where there is no memory for the tree, be
/// the tokens a module or not.
pub fn parse(alloc: Global, tokens: &[Token], end: u32) -> Result<Tree, ParseFault>
    ensures spells { IfOk result (λ tree. Spells tree tokens.now) }
    ensures lawful { AreLawful tokens.now → IfOk result (λ tree. IsLawful tree) }
    ensures refused { IfErr result (λ fault. spec.IsRefused tokens.now end fault) }
{
    match module(alloc, tokens) {
        Ok(read) => Ok(read.part),
        Err(halt) => match halt {
            Halt::Refused(stop) => Err(ParseFault::Refused(place_or_end(tokens, end, stop))),
            Halt::NoMemory => Err(ParseFault::NoMemory),
        },
    }
}
