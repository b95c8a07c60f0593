// The tokens of a source.

ghost use Rattle.std.specs.Prelude.{◌≡◌, ◌+◌, ◌-◌, ◌<◌, ◌≤◌, ◌^◌, length, drop, IfOk, IfErr, OnOk, [], ◌∷◌, ◌++◌};
ghost use Rattle.pearl_tree.specs.Tokens.{AreLawful, PlacesRise};
ghost use Rattle.pearl_lex.specs.declared.fault.LexFault.{LexFault};
ghost use Rattle.pearl_lex.specs.Spelling.{space_len};
ghost use Rattle.pearl_lex.specs.Lexes.{IsSpace, Lexes, IsRefusedAt};

use crate::fault::LexFault;
use crate::front::begin;
use crate::spelling::{rest_of, space_len};
use pearl_tree::token::Token;
use std::alloc::Global;

fn past_space(bytes: &[u8], from: usize) -> usize
    requires { from ≤ length bytes.now }
    ensures space { IsSpace bytes.now from result }
    ensures none { space_len (drop result bytes.now) ≡ 0 }
    ensures within { result ≤ length bytes.now }
    ensures on { from ≤ result }
{
    let mut place = from;
    let mut size = space_len(rest_of(bytes, place));
    while size > 0 {
        place += size;
        size = space_len(rest_of(bytes, place));
    }
    place
}

fn append(tokens: &mut Vec<Token>, token: Token) -> Result<(), LexFault>
    ensures more { OnOk result (tokens.new.items ≡ tokens.old.items ++ token ∷ []) }
    ensures fault { IfErr result (λ fault. fault ≡ LexFault.NoMemory) }
{
    match tokens.push(token) {
        Ok(()) => Ok(()),
        Err(_) => Err(LexFault::NoMemory),
    }
}

/// The tokens of a source, or the place at which it has none.
pub fn tokens(alloc: Global, bytes: &[u8]) -> Result<Vec<Token>, LexFault>
    requires { length bytes.now < 2 ^ 32 - 1 }
    ensures tokens { IfOk result (λ tokens. Lexes bytes.now tokens.items) }
    ensures lawful { IfOk result (λ tokens. AreLawful tokens.items) }
    ensures placed { IfOk result (λ tokens. PlacesRise 0 (length bytes.now) tokens.items) }
    ensures refused { IfErr result (λ fault. IsRefusedAt bytes.now fault) }
{
    let mut tokens = Vec::new(alloc);
    let mut end = 0;
    let mut place = past_space(bytes, 0);
    while place < bytes.len() {
        match begin(rest_of(bytes, place)) {
            Some(front) => {
                let token = Token {
                    place: place as u32,
                    what: front.what,
                };
                append(&mut tokens, token)?;
                end = place + front.size;
                place = past_space(bytes, end);
            }
            None => return Err(LexFault::Refused(place as u32)),
        }
    }
    Ok(tokens)
}
