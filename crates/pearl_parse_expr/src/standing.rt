// What stands at a token.

ghost use Rattle.std.specs.Prelude.{◌≡◌, ◌<◌, ◌↔◌, length, IfSome, IsTrue, None, true, false};
ghost use Rattle.pearl_tree.specs.Standing.{what_at, IsAt, HasWord, HasSymbol, IsName, IsNumber};
ghost use Rattle.pearl_parse_expr.specs.Stops as spec;

use pearl_tree::name::{Name, Number};
use pearl_tree::token::{Token, What};

/// Whether the token is this symbol.
pub fn is_symbol(tokens: &[Token], at: usize, symbol: u8) -> bool
    ensures value { result ≡ spec.is_symbol symbol (what_at tokens.now at) }
    ensures stands { result ≡ true → HasSymbol tokens.now at symbol }
    ensures within { result ≡ true → at < length tokens.now }
{
    match tokens.get(at) {
        Some(token) => match token.what {
            What::Symbol(found) => found == symbol,
            _ => false,
        },
        None => false,
    }
}

/// Whether the token is a word with this code.
pub fn is_word(tokens: &[Token], at: usize, word: u8) -> bool
    ensures value { result ≡ spec.is_word word (what_at tokens.now at) }
    ensures stands { result ≡ true → HasWord tokens.now at word }
    ensures within { result ≡ true → at < length tokens.now }
{
    match tokens.get(at) {
        Some(token) => match token.what {
            What::Word(found) => found == word,
            _ => false,
        },
        None => false,
    }
}

/// The number that the token is.
pub fn number_at(tokens: &[Token], at: usize) -> Option<Number>
    ensures some { IfSome result (λ number. IsNumber tokens.now at number) }
    ensures none { result ≡ None → spec.is_number (what_at tokens.now at) ≡ false }
    ensures within { IfSome result (λ _. at < length tokens.now) }
{
    match tokens.get(at) {
        Some(token) => match token.what {
            What::Number(value) => Some(Number {
                value,
                place: token.place,
            }),
            _ => None,
        },
        None => None,
    }
}

/// The name that the token is.
pub fn name_at(tokens: &[Token], at: usize) -> Option<Name>
    ensures some { IfSome result (λ name. IsName tokens.now at name) }
    ensures none { result ≡ None → spec.is_name (what_at tokens.now at) ≡ false }
    ensures within { IfSome result (λ _. at < length tokens.now) }
{
    match tokens.get(at) {
        Some(token) => match &token.what {
            What::Id(text) => Some(Name {
                text: text.clone().unwrap(),
                place: token.place,
            }),
            _ => None,
        },
        None => None,
    }
}

/// Whether the token is a name.
pub fn is_name(tokens: &[Token], at: usize) -> bool
    ensures { result ≡ spec.is_name (what_at tokens.now at) }
{
    match tokens.get(at) {
        Some(token) => match token.what {
            What::Id(_) => true,
            _ => false,
        },
        None => false,
    }
}

/// Where the token stands.
pub fn place_at(tokens: &[Token], at: usize) -> u32
    requires { at < length tokens.now }
    ensures { IsAt tokens.now at result }
{
    tokens[at].place
}
