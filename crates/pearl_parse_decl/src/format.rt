// Items of formats.

ghost use Rattle.std.specs.Prelude.{◌≡◌, ◌≢◌, ◌+◌, ◌<◌, ◌≤◌, Some, None, length, IfErr, IfSome, refl};
ghost use Rattle.pearl_tree.specs.Standing.{HasId};
ghost use Rattle.pearl_tree.specs.Formats as grammar;
ghost use Rattle.pearl_tree.specs.declared.format.FreeCode.{FreeCode};
ghost use Rattle.pearl_tree.specs.declared.format.WideCode.{WideCode};
ghost use Rattle.pearl_parse_expr.specs.declared.reading.Halt.{Halt};
ghost use Rattle.pearl_parse_expr.specs.Reads.{Reads};
ghost use Rattle.pearl_parse_expr.proofs.Offered as parts;
ghost use Rattle.pearl_parse_decl.specs.Readings as spec;

use crate::list::Readable;
use crate::name::{bracketed_number, maybe_number};
use pearl_parse_expr::reading::{Halt, Reading};
use pearl_parse_expr::standing::place_at;
use pearl_tree::format::{Fmt, FreeCode, WideCode};
use pearl_tree::token::{Token, What};
use std::alloc::Global;

fn free_code(text: &[u8]) -> Option<FreeCode>
    ensures some { IfSome result (λ code. text.now ≡ grammar.free_text code) }
    ensures none { result ≡ None → (code : FreeCode) → text.now ≡ grammar.free_text code → ⊥ }
{
    match text {
        b"A" => Some(FreeCode::A),
        b"B" => Some(FreeCode::B),
        b"B1" => Some(FreeCode::B1),
        b"B2" => Some(FreeCode::B2),
        b"B3" => Some(FreeCode::B3),
        b"B4" => Some(FreeCode::B4),
        b"X" => Some(FreeCode::X),
        b"SKIP" => Some(FreeCode::Skip),
        _ => None,
    }
}

fn wide_code(text: &[u8]) -> Option<WideCode>
    ensures some { IfSome result (λ code. text.now ≡ grammar.wide_text code) }
    ensures none { result ≡ None → (code : WideCode) → text.now ≡ grammar.wide_text code → ⊥ }
{
    match text {
        b"F" => Some(WideCode::F),
        b"T" => Some(WideCode::T),
        b"D" => Some(WideCode::D),
        _ => None,
    }
}

fn free_at(tokens: &[Token], at: usize) -> Option<FreeCode>
    ensures some { IfSome result (λ code. HasId tokens.now at (grammar.free_text code)) }
    ensures none { result ≡ None → (code : FreeCode) → HasId tokens.now at (grammar.free_text code) → ⊥ }
    ensures within { IfSome result (λ _. at < length tokens.now) }
{
    match tokens.get(at) {
        Some(token) => match &token.what {
            What::Id(text) => free_code(text),
            _ => None,
        },
        None => None,
    }
}

fn wide_at(tokens: &[Token], at: usize) -> Option<WideCode>
    ensures some { IfSome result (λ code. HasId tokens.now at (grammar.wide_text code)) }
    ensures none { result ≡ None → (code : WideCode) → HasId tokens.now at (grammar.wide_text code) → ⊥ }
    ensures within { IfSome result (λ _. at < length tokens.now) }
{
    match tokens.get(at) {
        Some(token) => match &token.what {
            What::Id(text) => wide_code(text),
            _ => None,
        },
        None => None,
    }
}

/// The item of a format that begins here.
pub fn fmt(tokens: &[Token], from: usize) -> Result<Reading<Fmt>, Halt>
    requires { from ≤ length tokens.now }
    ensures reads { Reads 16 grammar.SpellsFmt spec.by_bracket tokens.now from result }
    ensures memory { IfErr result (λ halt. halt ≢ Halt.NoMemory) }
{
    if let Some(code) = free_at(tokens, from) {
        let width = maybe_number(tokens, from + 1);
        return Ok(Reading {
            part: Fmt::Free {
                code,
                width: width.part,
                place: place_at(tokens, from),
            },
            end: width.end,
            stop: width.stop,
        });
    }
    match wide_at(tokens, from) {
        Some(code) => match bracketed_number(tokens, from + 1) {
            Ok(width) => Ok(Reading {
                part: Fmt::Wide {
                    code,
                    width: width.part,
                    place: place_at(tokens, from),
                },
                end: width.end,
                stop: width.stop,
            }),
            Err(halt) => Err(halt),
        },
        None => Err(Halt::Refused(from)),
    }
}

impl Readable for Fmt {
    ghost spelling = { grammar.SpellsFmt };

    ghost extends = { spec.by_bracket };

    fn read(_alloc: Global, tokens: &[Token], from: usize) -> Result<Reading<Fmt>, Halt> {
        fmt(tokens, from)
    }

    ghost begins = { parts.fmts_begin };

    ghost stops_at_comma = { refl };

    ghost stops_at_bracket = { refl };
}
