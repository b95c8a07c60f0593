// Literals and constants.
#![tactic(auto, using(crate::proofs::Texts::text_steps, std::proofs::lemmas::Grind::common_steps))]

ghost use Rattle.std.specs.Prelude.{◌≡◌, ◌++◌, OnOk};
ghost use Rattle.pearl_tree.specs.ShownLiterals.{shown_literal};
ghost use Rattle.pearl_print.specs.Spelled.{text_of_tokens};
ghost use Rattle.pearl_print.specs.Expressions.{carried, literal_tokens, sign_tokens, const_tokens};

use crate::lists::Part;
use crate::put::{put_bits, put_clock, put_decimal, put_symbol, put_text, put_value, put_word};
use pearl_tree::literal::{Const, Literal, Sign};
use pearl_tree::symbol::{MINUS, PLUS};
use pearl_tree::word_code::{HRS, MIN, SEC};
use std::alloc::AllocError as NoMemory;

fn put_carried(into: &mut Vec<u8>, milliseconds: u128) -> Result<(), NoMemory>
    ensures { OnOk result (into.new.items ≡ into.old.items ++ text_of_tokens (carried milliseconds)) }
{
    put_value(into, milliseconds / 3_600_000)?;
    put_word(into, HRS)?;
    put_value(into, milliseconds / 60_000 % 60)?;
    put_word(into, MIN)?;
    put_decimal(into, milliseconds / 1000 % 60, (milliseconds % 1000) as u32)?;
    put_word(into, SEC)?;
    Ok(())
}

pub(crate) fn put_literal(into: &mut Vec<u8>, literal: &Literal) -> Result<(), NoMemory>
    ensures { OnOk result (into.new.items ≡ into.old.items ++ text_of_tokens (literal_tokens (shown_literal literal.now))) }
{
    match literal {
        Literal::Number(number) => number.put(into),
        Literal::Bits { len, value, .. } => put_bits(into, *len, *value),
        Literal::Text { text, .. } => put_text(into, text),
        Literal::Clock { milliseconds, .. } => put_clock(into, *milliseconds),
        Literal::Duration(duration) => put_carried(into, duration.milliseconds()),
    }
}

fn put_sign(into: &mut Vec<u8>, sign: Sign) -> Result<(), NoMemory>
    ensures { OnOk result (into.new.items ≡ into.old.items ++ text_of_tokens (sign_tokens sign)) }
{
    match sign {
        Sign::Plus => put_symbol(into, PLUS),
        Sign::Minus => put_symbol(into, MINUS),
    }
}

impl Part for Const {
    ghost tokens = { const_tokens };

    fn put(&self, into: &mut Vec<u8>) -> Result<(), NoMemory> {
        if let Some(sign) = self.sign {
            put_sign(into, sign)?;
        }
        put_literal(into, &self.literal)?;
        Ok(())
    }
}
