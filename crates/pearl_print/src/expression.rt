// References and expressions.
#![tactic(auto, using(crate::proofs::Texts::text_steps, std::proofs::lemmas::Grind::common_steps))]

ghost use Rattle.std.specs.Prelude.{◌≡◌, ◌++◌, [], ◌∷◌, OnOk};
ghost use Rattle.std.specs.List.{flat_map};
ghost use Rattle.pearl_tree.specs.Expressions.{side_word};
ghost use Rattle.pearl_print.specs.Lists.{listed, bracketed};
ghost use Rattle.pearl_print.specs.Spelled.{text_of_tokens};
ghost use Rattle.pearl_print.specs.Expressions.{monadic_tokens, dyad_what, expr_tokens, operand_tokens, primary_tokens, limit_tokens, selector_tokens, ref_tokens};

use crate::lists::{Part, put_each, put_maybe};
use crate::literal::put_literal;
use crate::put::{put_symbol, put_word};
use pearl_tree::expression::{Expr, Monadic, Operand, Primary, Ref, Selector, Side};
use pearl_tree::name::Number;
use pearl_tree::parts::Parts;
use pearl_tree::symbol::{
    AT_LEAST, AT_MOST, COMMA, CONCATENATE, DIVIDE, EQUAL, GREATER, LEFT_ROUND, LESS, MINUS, PERIOD,
    PLUS, POWER, RIGHT_ROUND, ROTATE, TIMES, UNEQUAL,
};
use pearl_tree::word_code::{ABS, AND, EXOR, LWB, NOT, NOW, OR, REM, SHIFT, SIGN, TRY, UPB};
use pearl_value::operator::{Dyad, Monad};
use std::alloc::AllocError as NoMemory;

impl Part for Monadic {
    ghost tokens = { monadic_tokens };

    fn put(&self, into: &mut Vec<u8>) -> Result<(), NoMemory> {
        match self.operator {
            Monad::Plus => put_symbol(into, PLUS),
            Monad::Minus => put_symbol(into, MINUS),
            Monad::Abs => put_word(into, ABS),
            Monad::Sign => put_word(into, SIGN),
            Monad::Not => put_word(into, NOT),
        }
    }
}

fn put_dyad(into: &mut Vec<u8>, operator: Dyad) -> Result<(), NoMemory>
    ensures { OnOk result (into.new.items ≡ into.old.items ++ text_of_tokens (dyad_what operator ∷ [])) }
{
    match operator {
        Dyad::Pow => put_symbol(into, POWER),
        Dyad::Mul => put_symbol(into, TIMES),
        Dyad::Div => put_symbol(into, DIVIDE),
        Dyad::Rem => put_word(into, REM),
        Dyad::Cat => put_symbol(into, CONCATENATE),
        Dyad::Add => put_symbol(into, PLUS),
        Dyad::Sub => put_symbol(into, MINUS),
        Dyad::Cshift => put_symbol(into, ROTATE),
        Dyad::Shift => put_word(into, SHIFT),
        Dyad::Lt => put_symbol(into, LESS),
        Dyad::Gt => put_symbol(into, GREATER),
        Dyad::Le => put_symbol(into, AT_MOST),
        Dyad::Ge => put_symbol(into, AT_LEAST),
        Dyad::Eq => put_symbol(into, EQUAL),
        Dyad::Ne => put_symbol(into, UNEQUAL),
        Dyad::And => put_word(into, AND),
        Dyad::Or => put_word(into, OR),
        Dyad::Exor => put_word(into, EXOR),
    }
}

fn side_word(side: Side) -> u8
    ensures { result ≡ side_word side }
{
    match side {
        Side::Lower => LWB,
        Side::Upper => UPB,
    }
}

#[cycle(expression)]
pub(crate) fn put_expr(into: &mut Vec<u8>, expr: &Expr) -> Result<(), NoMemory>
    ensures { OnOk result (into.new.items ≡ into.old.items ++ text_of_tokens (expr_tokens expr.now)) }
{
    match expr {
        Expr::Operand(operand) => put_operand(into, operand),
        Expr::Dyadic {
            left,
            dyadic,
            right,
            ..
        } => {
            put_expr(into, left)?;
            put_dyad(into, dyadic.operator)?;
            put_expr(into, right)?;
            Ok(())
        }
    }
}

#[cycle(expression)]
fn put_operand(into: &mut Vec<u8>, operand: &Operand) -> Result<(), NoMemory>
    ensures { OnOk result (into.new.items ≡ into.old.items ++ text_of_tokens (operand_tokens operand.now)) }
{
    put_each(into, operand.monadics.as_slice())?;
    put_primary(into, &operand.primary)?;
    Ok(())
}

#[cycle(expression)]
fn put_primary(into: &mut Vec<u8>, primary: &Primary) -> Result<(), NoMemory>
    ensures { OnOk result (into.new.items ≡ into.old.items ++ text_of_tokens (primary_tokens primary.now)) }
{
    match primary {
        Primary::Literal(literal) => put_literal(into, literal),
        Primary::Ref(reference) => put_ref(into, reference),
        Primary::Group { inner, .. } => {
            put_symbol(into, LEFT_ROUND)?;
            put_expr(into, inner)?;
            put_symbol(into, RIGHT_ROUND)?;
            Ok(())
        }
        Primary::Now { .. } => put_word(into, NOW),
        Primary::Try { name, .. } => {
            put_word(into, TRY)?;
            name.put(into)?;
            Ok(())
        }
        Primary::Limit {
            dimension,
            side,
            array,
            ..
        } => put_limit(into, dimension, *side, array),
    }
}

#[cycle(expression)]
fn put_limit(
    into: &mut Vec<u8>,
    dimension: &Option<Number>,
    side: Side,
    array: &Ref,
) -> Result<(), NoMemory>
    ensures { OnOk result
        (into.new.items ≡ into.old.items ++ text_of_tokens (limit_tokens dimension.now side array.now)) }
{
    put_maybe(into, dimension)?;
    put_word(into, side_word(side))?;
    put_ref(into, array)?;
    Ok(())
}

#[cycle(expression)]
pub(crate) fn put_ref(into: &mut Vec<u8>, reference: &Ref) -> Result<(), NoMemory>
    ensures { OnOk result (into.new.items ≡ into.old.items ++ text_of_tokens (ref_tokens reference.now)) }
{
    reference.name.put(into)?;
    put_selectors(into, reference.selectors.as_slice())?;
    Ok(())
}

#[cycle(expression)]
fn put_selectors(into: &mut Vec<u8>, selectors: &[Selector]) -> Result<(), NoMemory>
    ensures { OnOk result
        (into.new.items ≡ into.old.items ++ text_of_tokens (flat_map selector_tokens selectors.now)) }
{
    for selector in selectors {
        put_selector(into, selector)?;
    }
    Ok(())
}

#[cycle(expression)]
fn put_selector(into: &mut Vec<u8>, selector: &Selector) -> Result<(), NoMemory>
    ensures { OnOk result (into.new.items ≡ into.old.items ++ text_of_tokens (selector_tokens selector.now)) }
{
    match selector {
        Selector::Subscripts { subscripts, .. } => put_subscripts(into, subscripts),
        Selector::Component { name, .. } => {
            put_symbol(into, PERIOD)?;
            name.put(into)?;
            Ok(())
        }
    }
}

#[cycle(expression)]
fn put_subscripts(into: &mut Vec<u8>, subscripts: &Parts<Expr>) -> Result<(), NoMemory>
    ensures { OnOk result
        (into.new.items ≡ into.old.items ++ text_of_tokens (bracketed expr_tokens subscripts.now.items.items)) }
{
    put_symbol(into, LEFT_ROUND)?;
    put_exprs(into, subscripts.as_slice())?;
    put_symbol(into, RIGHT_ROUND)?;
    Ok(())
}

#[cycle(expression)]
fn put_exprs(into: &mut Vec<u8>, exprs: &[Expr]) -> Result<(), NoMemory>
    ensures { OnOk result (into.new.items ≡ into.old.items ++ text_of_tokens (listed expr_tokens exprs.now)) }
{
    if let [first, rest @ ..] = exprs {
        put_expr(into, first)?;
        for expr in rest {
            put_symbol(into, COMMA)?;
            put_expr(into, expr)?;
        }
    }
    Ok(())
}

impl Part for Expr {
    ghost tokens = { expr_tokens };

    fn put(&self, into: &mut Vec<u8>) -> Result<(), NoMemory> {
        put_expr(into, self)
    }
}

impl Part for Ref {
    ghost tokens = { ref_tokens };

    fn put(&self, into: &mut Vec<u8>) -> Result<(), NoMemory> {
        put_ref(into, self)
    }
}
