// What expressions of a program say, as text: of a list each part is followed by a comma.

use pearl_program::expression::{Argument, Bound, Expr, Target, Variable};
use pearl_program::literal::Literal;
use pearl_value::kind::{CellKind, Kind};
use std::alloc::AllocError;

pub fn put_bytes(into: &mut String, bytes: &[u8]) -> Result<(), AllocError> {
    for &byte in bytes {
        into.push(char::from(byte))?;
    }
    Ok(())
}

/// A word with a number right behind it.
pub fn put_number(into: &mut String, word: &str, number: u64) -> Result<(), AllocError> {
    write!(into, "{word}{number}")
}

/// A kind by the first letter of its word and its length: `F31`, `B1`, `C3`, `T` for CLOCK and `D` for DURATION.
pub fn put_kind(into: &mut String, kind: Kind) -> Result<(), AllocError> {
    match kind {
        Kind::Fixed(len) => put_number(into, "F", u64::from(len)),
        Kind::Bits(len) => put_number(into, "B", u64::from(len)),
        Kind::Chars(len) => put_number(into, "C", u64::from(len)),
        Kind::Clock => into.push_str("T"),
        Kind::Span => into.push_str("D"),
    }
}

/// A reference has `&` before its kind.
pub fn put_cells(into: &mut String, cells: &[CellKind]) -> Result<(), AllocError> {
    for &cell in cells {
        match cell {
            CellKind::Plain(kind) => put_kind(into, kind)?,
            CellKind::RefTo(kind) => {
                into.push_str("&")?;
                put_kind(into, kind)?;
            }
        }
        into.push_str(",")?;
    }
    Ok(())
}

/// A value with its kind, as `F31:5`, or a text between apostrophes.
pub fn put_literal(into: &mut String, literal: &Literal) -> Result<(), AllocError> {
    match literal {
        Literal::Fixed { len, value } => write!(into, "F{len}:{value}"),
        Literal::Bits { len, value } => write!(into, "B{len}:{value}"),
        Literal::Chars(text) => {
            into.push_str("'")?;
            put_bytes(into, text.as_slice())?;
            into.push_str("'")
        }
        Literal::Clock(time) => put_number(into, "T:", u64::from(*time)),
        Literal::Span(time) => write!(into, "D:{time}"),
    }
}

fn put_target(into: &mut String, target: Target) -> Result<(), AllocError> {
    match target {
        Target::Leaf(number) => put_number(into, "L", u64::from(number)),
        Target::Own(number) => put_number(into, "O", u64::from(number)),
        Target::Param(number) => put_number(into, "P", u64::from(number)),
    }
}

fn put_bounds(into: &mut String, bounds: &[Bound]) -> Result<(), AllocError> {
    for bound in bounds {
        write!(into, "{}:{},", bound.lower, bound.upper)?;
    }
    Ok(())
}

/// A leaf, an own cell or a parameter by its number, and in an array its bounds and subscripts.
#[cycle(expression)]
pub fn put_variable(into: &mut String, variable: &Variable) -> Result<(), AllocError> {
    put_target(into, variable.target)?;
    if variable.bounds.as_slice().is_empty() && variable.subscripts.as_slice().is_empty() {
        return Ok(());
    }
    into.push_str("(")?;
    put_bounds(into, variable.bounds.as_slice())?;
    into.push_str(")[")?;
    put_exprs(into, variable.subscripts.as_slice())?;
    into.push_str("]")
}

#[cycle(expression)]
pub fn put_expr(into: &mut String, expr: &Expr) -> Result<(), AllocError> {
    match expr {
        Expr::Literal(literal) => put_literal(into, literal),
        Expr::Read(variable) => put_variable(into, variable),
        Expr::Monadic { op, operand } => {
            write!(into, "{op:?}(")?;
            put_expr(into, operand)?;
            into.push_str(")")
        }
        Expr::Dyadic { op, left, right } => {
            write!(into, "{op:?}(")?;
            put_expr(into, left)?;
            into.push_str(",")?;
            put_expr(into, right)?;
            into.push_str(")")
        }
        Expr::Call(call) => put_call(into, call.procedure, call.arguments.as_slice()),
        Expr::Now => into.push_str("NOW"),
        Expr::Try(semaphore) => put_number(into, "TRY s", u64::from(*semaphore)),
    }
}

#[cycle(expression)]
pub fn put_exprs(into: &mut String, exprs: &[Expr]) -> Result<(), AllocError> {
    for expr in exprs {
        put_expr(into, expr)?;
        into.push_str(",")?;
    }
    Ok(())
}

/// A call of the procedure of this number. A variable that is handed over has `&` before it.
#[cycle(expression)]
pub fn put_call(
    into: &mut String,
    procedure: u32,
    arguments: &[Argument],
) -> Result<(), AllocError> {
    put_number(into, "p", u64::from(procedure))?;
    into.push_str("(")?;
    for argument in arguments {
        put_argument(into, argument)?;
    }
    into.push_str(")")
}

#[cycle(expression)]
fn put_argument(into: &mut String, argument: &Argument) -> Result<(), AllocError> {
    match argument {
        Argument::Value(expr) => put_expr(into, expr)?,
        Argument::Ident(variable) => {
            into.push_str("&")?;
            put_variable(into, variable)?;
        }
    }
    into.push_str(",")
}
