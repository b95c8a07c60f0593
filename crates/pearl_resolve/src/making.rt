// Nodes of expressions.

ghost use Rattle.std.specs.Prelude.{◌≡◌, true, IfOk};
ghost use Rattle.pearl_program.specs.PlainExpressions.{OfCall, OfDyadic, OfMonadic, OfRead, plain_argument, plain_arguments, plain_expr, plain_variable};
ghost use Rattle.pearl_resolve.specs.Expressions as spec;

use pearl_program::expression::{Argument, Call, Expr, Variable};
use pearl_tree::expression::Monadic;
use pearl_value::operator::{Dyad, Monad};
use std::alloc::{AllocError, Global};

pub(crate) fn read(alloc: Global, variable: Variable) -> Result<Expr, AllocError>
    ensures { IfOk result (λ e. plain_expr e ≡ OfRead (plain_variable variable)) }
{
    let variable = Box::new(alloc, variable)?;
    Ok(Expr::Read(variable))
}

pub(crate) fn monadic(alloc: Global, op: Monad, operand: Expr) -> Result<Expr, AllocError>
    ensures { IfOk result (λ e. plain_expr e ≡ OfMonadic op (plain_expr operand)) }
{
    let operand = Box::new(alloc, operand)?;
    Ok(Expr::Monadic { op, operand })
}

pub(crate) fn dyadic(alloc: Global, op: Dyad, left: Expr, right: Expr) -> Result<Expr, AllocError>
    ensures { IfOk result (λ e. plain_expr e ≡ OfDyadic op (plain_expr left) (plain_expr right)) }
{
    let left = Box::new(alloc, left)?;
    let right = Box::new(alloc, right)?;
    Ok(Expr::Dyadic { op, left, right })
}

pub(crate) fn call(
    alloc: Global,
    procedure: u32,
    arguments: Vec<Argument>,
) -> Result<Expr, AllocError>
    ensures { IfOk result (λ e. plain_expr e ≡ OfCall procedure (plain_arguments arguments.items)) }
{
    let call = Box::new(
        alloc,
        Call {
            procedure,
            arguments,
        },
    )?;
    Ok(Expr::Call(call))
}

// The variable that is read, for a parameter with IDENT.
fn variable_or_value(e: Expr) -> Argument
    ensures { plain_argument result ≡ spec.handed true (plain_expr e) }
{
    match e {
        Expr::Read(variable) => Argument::Ident(Box::into_inner(variable)),
        Expr::Literal(literal) => Argument::Value(Expr::Literal(literal)),
        Expr::Monadic { op, operand } => Argument::Value(Expr::Monadic { op, operand }),
        Expr::Dyadic { op, left, right } => Argument::Value(Expr::Dyadic { op, left, right }),
        Expr::Call(call) => Argument::Value(Expr::Call(call)),
        Expr::Now => Argument::Value(Expr::Now),
        Expr::Try(semaphore) => Argument::Value(Expr::Try(semaphore)),
    }
}

pub(crate) fn handed(ident: bool, e: Expr) -> Argument
    ensures { plain_argument result ≡ spec.handed ident (plain_expr e) }
{
    if ident {
        variable_or_value(e)
    } else {
        Argument::Value(e)
    }
}

/// An expression behind operators, of which the one next to it is the innermost.
pub(crate) fn monadics_over(
    alloc: Global,
    monadics: &[Monadic],
    e: Expr,
) -> Result<Expr, AllocError>
    ensures { IfOk result (λ whole. plain_expr whole ≡ spec.monadics_over monadics.now (plain_expr e)) }
{
    match monadics {
        [first, rest @ ..] => {
            let operand = monadics_over(alloc, rest, e)?;
            let whole = monadic(alloc, first.operator, operand)?;
            Ok(whole)
        }
        [] => Ok(e),
    }
}
