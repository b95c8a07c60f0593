// Statements with statements within them.

ghost use Rattle.std.specs.Prelude.{◌≡◌, map, option_map, IfOk};
ghost use Rattle.pearl_program.specs.PlainExpressions.{plain_expr};
ghost use Rattle.pearl_program.specs.PlainStatements.{OfCase, OfIf, OfRepeat, plain_counter, plain_stmt, plain_stmts, plain_branches};

use pearl_program::expression::Expr;
use pearl_program::statement::{Branch, Case, Counter, If, Repeat, Stmt};
use std::alloc::{AllocError, Global};

pub(crate) fn if_stmt(
    alloc: Global,
    condition: Expr,
    statements: Vec<Stmt>,
    otherwise: Vec<Stmt>,
) -> Result<Stmt, AllocError>
    ensures { IfOk result (λ s. plain_stmt s ≡ OfIf (plain_expr condition) (plain_stmts statements.items) (plain_stmts otherwise.items)) }
{
    let made = Box::new(
        alloc,
        If {
            condition,
            statements,
            otherwise,
        },
    )?;
    Ok(Stmt::If(made))
}

pub(crate) fn case_stmt(
    alloc: Global,
    selector: Expr,
    alternatives: Vec<Branch>,
    otherwise: Vec<Stmt>,
) -> Result<Stmt, AllocError>
    ensures { IfOk result (λ s. plain_stmt s ≡ OfCase (plain_expr selector) (plain_branches alternatives.items) (plain_stmts otherwise.items)) }
{
    let made = Box::new(
        alloc,
        Case {
            selector,
            alternatives,
            otherwise,
        },
    )?;
    Ok(Stmt::Case(made))
}

pub(crate) fn repeat_stmt(
    alloc: Global,
    counter: Option<Counter>,
    condition: Option<Expr>,
    statements: Vec<Stmt>,
) -> Result<Stmt, AllocError>
    ensures { IfOk result (λ s. plain_stmt s ≡ OfRepeat (option_map plain_counter counter) (option_map plain_expr condition) (plain_stmts statements.items)) }
{
    let made = Box::new(
        alloc,
        Repeat {
            counter,
            condition,
            statements,
        },
    )?;
    Ok(Stmt::Repeat(made))
}
