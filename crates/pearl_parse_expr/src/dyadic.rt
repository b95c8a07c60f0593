// How dyadic operators group by their ranks.

ghost use Rattle.std.specs.Prelude.{◌≡◌, ℕ, ◌+◌, ◌<◌, ◌≤◌, List, max, IfOk, IfErr};
ghost use Rattle.pearl_tree.specs.declared.token.Token.{Token};
ghost use Rattle.pearl_tree.specs.declared.expression.Expr as tree;
ghost use Rattle.pearl_tree.specs.Standing.{IsAt};
ghost use Rattle.pearl_tree.specs.Expressions as grammar;
ghost use Rattle.pearl_parse_expr.specs.declared.reading.Halt.{Halt};

use crate::reading::{Halt, boxed};
use pearl_tree::expression::{Dyadic, Expr, Operand};
use pearl_tree::operator::rank;
use std::alloc::Global;

fn first_place(expr: &Expr) -> u32
    ensures { (tokens : List Token) (depth from to : ℕ) → grammar.SpellsTerms tokens depth from expr.now to →
        IsAt tokens from result }
{
    match expr {
        Expr::Operand(operand) => operand.place,
        Expr::Dyadic { place, .. } => *place,
    }
}

// The two expressions with the operator between them.
fn dyadic_of(alloc: Global, left: Expr, dyadic: Dyadic, right: Expr) -> Result<Expr, Halt>
    ensures spells { IfOk result (λ expr. (tokens : List Token) (depth from m to : ℕ) →
        grammar.SpellsTerms tokens depth from left m → grammar.HasDyad tokens m dyadic.operator →
        IsAt tokens m dyadic.place → grammar.SpellsTerms tokens depth (m + 1) right to →
        grammar.rank_of left ≤ grammar.rank dyadic.operator → grammar.rank_of right < grammar.rank dyadic.operator →
        grammar.SpellsTerms tokens depth from expr to) }
    ensures count { IfOk result (λ expr.
        grammar.dyad_count expr ≡ grammar.dyad_count left + grammar.dyad_count right + 1) }
    ensures rank { IfOk result (λ expr. grammar.rank_of expr ≡ grammar.rank dyadic.operator) }
    ensures fault { IfErr result (λ halt. halt ≡ Halt.NoMemory) }
{
    let place = first_place(&left);
    let left = boxed(alloc, left)?;
    let right = boxed(alloc, right)?;
    Ok(Expr::Dyadic {
        left,
        dyadic,
        right,
        place,
    })
}

/// What the left expression becomes where an operator and an operand follow it: the operator takes as much of it as
/// binds closer or equally.
pub fn with_operand(alloc: Global, left: Expr, dyadic: Dyadic, right: Operand) -> Result<Expr, Halt>
    ensures spells { IfOk result (λ expr. (tokens : List Token) (depth from m to : ℕ) →
        grammar.SpellsTerms tokens depth from left m → grammar.HasDyad tokens m dyadic.operator →
        IsAt tokens m dyadic.place → grammar.SpellsTerms tokens depth (m + 1) (tree.Operand right) to →
        grammar.SpellsTerms tokens depth from expr to) }
    ensures count { IfOk result (λ expr. grammar.dyad_count expr ≡ grammar.dyad_count left + 1) }
    ensures rank { IfOk result (λ expr.
        grammar.rank_of expr ≡ max (grammar.rank_of left) (grammar.rank dyadic.operator)) }
    ensures fault { IfErr result (λ halt. halt ≡ Halt.NoMemory) }
{
    match left {
        Expr::Operand(operand) => dyadic_of(
            alloc,
            Expr::Operand(operand),
            dyadic,
            Expr::Operand(right),
        ),
        Expr::Dyadic {
            left: first,
            dyadic: upper,
            right: second,
            place,
        } => {
            if rank(dyadic.operator) < rank(upper.operator) {
                let second = with_operand(alloc, Box::into_inner(second), dyadic, right)?;
                Ok(Expr::Dyadic {
                    left: first,
                    dyadic: upper,
                    right: boxed(alloc, second)?,
                    place,
                })
            } else {
                let left = Expr::Dyadic {
                    left: first,
                    dyadic: upper,
                    right: second,
                    place,
                };
                dyadic_of(alloc, left, dyadic, Expr::Operand(right))
            }
        }
    }
}
