// Expressions and references of statements, as parts of a list.

ghost use Rattle.std.specs.Prelude.{◌≤◌, length, refl};
ghost use Rattle.pearl_tree.specs.Expressions.{SpellsWhole, SpellsOwnRef};
ghost use Rattle.pearl_tree.specs.declared.limit.TheConstants as limit;
ghost use Rattle.pearl_parse_expr.specs.Stops as stops;
ghost use Rattle.pearl_parse_expr.specs.Reads.{Reads, ReadsAs};
ghost use Rattle.pearl_parse_expr.proofs.Offered as parts;

use crate::list::Readable;
use pearl_parse_expr::expression::{expression_at_depth, reference};
use pearl_parse_expr::reading::{Halt, Reading};
use pearl_tree::expression::{Expr, Ref};
use pearl_tree::limit::{BRACKETS_MAX, OWN_BRACKETS_MAX};
use pearl_tree::token::Token;
use std::alloc::Global;

/// The longest expression that begins here.
pub fn expression(alloc: Global, tokens: &[Token], from: usize) -> Result<Reading<Expr>, Halt>
    requires { from ≤ length tokens.now }
    ensures { Reads 16 SpellsWhole stops.extends_expression tokens.now from result }
{
    expression_at_depth(alloc, tokens, from, BRACKETS_MAX)
}

/// The longest reference that begins here, with a bracket more than within an expression.
pub fn own_reference(alloc: Global, tokens: &[Token], from: usize) -> Result<Reading<Ref>, Halt>
    requires { from ≤ length tokens.now }
    ensures reads { Reads 16 SpellsOwnRef stops.extends_operand tokens.now from result }
    ensures named { ReadsAs 16 SpellsOwnRef (λ tokens. stops.SpellsNamed tokens limit.OWN_BRACKETS_MAX) stops.extends_operand tokens.now from result }
{
    reference(alloc, tokens, from, OWN_BRACKETS_MAX)
}

impl Readable for Expr {
    ghost spelling = { SpellsWhole };

    ghost extends = { stops.extends_expression };

    fn read(alloc: Global, tokens: &[Token], from: usize) -> Result<Reading<Expr>, Halt> {
        expression(alloc, tokens, from)
    }

    ghost begins = { parts.exprs_begin };

    ghost stops_at_comma = { refl };

    ghost stops_at_bracket = { refl };
}

impl Readable for Ref {
    ghost spelling = { SpellsOwnRef };

    ghost extends = { stops.extends_operand };

    fn read(alloc: Global, tokens: &[Token], from: usize) -> Result<Reading<Ref>, Halt> {
        own_reference(alloc, tokens, from)
    }

    ghost begins = { parts.refs_begin };

    ghost stops_at_comma = { refl };

    ghost stops_at_bracket = { refl };
}
