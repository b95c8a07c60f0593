// What expressions are made of, in the order of the text: literals, names and words.
#![tactic(auto, using(crate::proofs::PieceLists::piece_steps, pearl_names::proofs::Offered::list_steps, std::proofs::lemmas::Grind::common_steps))]

ghost use Rattle.std.specs.Prelude.{◌≡◌, ◌++◌, ◌∷◌, [], map, OnOk};
ghost use Rattle.std.specs.List.{flat_map};
ghost use Rattle.pearl_tree.specs.ShownExpressions.{shown_expr, shown_expr_list, shown_primary, shown_selector, shown_ref};
ghost use Rattle.pearl_check_expr.specs.Subjects as subjects;
ghost use Rattle.pearl_check_expr.specs.Subjects.{shown_subject};
ghost use Rattle.pearl_check.specs.Asked.{shown_asked};
ghost use Rattle.pearl_check.specs.Calls.{subject_pieces, asked_pieces};
ghost use Rattle.pearl_check.specs.PieceLists.{pieces_in, selector_list_pieces, ref_pieces, limit_pieces};
ghost use Rattle.pearl_check.specs.Pieces as spec;

use crate::asked::Asked;
use pearl_check_expr::subject::Subject;
use pearl_tree::expression::{Expr, Primary, Ref, Selector};
use pearl_tree::name::Name;
use pearl_tree::statement::Call;
use std::alloc::AllocError as NoMemory;

/// A piece of an expression.
#[derive(Clone, Copy)]
pub enum Piece<'a> {
    /// The name of a variable, or of a procedure that is called.
    Reference(&'a Name),
    /// A literal, a word, or a name behind TRY, LWB or UPB.
    Other,
}

fn add_others(pieces: &mut Vec<Piece<'_>>) -> Result<(), NoMemory>
    ensures { OnOk result (pieces_in pieces.new.items ≡ pieces_in pieces.old.items ++ spec.Other ∷ spec.Other ∷ []) }
{
    pieces.push(Piece::Other)?;
    pieces.push(Piece::Other)?;
    Ok(())
}

fn add_other(pieces: &mut Vec<Piece<'_>>) -> Result<(), NoMemory>
    ensures { OnOk result (pieces_in pieces.new.items ≡ pieces_in pieces.old.items ++ spec.Other ∷ []) }
{
    pieces.push(Piece::Other)?;
    Ok(())
}

fn add_reference<'a>(pieces: &mut Vec<Piece<'a>>, name: &'a Name) -> Result<(), NoMemory>
    ensures { OnOk result
        (pieces_in pieces.new.items ≡ pieces_in pieces.old.items ++ spec.Reference name.now ∷ []) }
{
    pieces.push(Piece::Reference(name))?;
    Ok(())
}

#[cycle(expression)]
fn add_expr<'a>(pieces: &mut Vec<Piece<'a>>, expr: &'a Expr) -> Result<(), NoMemory>
    ensures { OnOk result
        (pieces_in pieces.new.items ≡ pieces_in pieces.old.items ++ spec.expr_pieces (shown_expr expr.now)) }
{
    match expr {
        Expr::Operand(operand) => add_primary(pieces, &operand.primary),
        Expr::Dyadic { left, right, .. } => {
            add_expr(pieces, left)?;
            add_expr(pieces, right)?;
            Ok(())
        }
    }
}

#[cycle(expression)]
fn add_primary<'a>(pieces: &mut Vec<Piece<'a>>, primary: &'a Primary) -> Result<(), NoMemory>
    ensures { OnOk result
        (pieces_in pieces.new.items ≡ pieces_in pieces.old.items ++ spec.primary_pieces (shown_primary primary.now)) }
{
    match primary {
        Primary::Literal(_) => add_other(pieces),
        Primary::Ref(reference) => add_ref(pieces, reference),
        Primary::Group { inner, .. } => add_expr(pieces, inner),
        Primary::Now { .. } => add_other(pieces),
        Primary::Try { .. } => add_others(pieces),
        Primary::Limit { array, .. } => add_limit(pieces, array),
    }
}

#[cycle(expression)]
fn add_ref<'a>(pieces: &mut Vec<Piece<'a>>, reference: &'a Ref) -> Result<(), NoMemory>
    ensures { OnOk result
        (pieces_in pieces.new.items ≡ pieces_in pieces.old.items ++ ref_pieces (shown_ref reference.now)) }
{
    add_reference(pieces, &reference.name)?;
    add_selectors(pieces, reference.selectors.as_slice())?;
    Ok(())
}

#[cycle(expression)]
fn add_limit<'a>(pieces: &mut Vec<Piece<'a>>, array: &'a Ref) -> Result<(), NoMemory>
    ensures { OnOk result
        (pieces_in pieces.new.items ≡ pieces_in pieces.old.items ++ limit_pieces (shown_ref array.now)) }
{
    add_others(pieces)?;
    add_selectors(pieces, array.selectors.as_slice())?;
    Ok(())
}

#[cycle(expression)]
fn add_selectors<'a>(pieces: &mut Vec<Piece<'a>>, selectors: &'a [Selector]) -> Result<(), NoMemory>
    ensures { OnOk result
        (pieces_in pieces.new.items ≡ pieces_in pieces.old.items ++ selector_list_pieces selectors.now) }
{
    for selector in selectors {
        add_selector(pieces, selector)?;
    }
    Ok(())
}

#[cycle(expression)]
fn add_selector<'a>(pieces: &mut Vec<Piece<'a>>, selector: &'a Selector) -> Result<(), NoMemory>
    ensures { OnOk result
        (pieces_in pieces.new.items ≡ pieces_in pieces.old.items ++ spec.selector_pieces (shown_selector selector.now)) }
{
    match selector {
        Selector::Subscripts { subscripts, .. } => add_exprs(pieces, subscripts.as_slice()),
        Selector::Component { .. } => Ok(()),
    }
}

#[cycle(expression)]
fn add_exprs<'a>(pieces: &mut Vec<Piece<'a>>, exprs: &'a [Expr]) -> Result<(), NoMemory>
    ensures { OnOk result
        (pieces_in pieces.new.items ≡
        pieces_in pieces.old.items ++ flat_map spec.expr_pieces (map shown_expr exprs.now)) }
{
    for expr in exprs {
        add_expr(pieces, expr)?;
    }
    Ok(())
}

fn add_target<'a>(pieces: &mut Vec<Piece<'a>>, target: &'a Ref) -> Result<(), NoMemory>
    ensures { OnOk result
        (pieces_in pieces.new.items ≡
        pieces_in pieces.old.items ++ subject_pieces (subjects.OfTarget (shown_ref target.now))) }
{
    add_selectors(pieces, target.selectors.as_slice())?;
    Ok(())
}

fn add_arguments<'a>(pieces: &mut Vec<Piece<'a>>, call: &'a Call) -> Result<(), NoMemory>
    ensures { OnOk result
        (pieces_in pieces.new.items ≡
        pieces_in pieces.old.items ++ spec.exprs_pieces (shown_expr_list call.now.arguments.items.items)) }
{
    add_exprs(pieces, call.arguments.as_slice())?;
    Ok(())
}

fn add_subject<'a>(pieces: &mut Vec<Piece<'a>>, subject: Subject<'a>) -> Result<(), NoMemory>
    ensures { OnOk result
        (pieces_in pieces.new.items ≡ pieces_in pieces.old.items ++ subject_pieces (shown_subject subject.entry)) }
{
    match subject {
        Subject::Value(expr) => add_expr(pieces, expr),
        Subject::While(expr) => add_expr(pieces, expr),
        Subject::Target(target) => add_target(pieces, target),
        Subject::Call(call) => add_arguments(pieces, call),
    }
}

/// Adds what the expressions of a part of a statement are made of.
pub fn add_pieces<'a>(pieces: &mut Vec<Piece<'a>>, asked: &Asked<'a>) -> Result<(), NoMemory>
    ensures { OnOk result
        (pieces_in pieces.new.items ≡ pieces_in pieces.old.items ++ asked_pieces (shown_asked asked.now)) }
{
    match *asked {
        Asked::Subject { subject, .. } => add_subject(pieces, subject),
        Asked::Named { .. } => Ok(()),
    }
}
