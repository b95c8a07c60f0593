// What is asked for its kind.

ghost use Rattle.std.specs.Prelude.{◌≡◌, IfOk, OnErr};
ghost use Rattle.pearl_tree.specs.ShownExpressions.{shown_expr_list};
ghost use Rattle.pearl_check_expr.specs.Answers.{Judges, callee_in};
ghost use Rattle.pearl_check_expr.specs.Judged as judged;
ghost use Rattle.pearl_check_expr.specs.Subjects as spec;

use crate::callee::callee_of;
use crate::tell::tell_if;
use crate::walk::{if_well, judge, judge_all, judge_arguments, judge_variable};
use pearl_names::scope::View;
use pearl_names::sense::Signature;
use pearl_names::table::SenseTable;
use pearl_tree::expression::{Expr, Ref};
use pearl_tree::fault::RuleFault;
use pearl_tree::name::Name;
use pearl_tree::rule;
use pearl_tree::statement::Call;
use pearl_value::kind::Kind;
use std::alloc::{AllocError as NoMemory, Global};

/// A part of a statement, in the scope of which its names are looked for.
#[derive(Clone, Copy)]
pub enum Subject<'a> {
    /// An expression.
    Value(&'a Expr),
    /// The expression of a WHILE, whose scope is that of the loop's body.
    While(&'a Expr),
    /// What is assigned to, or read into.
    Target(&'a Ref),
    /// A call statement.
    Call(&'a Call),
}

// A call statement needs no result.
fn judge_called(
    table: &SenseTable,
    view: View,
    found: &mut Vec<RuleFault>,
    name: &Name,
    signature: &Signature,
    exprs: &[Expr],
) -> Result<Option<Kind>, NoMemory>
    ensures { IfOk result (λ kind. Judges table.now kind found.old.items found.new.items
        (λ t. spec.statement_called (callee_in signature.now) (judged.called t view name.now (callee_in signature.now) (shown_expr_list exprs.now)))) }
{
    let well = judge_arguments(table, view, found, name, signature, exprs)?;
    Ok(if_well(well, signature))
}

// A call of what is no procedure. S16: it is declared.
fn judge_uncalled(
    table: &SenseTable,
    view: View,
    found: &mut Vec<RuleFault>,
    name: &Name,
    declared: bool,
    exprs: &[Expr],
) -> Result<Option<Kind>, NoMemory>
    ensures { IfOk result (λ kind. Judges table.now kind found.old.items found.new.items
        (λ t. spec.uncalled name.now declared (judged.judged_all t view (shown_expr_list exprs.now)))) }
{
    judge_all(table, view, found, exprs)?;
    tell_if(found, declared, name.place, rule::S16)?;
    Ok(None)
}

fn judge_call(
    table: &SenseTable,
    view: View,
    found: &mut Vec<RuleFault>,
    call: &Call,
) -> Result<Option<Kind>, NoMemory>
    ensures { IfOk result (λ kind. Judges table.now kind found.old.items found.new.items
        (λ t. spec.call_judged t view call.now.name (shown_expr_list call.now.arguments.items.items))) }
{
    let name = &call.name;
    let exprs = call.arguments.as_slice();
    let sense = table.sense_from(view, &name.text);
    match callee_of(sense) {
        Some(signature) => {
            let kind = judge_called(table, view, found, name, signature, exprs)?;
            Ok(kind)
        }
        None => {
            let kind = judge_uncalled(table, view, found, name, sense.is_some(), exprs)?;
            Ok(kind)
        }
    }
}

fn judge_subject(
    table: &SenseTable,
    scope: u32,
    found: &mut Vec<RuleFault>,
    subject: Subject<'_>,
) -> Result<Option<Kind>, NoMemory>
    ensures { IfOk result (λ kind. Judges table.now kind found.old.items found.new.items
        (λ t. spec.subject_judged t scope (spec.shown_subject subject.entry))) }
{
    match subject {
        Subject::Value(expr) => {
            let kind = judge(table, View::Within(scope), found, expr)?;
            Ok(kind)
        }
        Subject::While(expr) => {
            let kind = judge(table, View::WhileOf(scope), found, expr)?;
            Ok(kind)
        }
        Subject::Target(target) => {
            let kind = judge_variable(table, View::Within(scope), found, target)?;
            Ok(kind)
        }
        Subject::Call(call) => {
            let kind = judge_call(table, View::Within(scope), found, call)?;
            Ok(kind)
        }
    }
}

/// The kind of a subject in the scope of this number, none where it has a fault or is a call of a procedure without
/// RETURNS. The rules S15 to S22 that are broken in it are added.
pub fn kind_of(
    alloc: Global,
    table: &SenseTable,
    scope: u32,
    subject: Subject<'_>,
    faults: &mut Vec<RuleFault>,
) -> Result<Option<Kind>, NoMemory>
    ensures kind { IfOk result (λ kind. Judges table.now kind faults.old.items faults.new.items
        (λ t. spec.subject_judged t scope (spec.shown_subject subject.entry))) }
    ensures kept { OnErr result (faults.new.items ≡ faults.old.items) }
{
    let mut found = Vec::new(alloc);
    let kind = judge_subject(table, scope, &mut found, subject)?;
    faults.extend_from_slice(found.as_slice())?;
    Ok(kind)
}
