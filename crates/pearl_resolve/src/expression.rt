// What expressions, targets and arguments become once their names are numbers.

ghost use Rattle.std.specs.Prelude.{◌≡◌, map, IfOk, OnOk};
ghost use Rattle.pearl_names.specs.Holding.{parameter_of};
ghost use Rattle.pearl_program.specs.PlainExpressions.{OfLiteral, OfTry, plain_arguments, plain_expr, plain_exprs, plain_variable};
ghost use Rattle.pearl_tree.specs.ShownExpressions.{shown_expr, shown_expr_list, shown_primary, shown_ref, shown_selector, shown_selector_list};
ghost use Rattle.pearl_resolve.specs.Expressions as spec;
ghost use Rattle.pearl_tree.specs.ShownLiterals.{shown_literal};
ghost use Rattle.pearl_resolve.specs.Holding.{Becomes, HoldsNumbered, HoldsWalk, Walks, is_ident_at, parameters_in, ref_primary};

use crate::literal::literal_of;
use crate::making::{call, dyadic, handed, monadics_over, read};
use crate::numbered::NumberedTable;
use crate::walk::{Walk, kind_of, limit_of, select, start, variable_of};
use pearl_names::scope::View;
use pearl_names::sense::{Parameter, Signature};
use pearl_program::expression::{Argument, Expr, Variable};
use pearl_tree::expression::{Expr as Written, Primary, Ref, Selector, Side};
use pearl_tree::literal::Literal;
use pearl_tree::name::{Name, Number};
use pearl_value::kind::Kind;
use std::alloc::{AllocError, Global};

// Whether the parameter of an argument is one with IDENT.
fn is_ident(parameters: &[Parameter], index: usize) -> bool
    ensures { result ≡ is_ident_at (map parameter_of parameters.now) index }
{
    match parameters.get(index) {
        Some(parameter) => parameter.ident,
        None => false,
    }
}

fn literal_expr(
    alloc: Global,
    numbered: &NumberedTable,
    literal: &Literal,
) -> Result<Expr, AllocError>
    ensures { IfOk result (λ e. Becomes numbered.now (plain_expr e) (λ of. OfLiteral (spec.literal_cell of.table.lengths (shown_literal literal.now)))) }
{
    let value = literal_of(alloc, numbered.table.lengths(), literal)?;
    Ok(Expr::Literal(value))
}

// TRY of the semaphore of this name. A number that is no semaphore's counts as want of memory.
fn try_of(numbered: &NumberedTable, view: View, name: &Name) -> Result<Expr, AllocError>
    ensures { IfOk result (λ e. Becomes numbered.now (plain_expr e) (λ of. OfTry (spec.number_of of view name.now))) }
{
    match u16::try_from(numbered.number_of(view, name)) {
        Ok(number) => Ok(Expr::Try(number)),
        Err(_) => Err(AllocError),
    }
}

/// What an expression becomes.
#[cycle(expression)]
pub fn resolve_expr(
    alloc: Global,
    numbered: &NumberedTable,
    view: View,
    expr: &Written,
) -> Result<Expr, AllocError>
    ensures { IfOk result (λ e. Becomes numbered.now (plain_expr e) (λ of. spec.resolve_expr of view (shown_expr expr.now))) }
{
    match expr {
        Written::Operand(operand) => {
            let part = resolve_primary(alloc, numbered, view, &operand.primary)?;
            let whole = monadics_over(alloc, operand.monadics.as_slice(), part)?;
            Ok(whole)
        }
        Written::Dyadic {
            left,
            dyadic: operator,
            right,
            ..
        } => {
            let left = resolve_expr(alloc, numbered, view, left)?;
            let right = resolve_expr(alloc, numbered, view, right)?;
            let whole = dyadic(alloc, operator.operator, left, right)?;
            Ok(whole)
        }
    }
}

#[cycle(expression)]
fn resolve_primary(
    alloc: Global,
    numbered: &NumberedTable,
    view: View,
    primary: &Primary,
) -> Result<Expr, AllocError>
    ensures { IfOk result (λ e. Becomes numbered.now (plain_expr e) (λ of. spec.resolve_primary of view (shown_primary primary.now))) }
{
    match primary {
        Primary::Literal(part) => {
            let e = literal_expr(alloc, numbered, part)?;
            Ok(e)
        }
        Primary::Ref(reference) => {
            let e = resolve_ref(alloc, numbered, view, reference)?;
            Ok(e)
        }
        Primary::Group { inner, .. } => {
            let e = resolve_expr(alloc, numbered, view, inner)?;
            Ok(e)
        }
        Primary::Now { .. } => Ok(Expr::Now),
        Primary::Try { name, .. } => {
            let e = try_of(numbered, view, name)?;
            Ok(e)
        }
        Primary::Limit {
            dimension,
            side,
            array,
            ..
        } => {
            let e = resolve_limit(alloc, numbered, view, *dimension, *side, array)?;
            Ok(e)
        }
    }
}

// LWB and UPB are the bound that they name.
#[cycle(expression)]
fn resolve_limit(
    alloc: Global,
    numbered: &NumberedTable,
    view: View,
    dimension: Option<Number>,
    side: Side,
    array: &Ref,
) -> Result<Expr, AllocError>
    ensures { IfOk result (λ e. Becomes numbered.now (plain_expr e) (λ of. spec.limit_of dimension side (spec.walked of view (shown_ref array.now)))) }
{
    let walk = walk_ref(alloc, numbered, view, array)?;
    Ok(limit_of(&walk, dimension, side))
}

// A reference in an expression: a call, where its name is that of a procedure.
#[cycle(expression)]
fn resolve_ref(
    alloc: Global,
    numbered: &NumberedTable,
    view: View,
    reference: &Ref,
) -> Result<Expr, AllocError>
    ensures { IfOk result (λ e. Becomes numbered.now (plain_expr e) (λ of. spec.resolve_primary of view (ref_primary (shown_ref reference.now)))) }
{
    match numbered.signature_of(view, &reference.name) {
        Some(signature) => {
            let procedure = numbered.number_of(view, &reference.name);
            let selectors = reference.selectors.as_slice();
            let arguments = resolve_call(alloc, numbered, view, signature, selectors)?;
            let e = call(alloc, procedure, arguments)?;
            Ok(e)
        }
        None => {
            let variable = resolve_variable(alloc, numbered, view, reference)?;
            let e = read(alloc, variable)?;
            Ok(e)
        }
    }
}

/// What a reference becomes whose name is that of a variable.
#[cycle(expression)]
pub fn resolve_variable(
    alloc: Global,
    numbered: &NumberedTable,
    view: View,
    reference: &Ref,
) -> Result<Variable, AllocError>
    ensures { IfOk result (λ variable. Becomes numbered.now (plain_variable variable) (λ of. spec.resolve_variable of view (shown_ref reference.now))) }
{
    let walk = walk_ref(alloc, numbered, view, reference)?;
    Ok(variable_of(walk))
}

/// What the target of a GET becomes, and the kind of its values.
pub(crate) fn resolve_target(
    alloc: Global,
    numbered: &NumberedTable,
    view: View,
    reference: &Ref,
) -> Result<(Variable, Kind), AllocError>
    ensures variable { IfOk result (λ target. Becomes numbered.now (plain_variable target.0) (λ of. spec.resolve_variable of view (shown_ref reference.now))) }
    ensures kind { IfOk result (λ target. Becomes numbered.now target.1 (λ of. spec.target_kind of view (shown_ref reference.now))) }
{
    let walk = walk_ref(alloc, numbered, view, reference)?;
    let kind = kind_of(&walk);
    Ok((variable_of(walk), kind))
}

#[cycle(expression)]
fn walk_ref(
    alloc: Global,
    numbered: &NumberedTable,
    view: View,
    reference: &Ref,
) -> Result<Walk, AllocError>
    ensures { IfOk result (λ walk. Walks numbered.now walk (λ of. spec.walked of view (shown_ref reference.now))) }
{
    let mut walk = start(alloc, numbered, view, &reference.name)?;
    go_along(
        alloc,
        numbered,
        view,
        reference.selectors.as_slice(),
        &mut walk,
    )?;
    Ok(walk)
}

// The selectors of a reference, one after the other.
#[cycle(expression)]
fn go_along(
    alloc: Global,
    numbered: &NumberedTable,
    view: View,
    selectors: &[Selector],
    walk: &mut Walk,
) -> Result<(), AllocError>
    ensures { OnOk result ((of : spec.Numbered) → HoldsNumbered numbered.now of → (from : spec.Walk) →
        HoldsWalk numbered.now.table.forms.items walk.old from →
        HoldsWalk numbered.now.table.forms.items walk.new (spec.along of view from (shown_selector_list selectors.now))) }
{
    for selector in selectors {
        step(alloc, numbered, view, selector, walk)?;
    }
    Ok(())
}

#[cycle(expression)]
fn step(
    alloc: Global,
    numbered: &NumberedTable,
    view: View,
    selector: &Selector,
    walk: &mut Walk,
) -> Result<(), AllocError>
    ensures { OnOk result ((of : spec.Numbered) → HoldsNumbered numbered.now of → (from : spec.Walk) →
        HoldsWalk numbered.now.table.forms.items walk.old from →
        HoldsWalk numbered.now.table.forms.items walk.new (spec.step of view from (shown_selector selector.now))) }
{
    match selector {
        Selector::Subscripts { subscripts, .. } => {
            let exprs = subscripts.as_slice();
            add_exprs(alloc, numbered, view, exprs, &mut walk.subscripts)?;
            Ok(())
        }
        Selector::Component { name, .. } => {
            select(walk, numbered.table.forms(), name)?;
            Ok(())
        }
    }
}

/// Adds what expressions become behind others.
#[cycle(expression)]
pub(crate) fn add_exprs(
    alloc: Global,
    numbered: &NumberedTable,
    view: View,
    exprs: &[Written],
    into: &mut Vec<Expr>,
) -> Result<(), AllocError>
    ensures { OnOk result (Becomes numbered.now (plain_exprs into.new.items)
        (λ of. spec.joined_exprs (plain_exprs into.old.items) (spec.resolve_exprs of view (shown_expr_list exprs.now)))) }
{
    into.reserve_exact(exprs.len())?;
    for expr in exprs {
        let e = resolve_expr(alloc, numbered, view, expr)?;
        into.push(e)?;
    }
    Ok(())
}

// The brackets that come directly behind the name of a call hold its arguments.
#[cycle(expression)]
fn resolve_call(
    alloc: Global,
    numbered: &NumberedTable,
    view: View,
    signature: &Signature,
    selectors: &[Selector],
) -> Result<Vec<Argument>, AllocError>
    ensures { IfOk result (λ arguments. Becomes numbered.now (plain_arguments arguments.items)
        (λ of. spec.resolve_call of view (parameters_in signature.now) (shown_selector_list selectors.now))) }
{
    match selectors {
        [first, ..] => {
            let arguments = first_arguments(alloc, numbered, view, signature, first)?;
            Ok(arguments)
        }
        [] => Ok(Vec::new(alloc)),
    }
}

#[cycle(expression)]
fn first_arguments(
    alloc: Global,
    numbered: &NumberedTable,
    view: View,
    signature: &Signature,
    selector: &Selector,
) -> Result<Vec<Argument>, AllocError>
    ensures { IfOk result (λ arguments. Becomes numbered.now (plain_arguments arguments.items)
        (λ of. spec.first_arguments of view (parameters_in signature.now) (shown_selector selector.now))) }
{
    match selector {
        Selector::Subscripts { subscripts, .. } => {
            let exprs = subscripts.as_slice();
            let parameters = signature.parameters.as_slice();
            let arguments = resolve_arguments(alloc, numbered, view, parameters, exprs)?;
            Ok(arguments)
        }
        Selector::Component { .. } => Ok(Vec::new(alloc)),
    }
}

/// What the arguments of a call become. A parameter with IDENT takes the variable that is read.
#[cycle(expression)]
pub fn resolve_arguments(
    alloc: Global,
    numbered: &NumberedTable,
    view: View,
    parameters: &[Parameter],
    exprs: &[Written],
) -> Result<Vec<Argument>, AllocError>
    ensures { IfOk result (λ arguments. Becomes numbered.now (plain_arguments arguments.items)
        (λ of. spec.resolve_arguments of view (map parameter_of parameters.now) (shown_expr_list exprs.now))) }
{
    let mut arguments = Vec::new(alloc);
    arguments.reserve_exact(exprs.len())?;
    for (index, expr) in exprs.iter().enumerate() {
        let e = resolve_expr(alloc, numbered, view, expr)?;
        arguments.push(handed(is_ident(parameters, index), e))?;
    }
    Ok(arguments)
}
