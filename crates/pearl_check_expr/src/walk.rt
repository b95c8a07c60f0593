// The kinds of expressions, and the rules that are broken in them.

ghost use Rattle.std.specs.Prelude.{◌≡◌, ◌++◌, [], map, slice_get, option_map, IfOk, OnOk};
ghost use Rattle.pearl_tree.specs.ShownExpressions.{shown_expr, shown_primary, shown_selector, shown_selector_list, shown_expr_list, shown_ref};
ghost use Rattle.pearl_names.specs.Holding.{HoldsTable, parameter_of};
ghost use Rattle.pearl_names.specs.Tables.{Table};
ghost use Rattle.pearl_check_expr.specs.Judged as spec;
ghost use Rattle.pearl_check_expr.specs.Standings as standings;
ghost use Rattle.pearl_check_expr.specs.Answers.{Judges, Walks, StandsAt, IsWalked, AreJudged, IsArgument, AreArguments, callee_in};

use crate::argument::fitted;
use crate::callee::{callee_of, result_kind, try_kind};
use crate::literal::literal_kind;
use crate::operator::{with_dyadic, with_monadics};
use crate::standing::{
    Standing, Subscripts, element_of, is_fixed_or_unknown, limit_of, selected, start, value_of,
};
use crate::tell::{tell, tell_if};
use pearl_names::scope::View;
use pearl_names::sense::{Parameter, Signature};
use pearl_names::table::SenseTable;
use pearl_tree::expression::{Expr, Primary, Ref, Selector};
use pearl_tree::fault::RuleFault;
use pearl_tree::name::{Name, Number};
use pearl_tree::rule;
use pearl_value::kind::Kind;
use std::alloc::AllocError as NoMemory;

fn parameter_at(parameters: &[Parameter], index: usize) -> Option<Parameter>
    ensures { option_map parameter_of result ≡ slice_get (map parameter_of parameters.now) index }
{
    match parameters.get(index) {
        Some(parameter) => Some(*parameter),
        None => None,
    }
}

// The kind of a call's result, where the call is well.
pub(crate) fn if_well(well: bool, signature: &Signature) -> Option<Kind>
    ensures { result ≡ spec.if_well well (spec.result_kind (callee_in signature.now)) }
{
    if well { result_kind(signature) } else { None }
}

/// The kind of an expression.
#[cycle(expression)]
pub(crate) fn judge(
    table: &SenseTable,
    view: View,
    found: &mut Vec<RuleFault>,
    expr: &Expr,
) -> Result<Option<Kind>, NoMemory>
    ensures { IfOk result (λ kind. Judges table.now kind found.old.items found.new.items (λ t. spec.judged t view (shown_expr expr.now))) }
{
    match expr {
        Expr::Operand(operand) => {
            let kind = judge_primary(table, view, found, &operand.primary)?;
            let kind = with_monadics(found, operand.monadics.as_slice(), kind)?;
            Ok(kind)
        }
        Expr::Dyadic {
            left,
            dyadic,
            right,
            ..
        } => {
            let left = judge(table, view, found, left)?;
            let right = judge(table, view, found, right)?;
            let kind = with_dyadic(found, *dyadic, left, right)?;
            Ok(kind)
        }
    }
}

#[cycle(expression)]
fn judge_primary(
    table: &SenseTable,
    view: View,
    found: &mut Vec<RuleFault>,
    primary: &Primary,
) -> Result<Option<Kind>, NoMemory>
    ensures { IfOk result (λ kind. Judges table.now kind found.old.items found.new.items (λ t. spec.judged_primary t view (shown_primary primary.now))) }
{
    match primary {
        Primary::Literal(literal) => Ok(literal_kind(table.lengths(), literal)),
        Primary::Ref(reference) => {
            let kind = judge_ref(table, view, found, reference)?;
            Ok(kind)
        }
        Primary::Group { inner, .. } => {
            let kind = judge(table, view, found, inner)?;
            Ok(kind)
        }
        Primary::Now { .. } => Ok(Some(Kind::Clock)),
        Primary::Try { name, .. } => {
            let kind = try_kind(found, name, table.sense_from(view, &name.text))?;
            Ok(kind)
        }
        Primary::Limit {
            dimension,
            array,
            ..
        } => {
            let kind = judge_limit(table, view, found, *dimension, array)?;
            Ok(kind)
        }
    }
}

#[cycle(expression)]
fn judge_limit(
    table: &SenseTable,
    view: View,
    found: &mut Vec<RuleFault>,
    dimension: Option<Number>,
    array: &Ref,
) -> Result<Option<Kind>, NoMemory>
    ensures { IfOk result (λ kind. Judges table.now kind found.old.items found.new.items (λ t. spec.judged_limit t view dimension (shown_ref array.now))) }
{
    let standing = walk_ref(table, view, found, array)?;
    let kind = limit_of(found, &array.name, dimension, standing)?;
    Ok(kind)
}

// A reference in an expression: a call, where its name is that of a procedure.
#[cycle(expression)]
fn judge_ref(
    table: &SenseTable,
    view: View,
    found: &mut Vec<RuleFault>,
    reference: &Ref,
) -> Result<Option<Kind>, NoMemory>
    ensures { IfOk result (λ kind. Judges table.now kind found.old.items found.new.items (λ t. spec.judged_ref t view (shown_ref reference.now))) }
{
    let name = &reference.name;
    match callee_of(table.sense_from(view, &name.text)) {
        Some(signature) => {
            let selectors = reference.selectors.as_slice();
            let kind = judge_call(table, view, found, name, signature, selectors)?;
            Ok(kind)
        }
        None => {
            let kind = judge_variable(table, view, found, reference)?;
            Ok(kind)
        }
    }
}

/// The kind of what a reference names, which must be a variable.
#[cycle(expression)]
pub(crate) fn judge_variable(
    table: &SenseTable,
    view: View,
    found: &mut Vec<RuleFault>,
    reference: &Ref,
) -> Result<Option<Kind>, NoMemory>
    ensures { IfOk result (λ kind. Judges table.now kind found.old.items found.new.items (λ t. spec.judged_variable t view (shown_ref reference.now))) }
{
    let standing = walk_ref(table, view, found, reference)?;
    let kind = value_of(found, &reference.name, standing)?;
    Ok(kind)
}

#[cycle(expression)]
fn walk_ref(
    table: &SenseTable,
    view: View,
    found: &mut Vec<RuleFault>,
    reference: &Ref,
) -> Result<Standing, NoMemory>
    ensures { IfOk result (λ standing. Walks table.now standing found.old.items found.new.items (λ t. spec.walked_ref t view (shown_ref reference.now))) }
{
    let name = &reference.name;
    let standing = start(found, name, table.sense_from(view, &name.text))?;
    let selectors = reference.selectors.as_slice();
    let standing = walk(table, view, found, name, standing, selectors)?;
    Ok(standing)
}

// The selectors of a reference, one after the other.
#[cycle(expression)]
fn walk(
    table: &SenseTable,
    view: View,
    found: &mut Vec<RuleFault>,
    name: &Name,
    start: Standing,
    selectors: &[Selector],
) -> Result<Standing, NoMemory>
    ensures { IfOk result (λ standing. (t : Table) → HoldsTable table.now t → (from : standings.Standing) → StandsAt table.now.forms.items start from →
        IsWalked table.now.forms.items standing found.old.items found.new.items
        (spec.along t view name.now (standings.walked_on from []) (shown_selector_list selectors.now))) }
{
    let mut standing = start;
    for selector in selectors {
        standing = step(table, view, found, name, standing, selector)?;
    }
    Ok(standing)
}

#[cycle(expression)]
fn step(
    table: &SenseTable,
    view: View,
    found: &mut Vec<RuleFault>,
    name: &Name,
    standing: Standing,
    selector: &Selector,
) -> Result<Standing, NoMemory>
    ensures { IfOk result (λ next. (t : Table) → HoldsTable table.now t → (from : standings.Standing) → StandsAt table.now.forms.items standing from →
        IsWalked table.now.forms.items next found.old.items found.new.items (spec.step t view name.now from (shown_selector selector.now))) }
{
    match selector {
        Selector::Subscripts { subscripts, .. } => {
            let all = judge_all(table, view, found, subscripts.as_slice())?;
            let element = element_of(found, name, standing, all)?;
            Ok(element)
        }
        Selector::Component {
            name: component,
            ..
        } => {
            let field = selected(table.forms(), found, name, standing, component)?;
            Ok(field)
        }
    }
}

#[cycle(expression)]
pub(crate) fn judge_all(
    table: &SenseTable,
    view: View,
    found: &mut Vec<RuleFault>,
    exprs: &[Expr],
) -> Result<Subscripts, NoMemory>
    ensures { IfOk result (λ all. (t : Table) → HoldsTable table.now t →
        AreJudged all found.old.items found.new.items (spec.judged_all t view (shown_expr_list exprs.now))) }
{
    let mut fixed = true;
    let mut known = true;
    for expr in exprs {
        let kind = judge(table, view, found, expr)?;
        fixed &= is_fixed_or_unknown(kind);
        known &= kind.is_some();
    }
    Ok(Subscripts {
        count: exprs.len(),
        fixed,
        known,
    })
}

// A call in an expression. S22: the procedure has no RETURNS.
#[cycle(expression)]
fn judge_call(
    table: &SenseTable,
    view: View,
    found: &mut Vec<RuleFault>,
    name: &Name,
    signature: &Signature,
    selectors: &[Selector],
) -> Result<Option<Kind>, NoMemory>
    ensures { IfOk result (λ kind. Judges table.now kind found.old.items found.new.items
        (λ t. spec.call_value name.now (callee_in signature.now) (spec.applied t view name.now (callee_in signature.now) (shown_selector_list selectors.now)))) }
{
    tell_if(found, signature.result.is_none(), name.place, rule::S22)?;
    let well = judge_applied(table, view, found, name, signature, selectors)?;
    Ok(if_well(well, signature))
}

// The arguments of a call in an expression, and what stands behind its brackets.
#[cycle(expression)]
fn judge_applied(
    table: &SenseTable,
    view: View,
    found: &mut Vec<RuleFault>,
    name: &Name,
    signature: &Signature,
    selectors: &[Selector],
) -> Result<bool, NoMemory>
    ensures { IfOk result (λ well. (t : Table) → HoldsTable table.now t →
        IsArgument well found.old.items found.new.items (spec.applied t view name.now (callee_in signature.now) (shown_selector_list selectors.now))) }
{
    match selectors {
        [first, rest @ ..] => {
            let well = judge_first(table, view, found, name, signature, first)?;
            judge_beyond(table, view, found, name, rest)?;
            Ok(well && rest.is_empty())
        }
        [] => {
            let well = judge_arguments(table, view, found, name, signature, &[])?;
            Ok(well)
        }
    }
}

#[cycle(expression)]
fn judge_first(
    table: &SenseTable,
    view: View,
    found: &mut Vec<RuleFault>,
    name: &Name,
    signature: &Signature,
    first: &Selector,
) -> Result<bool, NoMemory>
    ensures { IfOk result (λ well. (t : Table) → HoldsTable table.now t →
        IsArgument well found.old.items found.new.items (spec.first_applied t view name.now (callee_in signature.now) (shown_selector first.now))) }
{
    match first {
        Selector::Subscripts { subscripts, .. } => {
            let exprs = subscripts.as_slice();
            let well = judge_arguments(table, view, found, name, signature, exprs)?;
            Ok(well)
        }
        Selector::Component {
            name: component,
            ..
        } => {
            judge_arguments(table, view, found, name, signature, &[])?;
            tell(found, component.place, rule::S18)?;
            Ok(false)
        }
    }
}

// What stands behind the brackets of a call. S17: further brackets; S18: a component.
#[cycle(expression)]
fn judge_beyond(
    table: &SenseTable,
    view: View,
    found: &mut Vec<RuleFault>,
    name: &Name,
    selectors: &[Selector],
) -> Result<(), NoMemory>
    ensures { OnOk result ((t : Table) → HoldsTable table.now t →
        found.new.items ≡ found.old.items ++ spec.beyond t view name.now (shown_selector_list selectors.now)) }
{
    for selector in selectors {
        judge_beyond_one(table, view, found, name, selector)?;
    }
    Ok(())
}

#[cycle(expression)]
fn judge_beyond_one(
    table: &SenseTable,
    view: View,
    found: &mut Vec<RuleFault>,
    name: &Name,
    selector: &Selector,
) -> Result<(), NoMemory>
    ensures { OnOk result ((t : Table) → HoldsTable table.now t →
        found.new.items ≡ found.old.items ++ spec.beyond_one t view name.now (shown_selector selector.now)) }
{
    match selector {
        Selector::Subscripts { subscripts, .. } => {
            tell(found, name.place, rule::S17)?;
            judge_all(table, view, found, subscripts.as_slice())?;
            Ok(())
        }
        Selector::Component {
            name: component,
            ..
        } => {
            tell(found, component.place, rule::S18)?;
            Ok(())
        }
    }
}

/// Whether the arguments of a call are well. S20: there are not as many as parameters.
#[cycle(expression)]
pub(crate) fn judge_arguments(
    table: &SenseTable,
    view: View,
    found: &mut Vec<RuleFault>,
    name: &Name,
    signature: &Signature,
    exprs: &[Expr],
) -> Result<bool, NoMemory>
    ensures { IfOk result (λ well. (t : Table) → HoldsTable table.now t →
        IsArgument well found.old.items found.new.items (spec.called t view name.now (callee_in signature.now) (shown_expr_list exprs.now))) }
{
    let parameters = signature.parameters.as_slice();
    let as_many = exprs.len() == parameters.len();
    tell_if(found, !as_many, name.place, rule::S20)?;
    let well = judge_each(table, view, found, parameters, exprs)?;
    Ok(as_many & well)
}

#[cycle(expression)]
fn judge_each(
    table: &SenseTable,
    view: View,
    found: &mut Vec<RuleFault>,
    parameters: &[Parameter],
    exprs: &[Expr],
) -> Result<bool, NoMemory>
    ensures { IfOk result (λ well. (t : Table) → HoldsTable table.now t →
        AreArguments well found.old.items found.new.items (spec.arguments t view (map parameter_of parameters.now) (shown_expr_list exprs.now))) }
{
    let mut all_well = true;
    for (index, expr) in exprs.iter().enumerate() {
        let parameter = parameter_at(parameters, index);
        let well = judge_argument(table, view, found, parameter, expr)?;
        all_well &= well;
    }
    Ok(all_well)
}

#[cycle(expression)]
fn judge_argument(
    table: &SenseTable,
    view: View,
    found: &mut Vec<RuleFault>,
    parameter: Option<Parameter>,
    expr: &Expr,
) -> Result<bool, NoMemory>
    ensures { IfOk result (λ well. (t : Table) → HoldsTable table.now t →
        IsArgument well found.old.items found.new.items
        (spec.argument_of t view (option_map parameter_of parameter) (shown_expr expr.now) (spec.judged t view (shown_expr expr.now)))) }
{
    let value = judge(table, view, found, expr)?;
    match parameter {
        Some(parameter) => {
            let well = fitted(table, view, found, parameter, expr, value)?;
            Ok(well)
        }
        None => Ok(false),
    }
}
