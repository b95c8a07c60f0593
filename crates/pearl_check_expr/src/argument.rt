// The arguments of calls, against the parameters for which they stand.

ghost use Rattle.std.specs.Prelude.{◌≡◌, List, Option, IfOk};
ghost use Rattle.std.specs.Option.{option_copied};
ghost use Rattle.pearl_tree.specs.ShownExpressions.{shown_expr, shown_primary};
ghost use Rattle.pearl_names.specs.declared.types.StructForm.{StructForm as StructFormOf};
ghost use Rattle.pearl_names.specs.Holding.{HoldsFound, HoldsTable, parameter_of};
ghost use Rattle.pearl_names.specs.Tables as tables;
ghost use Rattle.pearl_check_expr.specs.Judged as spec;
ghost use Rattle.pearl_check_expr.specs.Answers.{IsArgument};

use crate::callee::{callee_of, is_fixed};
use crate::kinds::is_kind;
use crate::tell::{tell, tell_if};
use pearl_names::scope::View;
use pearl_names::sense::{Parameter, Sense};
use pearl_names::table::SenseTable;
use pearl_tree::expression::{Expr, Operand, Primary};
use pearl_tree::fault::RuleFault;
use pearl_tree::name::Name;
use pearl_tree::rule;
use pearl_value::conversion::suits;
use pearl_value::kind::Kind;
use std::alloc::AllocError as NoMemory;

fn misfits(from: Option<Kind>, to: Option<Kind>) -> bool
    ensures { result ≡ spec.misfits from to }
{
    match (from, to) {
        (Some(from), Some(to)) => !suits(from, to),
        _ => false,
    }
}

fn differs(from: Option<Kind>, to: Option<Kind>) -> bool
    ensures { result ≡ spec.differs from to }
{
    match (from, to) {
        (Some(from), Some(to)) => !is_kind(from, to),
        _ => false,
    }
}

// A value for a parameter. S20: it doesn't suit.
fn value_argument(
    found: &mut Vec<RuleFault>,
    place: u32,
    to: Option<Kind>,
    value: Option<Kind>,
) -> Result<bool, NoMemory>
    ensures { IfOk result (λ well. IsArgument well found.old.items found.new.items (spec.value_argument place to value)) }
{
    let misfits = misfits(value, to);
    tell_if(found, misfits, place, rule::S20)?;
    Ok(value.is_some() && to.is_some() && !misfits)
}

// What is no variable, for an IDENT parameter.
fn no_variable(found: &mut Vec<RuleFault>, place: u32) -> Result<bool, NoMemory>
    ensures { IfOk result (λ well. IsArgument well found.old.items found.new.items (spec.no_variable place)) }
{
    tell(found, place, rule::S21)?;
    Ok(false)
}

// A variable for an IDENT parameter. S21: it may not be changed, or isn't of exactly the parameter's kind.
fn variable_argument(
    found: &mut Vec<RuleFault>,
    place: u32,
    fixed: bool,
    to: Option<Kind>,
    variable: Option<Kind>,
) -> Result<bool, NoMemory>
    ensures { IfOk result (λ well. IsArgument well found.old.items found.new.items (spec.variable_argument place fixed to variable)) }
{
    let differs = differs(variable, to);
    tell_if(found, fixed || differs, place, rule::S21)?;
    Ok(!fixed && variable.is_some() && to.is_some() && !differs)
}

fn named_argument(
    found: &mut Vec<RuleFault>,
    place: u32,
    to: Option<Kind>,
    value: Option<Kind>,
    sense: Option<&Sense>,
) -> Result<bool, NoMemory>
    ensures { IfOk result (λ well. (forms : List StructFormOf) (of : Option tables.Sense) → HoldsFound forms (option_copied sense.entry) of →
        IsArgument well found.old.items found.new.items (spec.named_argument place to value of)) }
{
    if callee_of(sense).is_some() {
        let well = no_variable(found, place)?;
        Ok(well)
    } else {
        let well = variable_argument(found, place, is_fixed(sense), to, value)?;
        Ok(well)
    }
}

fn name_of_primary(primary: &Primary) -> Option<&Name>
    ensures { option_copied result ≡ spec.name_of_primary (shown_primary primary.now) }
{
    match primary {
        Primary::Ref(reference) => Some(&reference.name),
        Primary::Literal(_) => None,
        Primary::Group { .. } => None,
        Primary::Now { .. } => None,
        Primary::Try { .. } => None,
        Primary::Limit { .. } => None,
    }
}

fn name_of_operand(operand: &Operand) -> Option<&Name>
    ensures { option_copied result ≡ spec.name_behind operand.now.monadics.items.items (shown_primary operand.now.primary) }
{
    if operand.monadics.as_slice().is_empty() {
        name_of_primary(&operand.primary)
    } else {
        None
    }
}

// The name of a reference that stands alone, in no brackets.
fn plain_name(expr: &Expr) -> Option<&Name>
    ensures { option_copied result ≡ spec.plain_name (shown_expr expr.now) }
{
    match expr {
        Expr::Operand(operand) => name_of_operand(operand),
        Expr::Dyadic { .. } => None,
    }
}

fn place_of(expr: &Expr) -> u32
    ensures { result ≡ spec.expr_place (shown_expr expr.now) }
{
    match expr {
        Expr::Operand(operand) => operand.place,
        Expr::Dyadic { place, .. } => *place,
    }
}

fn ident_argument(
    table: &SenseTable,
    view: View,
    found: &mut Vec<RuleFault>,
    place: u32,
    to: Option<Kind>,
    value: Option<Kind>,
    name: Option<&Name>,
) -> Result<bool, NoMemory>
    ensures { IfOk result (λ well. (t : tables.Table) → HoldsTable table.now t →
        IsArgument well found.old.items found.new.items (spec.ident_argument t view place to value (option_copied name.entry))) }
{
    match name {
        Some(name) => {
            let sense = table.sense_from(view, &name.text);
            let well = named_argument(found, place, to, value, sense)?;
            Ok(well)
        }
        None => {
            let well = no_variable(found, place)?;
            Ok(well)
        }
    }
}

/// Whether an argument of this kind is well for a parameter. S20 and S21 are told at the argument.
pub(crate) fn fitted(
    table: &SenseTable,
    view: View,
    found: &mut Vec<RuleFault>,
    parameter: Parameter,
    expr: &Expr,
    value: Option<Kind>,
) -> Result<bool, NoMemory>
    ensures { IfOk result (λ well. (t : tables.Table) → HoldsTable table.now t →
        IsArgument well found.old.items found.new.items (spec.fitted t view (parameter_of parameter) (shown_expr expr.now) value)) }
{
    let place = place_of(expr);
    if parameter.ident {
        let name = plain_name(expr);
        let well = ident_argument(table, view, found, place, parameter.kind, value, name)?;
        Ok(well)
    } else {
        let well = value_argument(found, place, parameter.kind, value)?;
        Ok(well)
    }
}
