// How far a reference has come.

ghost use Rattle.std.specs.Prelude.{◌≡◌, ◌+◌, ◌*◌, ℕ, ℤ, [], List, Option, Some, map, drop, unwrap_or, IfOk, OnOk};
ghost use Rattle.pearl_names.specs.Counts.{cut};
ghost use Rattle.pearl_names.specs.Forms.{Component, IsComponent, StandsFor, pair_of};
ghost use Rattle.pearl_names.specs.Holding.{HoldsForm, HoldsSense};
ghost use Rattle.pearl_names.specs.Shapes.{OfKind, Shape};
ghost use Rattle.pearl_names.specs.Tables as tables;
ghost use Rattle.pearl_names.specs.declared.types.StructForm.{StructForm as StructFormOf};
ghost use Rattle.pearl_names.specs.declared.types.TypeRef.TheVariants.{Struct};
ghost use Rattle.pearl_program.specs.Typing as typing;
ghost use Rattle.pearl_value.specs.declared.kind.Kind.TheVariants as fixed;
ghost use Rattle.pearl_program.specs.PlainExpressions.{OfLiteral, plain_expr, plain_variable};
ghost use Rattle.pearl_value.specs.declared.cell.Cell.TheVariants.{Fixed};
ghost use Rattle.pearl_resolve.specs.Expressions as spec;
ghost use Rattle.pearl_resolve.specs.Holding.{HoldsWalk, Walks};

use crate::bounds::{add_bounds, elements};
use crate::counts::{further_on, product};
use crate::numbered::NumberedTable;
use pearl_check_expr::standing::dimension_of;
use pearl_names::meaning::Found;
use pearl_names::scope::View;
use pearl_names::sense::{Bounds, Form, Parameter, Sense};
use pearl_names::types::{FieldForm, StructForm, TypeRef, field_bounds, field_of};
use pearl_program::expression::{Bound, Expr, Target, Variable};
use pearl_program::literal::Literal;
use pearl_resolve_tables::counts::whole;
use pearl_resolve_tables::devices::kind_or_short;
use pearl_tree::expression::Side;
use pearl_tree::name::{Name, Number};
use pearl_value::kind::Kind;
use std::alloc::{AllocError, Global};

/// Where a reference leads, the type there, and the bounds of all arrays on the way with the subscripts that are given
/// for them.
#[derive(Drop)]
pub(crate) struct Walk {
    pub target: Target,
    pub part: TypeRef,
    pub bounds: Vec<Bound>,
    pub subscripts: Vec<Expr>,
}

fn kind_walk(alloc: Global, target: Target, kind: Kind) -> Walk
    ensures { (forms : List StructFormOf) → HoldsWalk forms result (spec.begun target [] (OfKind kind)) }
{
    Walk {
        target,
        part: TypeRef::Basic(kind),
        bounds: Vec::new(alloc),
        subscripts: Vec::new(alloc),
    }
}

// Where a rule is broken.
fn no_walk(alloc: Global) -> Walk
    ensures { (forms : List StructFormOf) → HoldsWalk forms result spec.no_walk }
{
    kind_walk(alloc, Target::Own(0), Kind::Fixed(31))
}

fn array_walk(alloc: Global, target: Target, form: &Form) -> Result<Walk, AllocError>
    ensures { IfOk result (λ walk. (forms : List StructFormOf) (of : tables.Form) → HoldsForm forms (Some form.now) (Some of) →
        HoldsWalk forms walk (spec.form_walk target (Some of))) }
{
    let mut bounds = Vec::new(alloc);
    add_bounds(&mut bounds, form.bounds.as_slice())?;
    Ok(Walk {
        target,
        part: form.part,
        bounds,
        subscripts: Vec::new(alloc),
    })
}

fn form_walk(alloc: Global, target: Target, form: &Option<Form>) -> Result<Walk, AllocError>
    ensures { IfOk result (λ walk. (forms : List StructFormOf) (of : Option tables.Form) → HoldsForm forms form.now of →
        HoldsWalk forms walk (spec.form_walk target of)) }
{
    match form {
        Some(form) => {
            let walk = array_walk(alloc, target, form)?;
            Ok(walk)
        }
        None => Ok(no_walk(alloc)),
    }
}

fn target_in(scope: u32, number: u32) -> Target
    ensures { result ≡ spec.target_in scope number }
{
    if scope == 0 {
        Target::Leaf(number)
    } else {
        Target::Own(number)
    }
}

fn own_or_param(ident: bool, number: u32) -> Target
    ensures { result ≡ spec.own_or_param ident number }
{
    if ident {
        Target::Param(number)
    } else {
        Target::Own(number)
    }
}

fn parameter_walk(alloc: Global, parameter: Parameter, number: u32) -> Walk
    ensures { (forms : List StructFormOf) → HoldsWalk forms result
        (spec.begun (spec.own_or_param parameter.ident number) [] (OfKind (unwrap_or parameter.kind (fixed.Fixed 31)))) }
{
    kind_walk(
        alloc,
        own_or_param(parameter.ident, number),
        kind_or_short(parameter.kind),
    )
}

// A variable by its name alone.
fn walk_of(alloc: Global, sense: &Sense, scope: u32, number: u32) -> Result<Walk, AllocError>
    ensures { IfOk result (λ walk. (forms : List StructFormOf) (of : tables.Sense) → HoldsSense forms sense.now of →
        HoldsWalk forms walk (spec.walk_of (record { sense = of; scope = scope; number = number }))) }
{
    match sense {
        Sense::Variable { form, .. } => {
            let walk = form_walk(alloc, target_in(scope, number), form)?;
            Ok(walk)
        }
        Sense::Control(kind) => Ok(kind_walk(alloc, Target::Own(number), *kind)),
        Sense::Parameter(parameter) => Ok(parameter_walk(alloc, *parameter, number)),
        Sense::NewType => Ok(no_walk(alloc)),
        Sense::Semaphore => Ok(no_walk(alloc)),
        Sense::Interrupt => Ok(no_walk(alloc)),
        Sense::AlphicDation(_) => Ok(no_walk(alloc)),
        Sense::BasicDation { .. } => Ok(no_walk(alloc)),
        Sense::Task => Ok(no_walk(alloc)),
        Sense::Procedure(_) => Ok(no_walk(alloc)),
    }
}

fn walk_found(alloc: Global, numbered: &NumberedTable, found: Found) -> Result<Walk, AllocError>
    ensures { IfOk result (λ walk. Walks numbered.now walk (λ of. spec.walk_from (spec.meant_at of found))) }
{
    match numbered.table.sense_at(found) {
        Some(sense) => {
            let walk = walk_of(alloc, sense, found.scope, numbered.number_at(found))?;
            Ok(walk)
        }
        None => Ok(no_walk(alloc)),
    }
}

/// Where a reference begins.
pub(crate) fn start(
    alloc: Global,
    numbered: &NumberedTable,
    view: View,
    name: &Name,
) -> Result<Walk, AllocError>
    ensures { IfOk result (λ walk. Walks numbered.now walk (λ of. spec.walk_from (spec.meant of view name.now))) }
{
    match numbered.table.find_from(view, &name.text) {
        Some(found) => {
            let walk = walk_found(alloc, numbered, found)?;
            Ok(walk)
        }
        None => Ok(no_walk(alloc)),
    }
}

// So many leaves or cells further.
fn further(number: u32, times: u64, count: u32) -> Result<u32, AllocError>
    ensures { IfOk result (λ after. (n : ℕ) → count ≡ cut n → after ≡ number + times * n) }
{
    let count = whole(count)?;
    let distance = product(times, u64::from(count))?;
    let after = further_on(number, distance)?;
    Ok(after)
}

fn moved(target: Target, bounds: &[Bound], field: FieldForm) -> Result<Target, AllocError>
    ensures { IfOk result (λ to. (forms : List StructFormOf) (of : Component) → IsComponent forms field of →
        to ≡ spec.moved target (typing.elements bounds.now) of) }
{
    match target {
        Target::Leaf(number) => {
            let number = further(number, 1, field.leaf)?;
            Ok(Target::Leaf(number))
        }
        Target::Own(number) => {
            let number = further(number, elements(bounds)?, field.slot)?;
            Ok(Target::Own(number))
        }
        Target::Param(number) => Ok(Target::Param(number)),
    }
}

fn enter(walk: &mut Walk, field: FieldForm, bounds: &[Bounds]) -> Result<(), AllocError>
    ensures { OnOk result ((forms : List StructFormOf) (from : spec.Walk) (of : Component) → HoldsWalk forms walk.old from →
        IsComponent forms field of → map pair_of bounds.now ≡ of.bounds → HoldsWalk forms walk.new (spec.to_field from (Some of))) }
{
    walk.target = moved(walk.target, walk.bounds.as_slice(), field)?;
    walk.part = field.part;
    add_bounds(&mut walk.bounds, bounds)
}

fn enter_struct(
    walk: &mut Walk,
    forms: &[StructForm],
    number: u32,
    name: &Name,
) -> Result<(), AllocError>
    ensures { OnOk result ((from : spec.Walk) → HoldsWalk forms.now walk.old from → StandsFor forms.now (Struct number) from.shape →
        HoldsWalk forms.now walk.new (spec.to_field from (spec.field_of from.shape name.now))) }
{
    let bounds = match field_bounds(forms, number, &name.text) {
        Some(bounds) => bounds,
        None => return Ok(()),
    };
    match field_of(forms, number, &name.text) {
        Some(field) => enter(walk, field, bounds),
        None => Ok(()),
    }
}

/// A component of this name.
pub(crate) fn select(walk: &mut Walk, forms: &[StructForm], name: &Name) -> Result<(), AllocError>
    ensures { OnOk result ((from : spec.Walk) → HoldsWalk forms.now walk.old from →
        HoldsWalk forms.now walk.new (spec.to_field from (spec.field_of from.shape name.now))) }
{
    match walk.part {
        TypeRef::Basic(_) => Ok(()),
        TypeRef::Struct(number) => enter_struct(walk, forms, number, name),
    }
}

/// The variable to which a reference leads.
pub(crate) fn variable_of(walk: Walk) -> Variable
    ensures { (forms : List StructFormOf) (of : spec.Walk) → HoldsWalk forms walk of → plain_variable result ≡ spec.variable_of of }
{
    Variable {
        target: walk.target,
        bounds: walk.bounds,
        subscripts: walk.subscripts,
    }
}

/// The kind of the values of the variable to which a reference leads.
pub(crate) fn kind_of(walk: &Walk) -> Kind
    ensures { (forms : List StructFormOf) (of : spec.Walk) → HoldsWalk forms walk.now of → result ≡ spec.kind_of_shape of.shape }
{
    match walk.part {
        TypeRef::Basic(kind) => kind,
        TypeRef::Struct(_) => Kind::Fixed(31),
    }
}

fn behind(bounds: &[Bound], given: usize) -> &[Bound]
    ensures { result.now ≡ drop given bounds.now }
{
    if given <= bounds.len() {
        &bounds[given..]
    } else {
        &[]
    }
}

// The bounds of the array that a reference names, without those that have subscripts.
fn open_bounds(walk: &Walk) -> &[Bound]
    ensures { (forms : List StructFormOf) (of : spec.Walk) → HoldsWalk forms walk.now of → result.now ≡ spec.open_bounds of }
{
    behind(walk.bounds.as_slice(), walk.subscripts.as_slice().len())
}

fn side_of(side: Side, bound: Bound) -> i32
    ensures { result ≡ spec.side_of side bound }
{
    match side {
        Side::Lower => bound.lower,
        Side::Upper => bound.upper,
    }
}

fn short_literal(value: i32) -> Expr
    ensures { plain_expr result ≡ OfLiteral (Fixed 31 value) }
{
    Expr::Literal(Literal::Fixed {
        len: 31,
        value: i64::from(value),
    })
}

/// LWB and UPB of a reference.
pub(crate) fn limit_of(walk: &Walk, dimension: Option<Number>, side: Side) -> Expr
    ensures { (forms : List StructFormOf) (of : spec.Walk) → HoldsWalk forms walk.now of → plain_expr result ≡ spec.limit_of dimension side of }
{
    let index = dimension_of(dimension).saturating_sub(1);
    match open_bounds(walk).get(index as usize) {
        Some(bound) => short_literal(side_of(side, *bound)),
        None => short_literal(0),
    }
}
