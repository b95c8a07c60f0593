// How far a reference has come, and what the parts behind it make of that.

ghost use Rattle.std.specs.Prelude.{◌≡◌, ◌==◌, ◌&&◌, List, [], Option, IfOk};
ghost use Rattle.std.specs.Option.{option_copied};
ghost use Rattle.pearl_names.specs.declared.types.StructForm.{StructForm as StructFormOf};
ghost use Rattle.pearl_names.specs.Shapes.{Shape};
ghost use Rattle.pearl_names.specs.declared.types.TypeRef.TheVariants.{Struct};
ghost use Rattle.pearl_names.specs.Forms.{StandsFor};
ghost use Rattle.pearl_names.specs.Holding.{HoldsForm, HoldsSense, HoldsFound};
ghost use Rattle.pearl_names.specs.Tables as tables;
ghost use Rattle.pearl_check_expr.specs.Judged as judged;
ghost use Rattle.pearl_check_expr.specs.Standings as spec;
ghost use Rattle.pearl_check_expr.specs.Answers.{IsJudged, StandsAt, StandsIf, IsWalked, AreSubscripts};

use crate::tell::tell;
use pearl_names::sense::{Form, Sense};
use pearl_names::types::{FieldForm, StructForm, TypeRef, field_of};
use pearl_tree::fault::RuleFault;
use pearl_tree::name::{Name, Number};
use pearl_tree::rule;
use pearl_value::kind::Kind;
use std::alloc::AllocError as NoMemory;

/// How far a reference has come.
#[derive(Clone, Copy)]
pub(crate) enum Standing {
    /// A rule is broken, or a declaration that is needed is missing.
    Broken,
    /// At a part of this type, of whose array so many dimensions are open.
    Open { dimensions: u32, part: TypeRef },
}

// No number of dimensions is counted above this one.
const MOST_DIMENSIONS: usize = 1 << 31;

fn form_standing(form: &Form) -> Standing
    ensures { (forms : List StructFormOf) (of : tables.Form) → HoldsForm forms (Some form.now) (Some of) →
        StandsAt forms result (spec.form_standing (Some of)) }
{
    Standing::Open {
        dimensions: usize::min(form.bounds.len(), MOST_DIMENSIONS) as u32,
        part: form.part,
    }
}

fn variable_standing(form: &Option<Form>) -> Standing
    ensures { (forms : List StructFormOf) (of : Option tables.Form) → HoldsForm forms form.now of →
        StandsAt forms result (spec.form_standing of) }
{
    match form {
        Some(form) => form_standing(form),
        None => Standing::Broken,
    }
}

fn kind_standing(kind: Option<Kind>) -> Standing
    ensures { (forms : List StructFormOf) → StandsAt forms result (spec.kind_standing kind) }
{
    match kind {
        Some(kind) => Standing::Open {
            dimensions: 0,
            part: TypeRef::Basic(kind),
        },
        None => Standing::Broken,
    }
}

// Tells a broken rule. The reference comes no further.
fn stop(found: &mut Vec<RuleFault>, place: u32, rule: u8) -> Result<Standing, NoMemory>
    ensures { IfOk result (λ standing. (forms : List StructFormOf) → IsWalked forms standing found.old.items found.new.items (spec.stopped place rule)) }
{
    tell(found, place, rule)?;
    Ok(Standing::Broken)
}

// Where a variable stands.
fn standing_of(sense: &Sense) -> Option<Standing>
    ensures { (forms : List StructFormOf) (of : tables.Sense) → HoldsSense forms sense.now of →
        StandsIf forms result (spec.standing_of of) }
{
    match sense {
        Sense::Variable { form, .. } => Some(variable_standing(form)),
        Sense::Control(kind) => Some(kind_standing(Some(*kind))),
        Sense::Parameter(parameter) => Some(kind_standing(parameter.kind)),
        Sense::NewType => None,
        Sense::Semaphore => None,
        Sense::Interrupt => None,
        Sense::AlphicDation(_) => None,
        Sense::BasicDation { .. } => None,
        Sense::Task => None,
        Sense::Procedure(_) => None,
    }
}

fn start_at(
    found: &mut Vec<RuleFault>,
    name: &Name,
    standing: Option<Standing>,
) -> Result<Standing, NoMemory>
    ensures { IfOk result (λ start. (forms : List StructFormOf) (of : Option spec.Standing) → StandsIf forms standing of →
        IsWalked forms start found.old.items found.new.items (spec.start_at name.now of)) }
{
    match standing {
        Some(standing) => Ok(standing),
        None => {
            let start = stop(found, name.place, rule::S16)?;
            Ok(start)
        }
    }
}

/// Where a reference begins whose name stands for this. S16: it isn't that of a variable.
pub(crate) fn start(
    found: &mut Vec<RuleFault>,
    name: &Name,
    sense: Option<&Sense>,
) -> Result<Standing, NoMemory>
    ensures { IfOk result (λ start. (forms : List StructFormOf) (of : Option tables.Sense) → HoldsFound forms (option_copied sense.entry) of →
        IsWalked forms start found.old.items found.new.items (spec.variable_start name.now of)) }
{
    match sense {
        Some(sense) => {
            let start = start_at(found, name, standing_of(sense))?;
            Ok(start)
        }
        None => Ok(Standing::Broken),
    }
}

pub(crate) fn is_fixed_or_unknown(kind: Option<Kind>) -> bool
    ensures { result ≡ spec.is_fixed_or_unknown kind }
{
    match kind {
        None => true,
        Some(Kind::Fixed(_)) => true,
        Some(Kind::Bits(_)) => false,
        Some(Kind::Chars(_)) => false,
        Some(Kind::Clock) => false,
        Some(Kind::Span) => false,
    }
}

/// What is asked of subscripts as a whole: how many there are, whether each that has a kind is FIXED, and whether each
/// has one.
#[derive(Clone, Copy)]
pub(crate) struct Subscripts {
    pub count: usize,
    pub fixed: bool,
    pub known: bool,
}

// Whether there are as many subscripts as dimensions, each of them FIXED or without a kind.
fn fit(subscripts: Subscripts, dimensions: u32) -> bool
    ensures { result ≡ (subscripts.count == dimensions) && subscripts.fixed }
{
    subscripts.count == dimensions as usize && subscripts.fixed
}

fn element_standing(subscripts: Subscripts, part: TypeRef) -> Standing
    ensures { (forms : List StructFormOf) (shape : Shape) → StandsFor forms part shape →
        StandsAt forms result (spec.element_standing subscripts.known shape) }
{
    if subscripts.known {
        Standing::Open {
            dimensions: 0,
            part,
        }
    } else {
        Standing::Broken
    }
}

/// The element that so many subscripts of an array choose. S17: they don't fit the array.
pub(crate) fn element_of(
    found: &mut Vec<RuleFault>,
    name: &Name,
    standing: Standing,
    subscripts: Subscripts,
) -> Result<Standing, NoMemory>
    ensures { IfOk result (λ element. (forms : List StructFormOf) (from : spec.Standing) (parts : List spec.Judged) →
        StandsAt forms standing from → AreSubscripts subscripts parts →
        IsWalked forms element found.old.items found.new.items (spec.element_of name.now from parts)) }
{
    match standing {
        Standing::Broken => Ok(Standing::Broken),
        Standing::Open { dimensions, part } => {
            if fit(subscripts, dimensions) {
                Ok(element_standing(subscripts, part))
            } else {
                let stopped = stop(found, name.place, rule::S17)?;
                Ok(stopped)
            }
        }
    }
}

fn field_standing(field: FieldForm) -> Standing
    ensures { result ≡ Standing.Open field.dimensions field.part }
{
    let FieldForm {
        dimensions,
        part,
        ..
    } = field;
    Standing::Open { dimensions, part }
}

fn field_at(
    forms: &[StructForm],
    found: &mut Vec<RuleFault>,
    number: u32,
    name: &Name,
) -> Result<Standing, NoMemory>
    ensures { IfOk result (λ field. (shape : Shape) → StandsFor forms.now (Struct number) shape →
        IsWalked forms.now field found.old.items found.new.items (spec.field_of shape name.now)) }
{
    match field_of(forms, number, &name.text) {
        Some(field) => Ok(field_standing(field)),
        None => {
            let stopped = stop(found, name.place, rule::S18)?;
            Ok(stopped)
        }
    }
}

fn field_in(
    forms: &[StructForm],
    found: &mut Vec<RuleFault>,
    part: TypeRef,
    name: &Name,
) -> Result<Standing, NoMemory>
    ensures { IfOk result (λ field. (shape : Shape) → StandsFor forms.now part shape →
        IsWalked forms.now field found.old.items found.new.items (spec.field_of shape name.now)) }
{
    match part {
        TypeRef::Basic(_) => {
            let stopped = stop(found, name.place, rule::S18)?;
            Ok(stopped)
        }
        TypeRef::Struct(number) => {
            let field = field_at(forms, found, number, name)?;
            Ok(field)
        }
    }
}

/// The field that a component chooses. S17: it is asked of a whole array; S18: there is none of this name.
pub(crate) fn selected(
    forms: &[StructForm],
    found: &mut Vec<RuleFault>,
    name: &Name,
    standing: Standing,
    component: &Name,
) -> Result<Standing, NoMemory>
    ensures { IfOk result (λ field. (from : spec.Standing) → StandsAt forms.now standing from →
        IsWalked forms.now field found.old.items found.new.items (spec.selected name.now from component.now)) }
{
    match standing {
        Standing::Broken => Ok(Standing::Broken),
        Standing::Open { dimensions, part } => {
            if dimensions > 0 {
                let stopped = stop(found, name.place, rule::S17)?;
                Ok(stopped)
            } else {
                let field = field_in(forms, found, part, component)?;
                Ok(field)
            }
        }
    }
}

fn whole(found: &mut Vec<RuleFault>, name: &Name) -> Result<Option<Kind>, NoMemory>
    ensures { IfOk result (λ kind. IsJudged kind found.old.items found.new.items (spec.faulty name.now.place 19)) }
{
    tell(found, name.place, rule::S19)?;
    Ok(None)
}

// The kind of a part that is of one.
fn kind_in(found: &mut Vec<RuleFault>, name: &Name, part: TypeRef) -> Result<Option<Kind>, NoMemory>
    ensures { IfOk result (λ kind. (forms : List StructFormOf) (shape : Shape) → StandsFor forms part shape →
        IsJudged kind found.old.items found.new.items (spec.value_of name.now (spec.Open 0 shape))) }
{
    match part {
        TypeRef::Basic(kind) => Ok(Some(kind)),
        TypeRef::Struct(_) => {
            let none = whole(found, name)?;
            Ok(none)
        }
    }
}

/// The kind of what a reference names. S19: it is a whole array or structure.
pub(crate) fn value_of(
    found: &mut Vec<RuleFault>,
    name: &Name,
    standing: Standing,
) -> Result<Option<Kind>, NoMemory>
    ensures { IfOk result (λ kind. (forms : List StructFormOf) (from : spec.Standing) → StandsAt forms standing from →
        IsJudged kind found.old.items found.new.items (spec.value_of name.now from)) }
{
    match standing {
        Standing::Broken => Ok(None),
        Standing::Open { dimensions, part } => {
            if dimensions == 0 {
                let kind = kind_in(found, name, part)?;
                Ok(kind)
            } else {
                let none = whole(found, name)?;
                Ok(none)
            }
        }
    }
}

/// The dimension that LWB or UPB asks for: the first one where none is written.
pub fn dimension_of(dimension: Option<Number>) -> u64
    ensures { result ≡ judged.dimension_of dimension }
{
    match dimension {
        Some(number) => number.value,
        None => 1,
    }
}

/// The kind of LWB or UPB of a reference. S17: there is no array, or no such dimension.
pub(crate) fn limit_of(
    found: &mut Vec<RuleFault>,
    name: &Name,
    dimension: Option<Number>,
    standing: Standing,
) -> Result<Option<Kind>, NoMemory>
    ensures { IfOk result (λ kind. (forms : List StructFormOf) (from : spec.Standing) → StandsAt forms standing from →
        IsJudged kind found.old.items found.new.items (judged.limit_of name.now (judged.dimension_of dimension) from)) }
{
    match standing {
        Standing::Broken => Ok(None),
        Standing::Open { dimensions, .. } => {
            let dimension = dimension_of(dimension);
            if 1 <= dimension && dimension <= u64::from(dimensions) {
                Ok(Some(Kind::Fixed(31)))
            } else {
                tell(found, name.place, rule::S17)?;
                Ok(None)
            }
        }
    }
}
