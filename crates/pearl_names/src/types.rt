// TYPEs by number, with counts of what they would have if each TYPE were written out.

ghost use Rattle.std.specs.Prelude.{◌≡◌, ◌+◌, ◌*◌, ◌^◌, ◌<◌, true, false, is_none, IfOk, OnOk, ◌++◌, List, ℤ, length, map, nat_lt, option_copied, option_map, slice_get};
ghost use Rattle.std.specs.Option.{option_and_then};
ghost use Rattle.std.specs.Map.{lookup};
ghost use Rattle.std.specs.Str.{bytes_eq};
ghost use Rattle.pearl_names.specs.declared.types.Counts.{Counts as CountsOf};
ghost use Rattle.pearl_names.specs.Shapes.{Shape, OfFields, Fields, NoField, with_fields};
ghost use Rattle.pearl_tree.specs.Names.{has_repeats};
ghost use Rattle.pearl_tree.specs.declared.name.Name.{Name as NameOf};
ghost use Rattle.pearl_names.specs.declared.types.StructForm.{StructForm as StructFormOf};
ghost use Rattle.pearl_names.specs.Chains as chains;
ghost use Rattle.pearl_names.specs.Counts as spec;
ghost use Rattle.pearl_names.specs.Leaps as leaps;
ghost use Rattle.pearl_names.specs.Leaps.{IsLeap, LeapStands};
ghost use Rattle.pearl_names.specs.Kinds.{kinds_among};
ghost use Rattle.pearl_names.specs.Runs.{shape_slots, field_slots, drop_fields, tails_of as tails_in};
ghost use Rattle.pearl_names.specs.declared.sense.Bounds.{Bounds as BoundsOf};
ghost use Rattle.pearl_names.specs.Forms.{pair_of, leaf_count, StandsFor, FieldsStand, AllBounded, MatchesComponent, component, Adds, IsForm, IsPart, AreNamed, append_fields};
ghost use Rattle.pearl_names.specs.declared.types.TypeRef.TheVariants.{Struct};

use crate::fields::FieldTable;
use crate::kinds::{Kinds, NO_KINDS, joined_kinds, one_kind};
use crate::sense::Bounds;
use arrayvec::ArrayVec;
use pearl_tree::name::Name;
use pearl_value::kind::Kind;
use std::alloc::{AllocError as NoMemory, Global};

/// How many leaves and slots a type has, how many dimensions a leaf has at most, how many elements, and how many bytes
/// the names of the fields that lead to it, each with a point before it. Each is cut off at 2^31, since types that name
/// types have counts of any size.
#[derive(Clone, Copy, PartialEq, Eq, Debug)]
pub struct Counts {
    pub leaves: u32,
    pub slots: u32,
    pub dimensions: u32,
    pub greatest: u32,
    pub longest: u32,
}

const LIMIT: u64 = 1 << 31;

pub(crate) fn cut(n: u64) -> u32
    ensures { result ≡ spec.cut n }
{
    if n < LIMIT { n as u32 } else { LIMIT as u32 }
}

pub(crate) fn cut_sum(a: u32, b: u32) -> u32
    ensures { result ≡ spec.cut (a + b) }
{
    cut(u64::from(a) + u64::from(b))
}

pub(crate) fn cut_product(a: u32, b: u32) -> u32
    ensures { result ≡ spec.cut (a * b) }
{
    cut(u64::from(a) * u64::from(b))
}

/// The counts of what has these parts.
pub fn joined(a: Counts, b: Counts) -> Counts
    ensures { result ≡ spec.joined a b }
{
    Counts {
        leaves: cut_sum(a.leaves, b.leaves),
        slots: cut_sum(a.slots, b.slots),
        dimensions: u32::max(a.dimensions, b.dimensions),
        greatest: u32::max(a.greatest, b.greatest),
        longest: u32::max(a.longest, b.longest),
    }
}

/// The counts of an array of so many dimensions and elements.
pub fn within(dimensions: u32, elements: u32, part: Counts) -> Counts
    ensures { result ≡ spec.within dimensions elements part }
{
    if part.leaves == 0 {
        return part;
    }
    Counts {
        leaves: part.leaves,
        slots: cut_product(elements, part.slots),
        dimensions: cut_sum(dimensions, part.dimensions),
        greatest: cut_product(elements, part.greatest),
        longest: part.longest,
    }
}

// The counts of a part whose leaves stand behind the name of a field.
fn behind_field(name: &ArrayVec<u8, 63>, part: Counts) -> Counts
    ensures { result ≡ spec.behind_name (1 + length name.now.items) part }
{
    if part.leaves == 0 {
        return part;
    }
    Counts {
        longest: cut_sum(1 + name.len() as u32, part.longest),
        ..part
    }
}

/// What a field or a variable is: of a basic kind, or of the STRUCT of this number.
#[derive(Clone, Copy, PartialEq, Eq, Debug)]
pub enum TypeRef {
    Basic(Kind),
    Struct(u32),
}

/// A field: of what type its elements are, from which of its STRUCT's bounds on and up to which they are its own, how
/// many dimensions and elements it has, and how many leaves and slots stand before it.
#[derive(Clone, Copy, PartialEq, Eq, Debug)]
pub struct FieldForm {
    pub part: TypeRef,
    pub first: usize,
    pub past: usize,
    pub dimensions: u32,
    pub elements: u32,
    pub leaf: u32,
    pub slot: u32,
}

/// So many elements of a type.
#[derive(Clone, Copy, PartialEq, Eq, Debug)]
pub struct Elements {
    pub part: TypeRef,
    pub count: u32,
}

/// What a type begins with: so many elements of an earlier one, which it comes to by so many steps into the first field,
/// and which kinds are among the slots behind them.
#[derive(Clone, Copy, PartialEq, Eq, Debug)]
pub struct Leap {
    pub to: Elements,
    pub behind: Kinds,
    pub steps: u32,
}

/// The number of a STRUCT, and its leap.
#[derive(Clone, Copy, PartialEq, Eq, Debug)]
pub struct Begun {
    pub number: u32,
    pub leap: Leap,
}

/// The fields of a STRUCT by their names, the bounds of all of them, its counts, which kinds are among its last fields
/// (of none, of one, and so on up to all), of a STRUCT with one field what it comes to, and the leap to what it begins
/// with. TYPEs may be thousands deep: where each has one field, a walk that asks for no names goes past them in one
/// step, and to the first leaf a few leaps lead.
#[derive(Drop)]
pub struct StructForm {
    pub fields: FieldTable,
    pub bounds: Vec<Bounds>,
    pub counts: Counts,
    pub tails: Vec<Kinds>,
    pub end: Option<Elements>,
    pub leap: Option<Leap>,
}

fn field_named(form: &StructForm, text: &ArrayVec<u8, 63>) -> Option<FieldForm>
    ensures { result ≡ lookup (λ key. bytes_eq text.now.items key.items) form.now.fields.entries }
{
    match form.fields.get(text) {
        Some(field) => Some(*field),
        None => None,
    }
}

/// The field of a name in the STRUCT of a number.
pub fn field_of(forms: &[StructForm], number: u32, text: &ArrayVec<u8, 63>) -> Option<FieldForm>
    ensures { (fields : Fields) → StandsFor forms.now (Struct number) (OfFields fields) →
        MatchesComponent forms.now result (component 0 0 fields text.now.items) }
{
    match forms.get(number as usize) {
        Some(form) => field_named(form, text),
        None => None,
    }
}

fn bounds_from(all: &[Bounds], first: usize, past: usize) -> &[Bounds]
    ensures { (before own behind : List BoundsOf) → all.now ≡ before ++ (own ++ behind) → first ≡ length before →
        past ≡ length before + length own → result.now ≡ own }
{
    if first <= past && past <= all.len() {
        &all[first..past]
    } else {
        &[]
    }
}

fn own_bounds<'a>(form: &'a StructForm, text: &ArrayVec<u8, 63>) -> Option<&'a [Bounds]>
    ensures { (forms : List StructFormOf) (fields : Fields) → FieldsStand forms 0 0 form.now.fields.entries fields →
        AllBounded form.now.bounds.items form.now.fields.entries fields →
        option_map (map pair_of) (option_copied result) ≡ option_map (λ of. of.bounds) (component 0 0 fields text.now.items) }
{
    match field_named(form, text) {
        Some(field) => Some(bounds_from(form.bounds.as_slice(), field.first, field.past)),
        None => None,
    }
}

/// The bounds of the field of a name in the STRUCT of a number.
pub fn field_bounds<'a>(
    forms: &'a [StructForm],
    number: u32,
    text: &ArrayVec<u8, 63>,
) -> Option<&'a [Bounds]>
    ensures { (fields : Fields) → StandsFor forms.now (Struct number) (OfFields fields) →
        option_map (map pair_of) (option_copied result) ≡ option_map (λ of. of.bounds) (component 0 0 fields text.now.items) }
{
    match forms.get(number as usize) {
        Some(form) => own_bounds(form, text),
        None => None,
    }
}

pub(crate) const NONE: Counts = Counts {
    leaves: 0,
    slots: 0,
    dimensions: 0,
    greatest: 0,
    longest: 0,
};

const ONE: Counts = Counts {
    leaves: 1,
    slots: 1,
    dimensions: 0,
    greatest: 1,
    longest: 0,
};

fn counts_at(forms: &[StructForm], number: u32) -> Counts
    ensures { (fields : Fields) → StandsFor forms.now (Struct number) (OfFields fields) → result ≡ spec.counts_of (OfFields fields) }
{
    match forms.get(number as usize) {
        Some(form) => form.counts,
        None => NONE,
    }
}

/// The counts of a type.
pub fn counts_of(forms: &[StructForm], part: TypeRef) -> Counts
    ensures { (shape : Shape) → StandsFor forms.now part shape → result ≡ spec.counts_of shape }
{
    match part {
        TypeRef::Basic(_) => ONE,
        TypeRef::Struct(number) => counts_at(forms, number),
    }
}

pub(crate) fn has_leaf(forms: &[StructForm], part: TypeRef) -> bool
    ensures { (shape : Shape) → StandsFor forms.now part shape → result ≡ nat_lt 0 (leaf_count shape) }
{
    0 < counts_of(forms, part).leaves
}

fn end_at(forms: &[StructForm], number: u32) -> Option<Elements>
    ensures { result ≡ option_and_then (λ form. form.end) (slice_get forms.now number) }
{
    match forms.get(number as usize) {
        Some(form) => form.end,
        None => None,
    }
}

/// What one element of a type comes to where STRUCTs with one field are gone past.
pub fn end_of(forms: &[StructForm], part: TypeRef) -> Elements
    ensures { result ≡ chains.end_of forms.now part }
{
    match part {
        TypeRef::Basic(_) => Elements { part, count: 1 },
        TypeRef::Struct(number) => match end_at(forms, number) {
            Some(end) => end,
            None => Elements { part, count: 1 },
        },
    }
}

fn end_of_field(forms: &[StructForm], field: &FieldForm) -> Elements
    ensures { result ≡ chains.end_of_field forms.now field.now }
{
    let end = end_of(forms, field.part);
    Elements {
        part: end.part,
        count: cut_product(field.elements, end.count),
    }
}

// What a form that has all its fields comes to, if that is one.
pub(crate) fn only_end(forms: &[StructForm], form: &StructForm) -> Option<Elements>
    ensures { result ≡ chains.only_end forms.now form.now.fields.entries }
{
    match form.fields.get_index(0) {
        Some((_, field)) => match form.fields.get_index(1) {
            Some(_) => None,
            None => Some(end_of_field(forms, field)),
        },
        None => None,
    }
}

fn kinds_behind(form: &StructForm, next: usize) -> Kinds
    ensures { (forms : List StructFormOf) (fields : Fields) → FieldsStand forms 0 0 form.now.fields.entries fields →
        form.now.tails.items ≡ tails_in fields → result ≡ kinds_among (field_slots 1 (drop_fields next fields)) }
{
    let left = form.fields.len().saturating_sub(next);
    match form.tails.get(left) {
        Some(kinds) => *kinds,
        None => NO_KINDS,
    }
}

// The kinds among the fields of a STRUCT from an index on.
pub(crate) fn kinds_from(forms: &[StructForm], number: u32, next: usize) -> Kinds
    ensures { (fields : Fields) → StandsFor forms.now (Struct number) (OfFields fields) →
        result ≡ kinds_among (field_slots 1 (drop_fields next fields)) }
{
    match forms.get(number as usize) {
        Some(form) => kinds_behind(form, next),
        None => NO_KINDS,
    }
}

/// The kinds among the slots of a type.
pub fn kinds_of(forms: &[StructForm], part: TypeRef) -> Kinds
    ensures { (shape : Shape) → StandsFor forms.now part shape → result ≡ kinds_among (shape_slots 1 shape) }
{
    match part {
        TypeRef::Basic(kind) => one_kind(kind),
        TypeRef::Struct(number) => kinds_from(forms, number, 0),
    }
}

// The kinds among the fields from one on, where those among the fields behind it are known.
fn kinds_with(forms: &[StructForm], form: &StructForm, index: usize, behind: Kinds) -> Kinds
    ensures { (fields : Fields) → FieldsStand forms.now 0 0 form.now.fields.entries fields →
        behind ≡ kinds_among (field_slots 1 (drop_fields (index + 1) fields)) →
        result ≡ kinds_among (field_slots 1 (drop_fields index fields)) }
{
    match form.fields.get_index(index) {
        Some((_, field)) => joined_kinds(kinds_of(forms, field.part), behind),
        None => NO_KINDS,
    }
}

// The kinds among the last fields of a form that has all its fields.
pub(crate) fn tails_of(
    alloc: Global,
    forms: &[StructForm],
    form: &StructForm,
) -> Result<Vec<Kinds>, NoMemory>
    ensures { IfOk result (λ tails. (fields : Fields) → FieldsStand forms.now 0 0 form.now.fields.entries fields →
        tails.items ≡ tails_in fields) }
{
    let mut left = form.fields.len();
    let mut kinds = NO_KINDS;
    let mut tails = Vec::new(alloc);
    tails.push(kinds)?;
    while left > 0 {
        left -= 1;
        kinds = kinds_with(forms, form, left, kinds);
        tails.push(kinds)?;
    }
    Ok(tails)
}

/// The leap that is kept with the STRUCT of a number.
pub(crate) fn leap_at(forms: &[StructForm], number: u32) -> Option<Leap>
    ensures { result ≡ leaps.leap_at forms.now number }
{
    match forms.get(number as usize) {
        Some(form) => form.leap,
        None => None,
    }
}

/// The STRUCT that a type is, and its leap.
pub(crate) fn begun_at(forms: &[StructForm], part: TypeRef) -> Option<Begun>
    ensures { result ≡ leaps.begun forms.now part }
{
    match part {
        TypeRef::Basic(_) => None,
        TypeRef::Struct(number) => match leap_at(forms, number) {
            Some(leap) => Some(Begun { number, leap }),
            None => None,
        },
    }
}

fn joined_leaps(a: Leap, b: Leap) -> Leap
    requires { a.steps + b.steps < 2 ^ 32 }
    ensures { result ≡ leaps.joined_leaps a b }
{
    Leap {
        to: Elements {
            part: b.to.part,
            count: cut_product(a.to.count, b.to.count),
        },
        behind: joined_kinds(b.behind, a.behind),
        steps: a.steps + b.steps,
    }
}

const MOST_STEPS: u32 = 1 << 30;

// A step with the two leaps behind it, where these are of one length. So the leaps that follow one another grow shorter
// quickly: from a STRUCT that is n deep at most twice the logarithm of n of them lead down.
fn far_leap(forms: &[StructForm], one: Leap) -> Leap
    requires { one.steps ≡ 1 }
    ensures { IsLeap forms.now one result }
{
    let near = match begun_at(forms, one.to.part) {
        Some(near) => near,
        None => return one,
    };
    let next = match begun_at(forms, near.leap.to.part) {
        Some(next) => next,
        None => return one,
    };
    if near.leap.steps != next.leap.steps || near.leap.steps >= MOST_STEPS {
        return one;
    }
    joined_leaps(one, joined_leaps(near.leap, next.leap))
}

// The leap of a form that has all its fields and their tails, where its first field has leaves.
pub(crate) fn first_leap(forms: &[StructForm], form: &StructForm) -> Option<Leap>
    ensures { (fields : Fields) → FieldsStand forms.now 0 0 form.now.fields.entries fields → form.now.tails.items ≡ tails_in fields →
        LeapStands forms.now result form.now.fields.entries fields }
{
    match form.fields.get_index(0) {
        Some((_, field)) => {
            if !has_leaf(forms, field.part) {
                return None;
            }
            let one = Leap {
                to: Elements {
                    part: field.part,
                    count: field.elements,
                },
                behind: kinds_behind(form, 1),
                steps: 1,
            };
            Some(far_leap(forms, one))
        }
        None => None,
    }
}

// Adds a field where no field has its name, and answers whether none had it.
pub(crate) fn add_field(
    form: &mut StructForm,
    name: &ArrayVec<u8, 63>,
    field: FieldForm,
    each: Counts,
) -> Result<bool, NoMemory>
    ensures fresh { IfOk result (λ fresh. fresh ≡ is_none (lookup (λ key. bytes_eq name.now.items key.items) form.old.fields.entries)) }
    ensures added { IfOk result (λ fresh. fresh ≡ true → Adds form.old name.now field each form.new) }
{
    let placed = FieldForm {
        leaf: form.counts.leaves,
        slot: form.counts.slots,
        ..field
    };
    if !form.fields.add(name, placed)? {
        return Ok(false);
    }
    form.counts = joined(form.counts, behind_field(name, each));
    Ok(true)
}

// Adds a field of each of these names. It ends at a name that a field has, and answers whether there was none.
pub(crate) fn add_fields(
    form: &mut StructForm,
    names: &[Name],
    field: FieldForm,
    each: Counts,
) -> Result<bool, NoMemory>
    ensures fresh { IfOk result (λ fresh. (before : List NameOf) → AreNamed form.old.fields.entries before →
        fresh ≡ true → AreNamed form.new.fields.entries (before ++ names.now) × (has_repeats before names.now ≡ false)) }
    ensures twice { IfOk result (λ fresh. (before : List NameOf) → AreNamed form.old.fields.entries before →
        fresh ≡ false → has_repeats before names.now ≡ true) }
    ensures added { IfOk result (λ fresh. (forms : List StructFormOf) (fields : Fields) (bounds : List (ℤ × ℤ)) (shape : Shape) → fresh ≡ true →
        IsForm forms form.old fields → IsPart forms form.old.bounds.items field each bounds shape →
        IsForm forms form.new (append_fields fields (with_fields names.now bounds shape NoField))) }
{
    for name in names {
        if !add_field(form, &name.text, field, each)? {
            return Ok(false);
        }
    }
    Ok(true)
}

/// How many dimensions and elements some bounds have.
#[derive(Clone, Copy, PartialEq, Eq, Debug)]
pub struct Sizes {
    pub dimensions: u32,
    pub elements: u32,
}
