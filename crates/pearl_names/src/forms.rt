// The forms of written types.

ghost use Rattle.std.specs.Prelude.{◌≡◌, ◌+◌, ◌*◌, ◌++◌, ◌∷◌, [], List, ℕ, ℤ, true, false, Option, Some, None, if◌then◌else◌, option_map, map, IfOk, OnOk, OnErr, length, int_le};
ghost use Rattle.std.specs.Option.{option_and_then};
ghost use Rattle.pearl_tree.specs.declared.name.Name.{Name as NameOf};
ghost use Rattle.pearl_tree.specs.ShownDeclarations.{shown_names, shown_typing};
ghost use Rattle.pearl_tree.specs.ShownModules.{shown_decl};
ghost use Rattle.pearl_tree.specs.Names.{names_of, has_repeats};
ghost use Rattle.pearl_names.specs.Shapes.{Shape, Fields, NoField, with_fields, meant_shape, shape_of, fields_of, sound_bounds, decl_shapes, shapes_after, sound_bound, is_sound_pair, bound_pair, is_in_range, int_value, field_names};
ghost use Rattle.pearl_names.specs.Counts.{cut};
ghost use Rattle.pearl_names.specs.Layout.{elements};
ghost use Rattle.pearl_names.specs.Lengths.{kind_of_basic as kind_of};
ghost use Rattle.pearl_names.specs.declared.types.TypeRef.TheVariants as type_ref;
ghost use Rattle.pearl_names.specs.declared.types.StructForm.{StructForm as StructFormOf};
ghost use Rattle.pearl_names.specs.Forms.{pair_of, IsForm, StandsFor, AreNamed, Matches, append_fields};
ghost use Rattle.pearl_names.specs.Forming.{AllMatch, Grows, around_of, fields_shown, Made, sizes_of, struct_shape};

use crate::fields::FieldTable;
use crate::length::{Lengths, kind_of_basic};
use crate::meaning::sort_within;
use crate::names::{ScopeTable, next_number};
use crate::scope::NameSort;
use crate::sense::Bounds;
use crate::types::{
    FieldForm, NONE, Sizes, StructForm, TypeRef, add_fields, counts_of, cut, cut_product, cut_sum,
    first_leap, only_end, tails_of, within,
};
use pearl_tree::name::{Name, Names};
use pearl_tree::parts::Parts;
use pearl_tree::tree::Decl;
use pearl_tree::typing::{Basic, Bound, Field, Int, Typing};
use std::alloc::{AllocError as NoMemory, Global};

fn form_of_declared(named: &[Option<TypeRef>], sort: NameSort) -> Option<TypeRef>
    ensures { (forms : List StructFormOf) (shapes : List (Option Shape)) → AllMatch forms named.now shapes →
        Matches forms result (meant_shape shapes (Some sort)) }
{
    match sort {
        NameSort::NewType(number) => match named.get(number as usize) {
            Some(part) => *part,
            None => None,
        },
        NameSort::Variable => None,
        NameSort::Control => None,
        NameSort::Parameter => None,
        NameSort::Semaphore => None,
        NameSort::Interrupt => None,
        NameSort::Dation => None,
        NameSort::Task => None,
        NameSort::Procedure => None,
    }
}

fn form_of_sort(named: &[Option<TypeRef>], sort: Option<NameSort>) -> Option<TypeRef>
    ensures { (forms : List StructFormOf) (shapes : List (Option Shape)) → AllMatch forms named.now shapes →
        Matches forms result (meant_shape shapes sort) }
{
    match sort {
        Some(sort) => form_of_declared(named, sort),
        None => None,
    }
}

fn form_of_basic(lengths: &Lengths, basic: &Basic) -> Option<TypeRef>
    ensures { result ≡ option_map type_ref.Basic (kind_of lengths.now basic.now) }
{
    match kind_of_basic(lengths, basic) {
        Some(kind) => Some(TypeRef::Basic(kind)),
        None => None,
    }
}

// Keeps a form, and answers its number.
fn keep(forms: &mut Vec<StructForm>, form: StructForm) -> Result<TypeRef, NoMemory>
    ensures kept { OnOk result (forms.new.items ≡ forms.old.items ++ form ∷ []) }
    ensures number { IfOk result (λ part. part ≡ type_ref.Struct (length forms.old.items)) }
    ensures err { OnErr result (forms.new.items ≡ forms.old.items) }
{
    let number = next_number(forms.as_slice())?;
    forms.push(form)?;
    Ok(TypeRef::Struct(number))
}

// Adds fields of this type within these bounds. It answers whether no field had one of these names.
fn add_written(
    forms: &[StructForm],
    form: &mut StructForm,
    names: &Names,
    own: &[Bounds],
    part: TypeRef,
) -> Result<bool, NoMemory>
    ensures fresh { IfOk result (λ fresh. (before : List NameOf) → AreNamed form.old.fields.entries before →
        fresh ≡ true → AreNamed form.new.fields.entries (before ++ names_of (shown_names names.now)) × (has_repeats before (names_of (shown_names names.now)) ≡ false)) }
    ensures twice { IfOk result (λ fresh. (before : List NameOf) → AreNamed form.old.fields.entries before →
        fresh ≡ false → has_repeats before (names_of (shown_names names.now)) ≡ true) }
    ensures added { IfOk result (λ fresh. (fields : Fields) (bounds : List (ℤ × ℤ)) (shape : Shape) → fresh ≡ true →
        IsForm forms.now form.old fields → map pair_of own.now ≡ bounds → StandsFor forms.now part shape →
        IsForm forms.now form.new (append_fields fields (with_fields (names_of (shown_names names.now)) bounds shape NoField))) }
{
    let sizes = sizes_within(own);
    let each = within(sizes.dimensions, sizes.elements, counts_of(forms, part));
    let first = form.bounds.len();
    form.bounds.extend_from_slice(own)?;
    let field = FieldForm {
        part,
        first,
        past: form.bounds.len(),
        dimensions: sizes.dimensions,
        elements: sizes.elements,
        leaf: 0,
        slot: 0,
    };
    let fresh = add_fields(form, names.as_slice(), field, each)?;
    Ok(fresh)
}

// One dimension more, of so many elements.
fn with_dimension(sizes: Sizes, elements: u32) -> Sizes
    ensures { result ≡ record { dimensions = cut (sizes.dimensions + 1); elements = cut (sizes.elements * elements) } }
{
    Sizes {
        dimensions: cut_sum(sizes.dimensions, 1),
        elements: cut_product(sizes.elements, elements),
    }
}

pub(crate) fn sizes_of_bounds(bounds: &[Bound]) -> Option<Sizes>
    ensures { result ≡ option_map sizes_of (sound_bounds bounds.now) }
{
    let mut sizes = Sizes {
        dimensions: 0,
        elements: 1,
    };
    for bound in bounds {
        match elements_of(bound) {
            Some(elements) => {
                sizes = with_dimension(sizes, elements);
            }
            None => return None,
        }
    }
    Some(sizes)
}

fn value_in_range(int: &Int) -> Option<i32>
    ensures { result ≡ (if is_in_range (int_value int.now) then Some (int_value int.now) else None) }
{
    if int.minus {
        if int.number.value <= 2_147_483_648 {
            Some((-(int.number.value as i64)) as i32)
        } else {
            None
        }
    } else if int.number.value < 2_147_483_648 {
        Some(int.number.value as i32)
    } else {
        None
    }
}

fn bounds_between(lower: i32, upper: i32) -> Option<Bounds>
    ensures { option_map pair_of result ≡ (if int_le lower upper then Some (lower, upper) else None) }
{
    if lower <= upper {
        Some(Bounds { lower, upper })
    } else {
        None
    }
}

// The bounds that are written, where they are sound.
fn bounds_of(bound: &Bound) -> Option<Bounds>
    ensures { option_map pair_of result ≡ sound_bound bound.now }
{
    match &bound.second {
        None => match value_in_range(&bound.first) {
            Some(upper) => bounds_between(1, upper),
            None => None,
        },
        Some(second) => match value_in_range(&bound.first) {
            Some(lower) => match value_in_range(second) {
                Some(upper) => bounds_between(lower, upper),
                None => None,
            },
            None => None,
        },
    }
}

/// The bounds of all dimensions, where they are sound.
pub(crate) fn all_bounds(alloc: Global, bounds: &[Bound]) -> Result<Option<Vec<Bounds>>, NoMemory>
    ensures { IfOk result (λ found. option_map (λ own. map pair_of own.items) found ≡ sound_bounds bounds.now) }
{
    let mut found = Vec::new(alloc);
    for bound in bounds {
        match bounds_of(bound) {
            Some(own) => found.push(own)?,
            None => return Ok(None),
        }
    }
    Ok(Some(found))
}

fn elements_within(bounds: Bounds) -> u32
    ensures { result ≡ cut (elements (pair_of bounds ∷ [])) }
{
    let last = (i64::from(bounds.upper) - i64::from(bounds.lower)).unsigned_abs();
    cut(last + 1)
}

// How many dimensions and elements there are within these bounds.
pub(crate) fn sizes_within(bounds: &[Bounds]) -> Sizes
    ensures { result ≡ sizes_of (map pair_of bounds.now) }
{
    let mut sizes = Sizes {
        dimensions: 0,
        elements: 1,
    };
    for own in bounds {
        sizes = with_dimension(sizes, elements_within(*own));
    }
    sizes
}

// How many elements there are within a sound bound.
fn elements_of(bound: &Bound) -> Option<u32>
    ensures { result ≡ option_map (λ pair. cut (elements (pair ∷ []))) (sound_bound bound.now) }
{
    match bounds_of(bound) {
        Some(bounds) => Some(elements_within(bounds)),
        None => None,
    }
}

/// Whether the lower bound is at most the upper one, and both are in range.
pub fn is_sound_bound(bound: &Bound) -> bool
    ensures { result ≡ is_sound_pair (bound_pair bound.now) }
{
    elements_of(bound).is_some()
}

#[cycle(form)]
pub(crate) fn form_of(
    alloc: Global,
    scopes: &[ScopeTable],
    lengths: &Lengths,
    named: &[Option<TypeRef>],
    scope: u32,
    forms: &mut Vec<StructForm>,
    typing: &Typing,
) -> Result<Option<TypeRef>, NoMemory>
    ensures grows { OnOk result (Grows forms.old.items forms.new.items) }
    ensures err { OnErr result (Grows forms.old.items forms.new.items) }
    ensures form { IfOk result (λ part. (shapes : List (Option Shape)) → AllMatch forms.old.items named.now shapes →
        Matches forms.new.items part (shape_of (around_of scopes.now lengths.now scope shapes) (shown_typing typing.now))) }
{
    match typing {
        Typing::Basic(basic) => {
            let part = form_of_basic(lengths, basic);
            Ok(part)
        }
        Typing::Named(name) => {
            let sort = sort_within(scopes, scope, &name.text);
            let part = form_of_sort(named, sort);
            Ok(part)
        }
        Typing::Struct { fields, .. } => {
            let part = form_of_struct(alloc, scopes, lengths, named, scope, forms, fields)?;
            Ok(part)
        }
    }
}

#[cycle(form)]
fn form_of_struct(
    alloc: Global,
    scopes: &[ScopeTable],
    lengths: &Lengths,
    named: &[Option<TypeRef>],
    scope: u32,
    forms: &mut Vec<StructForm>,
    fields: &Parts<Field>,
) -> Result<Option<TypeRef>, NoMemory>
    ensures grows { OnOk result (Grows forms.old.items forms.new.items) }
    ensures err { OnErr result (Grows forms.old.items forms.new.items) }
    ensures form { IfOk result (λ part. (shapes : List (Option Shape)) → AllMatch forms.old.items named.now shapes →
        Matches forms.new.items part (struct_shape (around_of scopes.now lengths.now scope shapes) fields.now.items.items)) }
{
    let mut form = StructForm {
        fields: FieldTable::new(alloc),
        bounds: Vec::new(alloc),
        counts: NONE,
        tails: Vec::new(alloc),
        end: None,
        leap: None,
    };
    for field in fields.as_slice() {
        let own = match all_bounds(alloc, field.bounds.as_slice())? {
            Some(own) => own,
            None => return Ok(None),
        };
        let part = match form_of(alloc, scopes, lengths, named, scope, forms, &field.typing)? {
            Some(part) => part,
            None => return Ok(None),
        };
        if !add_written(
            forms.as_slice(),
            &mut form,
            &field.names,
            own.as_slice(),
            part,
        )? {
            return Ok(None);
        }
    }
    form.tails = tails_of(alloc, forms.as_slice(), &form)?;
    form.end = only_end(forms.as_slice(), &form);
    form.leap = first_leap(forms.as_slice(), &form);
    let part = keep(forms, form)?;
    Ok(Some(part))
}

/// The forms of all STRUCTs, and what each TYPE is, by its number. A TYPE in which a rule is broken is nothing.
#[derive(Drop)]
pub struct Types {
    pub forms: Vec<StructForm>,
    pub named: Vec<Option<TypeRef>>,
}

fn add_type(
    alloc: Global,
    scopes: &[ScopeTable],
    lengths: &Lengths,
    types: &mut Types,
    decl: &Decl,
) -> Result<(), NoMemory>
    ensures { OnOk result ((shapes : List (Option Shape)) → AllMatch types.old.forms.items types.old.named.items shapes →
        AllMatch types.new.forms.items types.new.named.items
        (shapes ++ decl_shapes (around_of scopes.now lengths.now 0 shapes) (shown_decl decl.now))) }
{
    match decl {
        Decl::Type { typing, .. } => {
            let part = form_of(
                alloc,
                scopes,
                lengths,
                types.named.as_slice(),
                0,
                &mut types.forms,
                typing,
            )?;
            types.named.push(part)?;
            Ok(())
        }
        Decl::Length { .. } => Ok(()),
        Decl::Declare { .. } => Ok(()),
        Decl::Specify { .. } => Ok(()),
        Decl::Task { .. } => Ok(()),
        Decl::Proc { .. } => Ok(()),
    }
}

/// The TYPEs of a module.
pub fn types_of(
    alloc: Global,
    scopes: &[ScopeTable],
    lengths: &Lengths,
    decls: &[Decl],
) -> Result<Types, NoMemory>
    ensures { IfOk result (λ types. AllMatch types.forms.items types.named.items
        (shapes_after scopes.now lengths.now [] (map shown_decl decls.now))) }
{
    let mut types = Types {
        forms: Vec::new(alloc),
        named: Vec::new(alloc),
    };
    for decl in decls {
        add_type(alloc, scopes, lengths, &mut types, decl)?;
    }
    Ok(types)
}
