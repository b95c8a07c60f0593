// What the names of each scope stand for.
#![tactic(auto, using(crate::proofs::Lists::list_steps, std::proofs::lemmas::Grind::common_steps))]

ghost use Rattle.std.specs.Prelude.{◌≡◌, ◌+◌, ◌++◌, List, ℤ, ℕ, Option, Some, map, option_map, IfOk, OnOk};
ghost use Rattle.std.specs.List.{flat_map};
ghost use Rattle.pearl_tree.specs.ShownDeclarations.{shown_param};
ghost use Rattle.pearl_names.specs.declared.types.StructForm.{StructForm as StructFormOf};
ghost use Rattle.pearl_names.specs.Forming.{AllMatch, Grows};
ghost use Rattle.pearl_names.specs.Forms.{pair_of, Matches};
ghost use Rattle.pearl_names.specs.Groups.{shown_meaning, group_entries, entries_in, scopes_in_list};
ghost use Rattle.pearl_names.specs.Holding.{parameter_of, HoldsForm, HoldsSense, HoldsAll, HoldsSenses, HasPart};
ghost use Rattle.pearl_names.specs.Known.{known_from};
ghost use Rattle.pearl_names.specs.Lengths.{kind_of_basic as kind_of};
ghost use Rattle.pearl_names.specs.ScopeNames.{ScopeNames};
ghost use Rattle.pearl_names.specs.Shapes.{Shape, sound_bounds};
ghost use Rattle.pearl_names.specs.Tables as spec;

use crate::forms::{Types, all_bounds};
use crate::group::{Group, Meaning, ScopeGroups};
use crate::layout::sound_part;
use crate::length::{Lengths, kind_of_basic};
use crate::names::{ScopeTable, after};
use crate::sense::{Bounds, Form, Parameter, ScopeSenses, Sense, Signature};
use crate::types::TypeRef;
use pearl_tree::declaration::{Class, Item, Param};
use pearl_tree::name::Name;
use pearl_tree::typing::{Basic, Sort};
use pearl_value::device::Direction;
use pearl_value::kind::Kind;
use std::alloc::{AllocError as NoMemory, Global};

fn with_bounds(bounds: Option<Vec<Bounds>>, part: TypeRef) -> Option<Form>
    ensures { (forms : List StructFormOf) (own : Option (List (ℤ × ℤ))) (shape : Option Shape) →
        option_map (λ found. map pair_of found.items) bounds ≡ own →
        Matches forms (Some part) (option_map (λ form. form.shape) (spec.sound_form own shape)) →
        HoldsForm forms result (spec.sound_form own shape) }
{
    match bounds {
        Some(bounds) => Some(Form { bounds, part }),
        None => None,
    }
}

// The form of a variable of an item, of which this is the type where no rule is broken in it.
fn item_form(alloc: Global, part: Option<TypeRef>, item: &Item) -> Result<Option<Form>, NoMemory>
    ensures { IfOk result (λ form. (forms : List StructFormOf) (shape : Option Shape) →
        Matches forms part (option_map (λ form. form.shape) (spec.sound_form (sound_bounds item.now.bounds.items.items) shape)) →
        HoldsForm forms form (spec.sound_form (sound_bounds item.now.bounds.items.items) shape)) }
{
    match part {
        Some(part) => {
            let bounds = all_bounds(alloc, item.bounds.as_slice())?;
            Ok(with_bounds(bounds, part))
        }
        None => Ok(None),
    }
}

fn add_parameters(
    into: &mut Vec<Parameter>,
    names: &[Name],
    parameter: Parameter,
) -> Result<(), NoMemory>
    ensures { OnOk result
        (map parameter_of into.new.items ≡ map parameter_of into.old.items ++ map (λ name. parameter_of parameter) names.now) }
{
    for _name in names {
        into.push(parameter)?;
    }
    Ok(())
}

fn add_param(into: &mut Vec<Parameter>, lengths: &Lengths, param: &Param) -> Result<(), NoMemory>
    ensures { OnOk result
        (map parameter_of into.new.items ≡
        map parameter_of into.old.items ++ spec.parameters_of lengths.now (shown_param param.now)) }
{
    let parameter = Parameter {
        kind: kind_of_basic(lengths, &param.basic),
        ident: param.ident,
    };
    add_parameters(into, param.names.as_slice(), parameter)
}

fn parameters_of(
    alloc: Global,
    lengths: &Lengths,
    params: &[Param],
) -> Result<Vec<Parameter>, NoMemory>
    ensures { IfOk result (λ parameters. map parameter_of parameters.items ≡
        flat_map (spec.parameters_of lengths.now) (map shown_param params.now)) }
{
    let mut parameters = Vec::new(alloc);
    for param in params {
        add_param(&mut parameters, lengths, param)?;
    }
    Ok(parameters)
}

fn result_of(lengths: &Lengths, returns: Option<Basic>) -> Option<Option<Kind>>
    ensures { result ≡ option_map (kind_of lengths.now) returns }
{
    match returns {
        Some(basic) => Some(kind_of_basic(lengths, &basic)),
        None => None,
    }
}

fn dation_sense(lengths: &Lengths, direction: Direction, class: Class) -> Sense
    ensures { (forms : List StructFormOf) → HoldsSense forms result (spec.dation_sense lengths.now direction class) }
{
    match class {
        Class::Alphic { .. } => Sense::AlphicDation(direction),
        Class::Basic { basic, .. } => Sense::BasicDation {
            direction,
            kind: kind_of_basic(lengths, &basic),
        },
    }
}

// What a name stands for. The type is that of an item's variables, where no rule is broken in it.
fn sense_of(
    alloc: Global,
    lengths: &Lengths,
    part: Option<TypeRef>,
    meaning: &Meaning<'_>,
) -> Result<Sense, NoMemory>
    ensures { IfOk result (λ sense.
        (forms : List StructFormOf) (names : List ScopeNames) (shapes : List (Option Shape)) (scope : ℕ) →
        HasPart forms part (known_from names lengths.now shapes) scope (shown_meaning meaning.now) →
        HoldsSense forms sense (spec.sense_of (known_from names lengths.now shapes) scope (shown_meaning meaning.now))) }
{
    match meaning {
        Meaning::Variable { item, .. } => {
            let form = item_form(alloc, part, item)?;
            Ok(Sense::Variable {
                form,
                inv: item.inv,
            })
        }
        Meaning::Control(place) => {
            let len = lengths.at(Sort::Fixed, *place);
            Ok(Sense::Control(Kind::Fixed(len)))
        }
        Meaning::Parameter { basic, ident } => {
            let kind = kind_of_basic(lengths, basic);
            Ok(Sense::Parameter(Parameter {
                kind,
                ident: *ident,
            }))
        }
        Meaning::NewType(_) => Ok(Sense::NewType),
        Meaning::Semaphore => Ok(Sense::Semaphore),
        Meaning::Interrupt => Ok(Sense::Interrupt),
        Meaning::Dation { direction, class } => Ok(dation_sense(lengths, *direction, *class)),
        Meaning::Task => Ok(Sense::Task),
        Meaning::Procedure { params, returns } => {
            let parameters = parameters_of(alloc, lengths, params.as_slice())?;
            let result = result_of(lengths, *returns);
            Ok(Sense::Procedure(Signature { parameters, result }))
        }
    }
}

// What the names of a group stand for.
fn add_senses(
    alloc: Global,
    into: &mut Vec<Sense>,
    lengths: &Lengths,
    part: Option<TypeRef>,
    group: &Group<'_>,
) -> Result<(), NoMemory>
    ensures { OnOk result
        ((forms : List StructFormOf) (names : List ScopeNames) (shapes : List (Option Shape)) (scope : ℕ) (old : List spec.Sense) →
        HasPart forms part (known_from names lengths.now shapes) scope (shown_meaning group.now.meaning) →
        HoldsAll forms into.old.items old → HoldsAll forms into.new.items
        (old ++ spec.senses_of (known_from names lengths.now shapes) scope (group_entries group.now))) }
{
    for _name in group.names {
        let sense = sense_of(alloc, lengths, part, &group.meaning)?;
        into.push(sense)?;
    }
    Ok(())
}

// The type of the variables that a group declares, where no rule is broken in it.
fn part_of(
    alloc: Global,
    names: &[ScopeTable],
    lengths: &Lengths,
    types: &mut Types,
    scope: u32,
    meaning: &Meaning<'_>,
) -> Result<Option<TypeRef>, NoMemory>
    ensures grows { OnOk result (Grows types.old.forms.items types.new.forms.items) }
    ensures named { OnOk result (types.new.named.items ≡ types.old.named.items) }
    ensures part { IfOk result (λ part. (shapes : List (Option Shape)) → AllMatch types.old.forms.items types.old.named.items shapes →
        HasPart types.new.forms.items part (known_from names.now lengths.now shapes) scope (shown_meaning meaning.now)) }
{
    match meaning {
        Meaning::Variable { item, types: count } => {
            let part = sound_part(alloc, names, lengths, types, scope, *count, item)?;
            Ok(part)
        }
        Meaning::Control(_) => Ok(None),
        Meaning::Parameter { .. } => Ok(None),
        Meaning::NewType(_) => Ok(None),
        Meaning::Semaphore => Ok(None),
        Meaning::Interrupt => Ok(None),
        Meaning::Dation { .. } => Ok(None),
        Meaning::Task => Ok(None),
        Meaning::Procedure { .. } => Ok(None),
    }
}

/// What the names of a scope stand for.
fn senses_of(
    alloc: Global,
    names: &[ScopeTable],
    lengths: &Lengths,
    types: &mut Types,
    scope: u32,
    groups: &[Group<'_>],
) -> Result<Vec<Sense>, NoMemory>
    ensures grows { OnOk result (Grows types.old.forms.items types.new.forms.items) }
    ensures named { OnOk result (types.new.named.items ≡ types.old.named.items) }
    ensures senses { IfOk result (λ senses. (shapes : List (Option Shape)) → AllMatch types.old.forms.items types.old.named.items shapes →
        HoldsAll types.new.forms.items senses.items
        (spec.senses_of (known_from names.now lengths.now shapes) scope (entries_in groups.now))) }
{
    let mut senses = Vec::new(alloc);
    for group in groups {
        let part = part_of(alloc, names, lengths, types, scope, &group.meaning)?;
        add_senses(alloc, &mut senses, lengths, part, group)?;
    }
    Ok(senses)
}

/// What the names of all scopes stand for, scope by scope.
pub(crate) fn all_senses(
    alloc: Global,
    names: &[ScopeTable],
    lengths: &Lengths,
    types: &mut Types,
    scopes: &[ScopeGroups<'_>],
) -> Result<Vec<ScopeSenses>, NoMemory>
    ensures { IfOk result (λ senses. (shapes : List (Option Shape)) → AllMatch types.old.forms.items types.old.named.items shapes →
        HoldsSenses types.new.forms.items senses.items
        (spec.senses_in (known_from names.now lengths.now shapes) 0 (scopes_in_list scopes.now))) }
{
    let mut all = Vec::new(alloc);
    let mut number = 0;
    for scope in scopes {
        let senses = senses_of(
            alloc,
            names,
            lengths,
            types,
            number,
            scope.groups.as_slice(),
        )?;
        all.push(ScopeSenses { senses })?;
        number = after(number)?;
    }
    Ok(all)
}
