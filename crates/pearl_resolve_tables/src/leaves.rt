// The leaves of variables with what they hold at first.

ghost use Rattle.std.specs.Prelude.{◌≡◌, ◌++◌, [], List, Option, Some, map, take, option_copied, IfOk, OnOk};
ghost use Rattle.pearl_names.specs.Holding.{HoldsForm, HoldsSense};
ghost use Rattle.pearl_names.specs.Tables as tables;
ghost use Rattle.pearl_names.specs.declared.types.StructForm.{StructForm as StructFormOf};
ghost use Rattle.pearl_names.specs.Layout.{leaves_of};
ghost use Rattle.pearl_program.specs.PlainPrograms.{plain_leaf};
ghost use Rattle.pearl_program.specs.PlainStatements.{plain_values};
ghost use Rattle.pearl_tree.specs.ShownLiterals.{shown_const};
ghost use Rattle.pearl_resolve_tables.specs.Laying as spec;

use crate::filling::{Filling, TOO_MANY};
use crate::values::{first_values, left_behind};
use crate::walk::Found;
use pearl_names::sense::{Form, Sense};
use pearl_names::types::StructForm;
use pearl_program::table::{FirstValues, Leaf};
use pearl_tree::literal::Const;
use pearl_value::listing::Listing;
use std::alloc::{AllocError, Global};

fn leaf_of(
    alloc: Global,
    name: &[u8],
    found: Found,
    constants: &[Const],
) -> Result<Leaf, AllocError>
    ensures { IfOk result (λ leaf. plain_leaf leaf ≡ record {
      name = name.now;
      values = record {
        kind = found.kind;
        count = found.count;
        constants = map (spec.constant_in found.kind) (take found.count (map shown_const constants.now));
      };
    }) }
{
    let name = Vec::from_slice(alloc, name)?;
    let values = first_values(alloc, found.kind, found.count, constants)?;
    Ok(Leaf {
        name: Listing::new(name),
        values,
    })
}

// The form of a variable without a broken rule.
fn form_of(sense: &Sense) -> Option<&Form>
    ensures { (forms : List StructFormOf) (of : tables.Sense) → HoldsSense forms sense.now of →
        HoldsForm forms (option_copied result) (spec.form_of_sense of) }
{
    match sense {
        Sense::Variable { form, .. } => match form {
            Some(form) => Some(form),
            None => None,
        },
        Sense::Parameter(_) => None,
        Sense::Control(_) => None,
        Sense::NewType => None,
        Sense::Semaphore => None,
        Sense::Interrupt => None,
        Sense::AlphicDation(_) => None,
        Sense::BasicDation { .. } => None,
        Sense::Task => None,
        Sense::Procedure(_) => None,
    }
}

fn add_form(
    alloc: Global,
    forms: &[StructForm],
    form: &Form,
    name: &[u8],
    constants: &[Const],
    into: &mut Vec<Leaf>,
) -> Result<u32, AllocError>
    ensures leaves { OnOk result ((of : tables.Form) → HoldsForm forms.now (Some form.now) (Some of) →
        map plain_leaf into.new.items ≡ map plain_leaf into.old.items ++
        spec.filled_leaves name.now (map shown_const constants.now) (leaves_of [] of.bounds of.shape)) }
    ensures slots { IfOk result (λ count. (of : tables.Form) → HoldsForm forms.now (Some form.now) (Some of) →
        count ≡ spec.slots (leaves_of [] of.bounds of.shape)) }
{
    let mut filling = Filling::start(alloc, forms, form, true, name, constants)?;
    for _leaf in 0..TOO_MANY {
        let found = match filling.next {
            Some(found) => found,
            None => return Ok(filling.slots),
        };
        let leaf = leaf_of(alloc, filling.name.as_slice(), found, filling.constants)?;
        into.push(leaf)?;
        filling.pass(forms, true, found)?;
    }
    Err(AllocError)
}

// Adds what neighbouring leaves of one kind hold at first as one.
fn add_form_values(
    alloc: Global,
    forms: &[StructForm],
    form: &Form,
    constants: &[Const],
    into: &mut Vec<FirstValues>,
) -> Result<u32, AllocError>
    ensures values { OnOk result ((of : tables.Form) → HoldsForm forms.now (Some form.now) (Some of) →
        map plain_values into.new.items ≡ map plain_values into.old.items ++
        spec.filled_values (map shown_const constants.now) (spec.merged (leaves_of [] of.bounds of.shape))) }
    ensures slots { IfOk result (λ count. (of : tables.Form) → HoldsForm forms.now (Some form.now) (Some of) →
        count ≡ spec.slots (leaves_of [] of.bounds of.shape)) }
{
    let mut filling = Filling::start(alloc, forms, form, false, &[], &[])?;
    let mut left = constants;
    for _leaf in 0..TOO_MANY {
        let found = match filling.next {
            Some(found) => found,
            None => return Ok(filling.slots),
        };
        let count = filling.pass_alike(forms, found)?;
        let values = first_values(alloc, found.kind, count, left)?;
        into.push(values)?;
        left = left_behind(count, left);
    }
    Err(AllocError)
}

/// Adds the leaves of what a name stands for, with what they hold at first where these constants are left for them, and
/// answers how many slots they take. More leaves or slots than S34 allows count as want of memory; then some of the
/// leaves may have been added.
pub fn add_leaves(
    alloc: Global,
    forms: &[StructForm],
    sense: &Sense,
    name: &[u8],
    constants: &[Const],
    into: &mut Vec<Leaf>,
) -> Result<u32, AllocError>
    ensures leaves { OnOk result ((of : tables.Sense) → HoldsSense forms.now sense.now of →
        map plain_leaf into.new.items ≡ map plain_leaf into.old.items ++
        spec.filled_leaves name.now (map shown_const constants.now) (spec.leaves_of_sense of)) }
    ensures slots { IfOk result (λ count. (of : tables.Sense) → HoldsSense forms.now sense.now of →
        count ≡ spec.slots (spec.leaves_of_sense of)) }
{
    match form_of(sense) {
        Some(form) => {
            let count = add_form(alloc, forms, form, name, constants, into)?;
            Ok(count)
        }
        None => Ok(0),
    }
}

/// Adds what the leaves hold at first, as `add_leaves` does, but without their names, and of neighbouring leaves of one
/// kind together: names and texts of many leaves would take far more room than the module's text.
pub fn add_first_values(
    alloc: Global,
    forms: &[StructForm],
    sense: &Sense,
    constants: &[Const],
    into: &mut Vec<FirstValues>,
) -> Result<u32, AllocError>
    ensures values { OnOk result ((of : tables.Sense) → HoldsSense forms.now sense.now of →
        map plain_values into.new.items ≡ map plain_values into.old.items ++
        spec.filled_values (map shown_const constants.now) (spec.merged (spec.leaves_of_sense of))) }
    ensures slots { IfOk result (λ count. (of : tables.Sense) → HoldsSense forms.now sense.now of →
        count ≡ spec.slots (spec.leaves_of_sense of)) }
{
    match form_of(sense) {
        Some(form) => {
            let count = add_form_values(alloc, forms, form, constants, into)?;
            Ok(count)
        }
        None => Ok(0),
    }
}
