// How many leaves and cells variables have.

ghost use Rattle.std.specs.Prelude.{◌≡◌, ◌+◌, ◌*◌, Option, length, IfOk};
ghost use Rattle.pearl_names.specs.Holding.{HoldsForm, HoldsSense};
ghost use Rattle.pearl_names.specs.Tables as tables;
ghost use Rattle.pearl_resolve.specs.Laying as spec;

use pearl_names::layout::form_counts;
use pearl_names::sense::{Form, Sense};
use pearl_names::types::StructForm;
use pearl_resolve_tables::counts::{sum, whole};
use std::alloc::AllocError;

/// The number that lies so far behind another. Too large a one counts as want of memory.
pub(crate) fn further_on(number: u32, distance: u64) -> Result<u32, AllocError>
    ensures { IfOk result (λ after. after ≡ number + distance) }
{
    match u32::try_from(distance) {
        Ok(distance) => {
            let after = sum(number, distance)?;
            Ok(after)
        }
        Err(_) => Err(AllocError),
    }
}

/// A product of numbers. Too large a one counts as want of memory.
pub(crate) fn product(a: u64, b: u64) -> Result<u64, AllocError>
    ensures { IfOk result (λ product. product ≡ a * b) }
{
    match a.checked_mul(b) {
        Some(product) => Ok(product),
        None => Err(AllocError),
    }
}

fn slots_of_form(forms: &[StructForm], form: &Option<Form>) -> Result<u32, AllocError>
    ensures { IfOk result (λ count. (of : Option tables.Form) → HoldsForm forms.now form.now of →
        count ≡ spec.slots (tables.leaves_in of)) }
{
    match form {
        Some(form) => {
            let count = whole(form_counts(forms, form).slots)?;
            Ok(count)
        }
        None => Ok(0),
    }
}

fn leaves_of_form(forms: &[StructForm], form: &Option<Form>) -> Result<u32, AllocError>
    ensures { IfOk result (λ count. (of : Option tables.Form) → HoldsForm forms.now form.now of →
        count ≡ length (tables.leaves_in of)) }
{
    match form {
        Some(form) => {
            let count = whole(form_counts(forms, form).leaves)?;
            Ok(count)
        }
        None => Ok(0),
    }
}

/// How many cells a name has in the routine that declares it.
pub(crate) fn cells_of_sense(forms: &[StructForm], sense: &Sense) -> Result<u32, AllocError>
    ensures { IfOk result (λ count. (of : tables.Sense) → HoldsSense forms.now sense.now of → count ≡ spec.cells_of_sense of) }
{
    match sense {
        Sense::Variable { form, .. } => {
            let count = slots_of_form(forms, form)?;
            Ok(count)
        }
        Sense::Parameter(_) => Ok(1),
        Sense::Control(_) => Ok(0),
        Sense::NewType => Ok(0),
        Sense::Semaphore => Ok(0),
        Sense::Interrupt => Ok(0),
        Sense::AlphicDation(_) => Ok(0),
        Sense::BasicDation { .. } => Ok(0),
        Sense::Task => Ok(0),
        Sense::Procedure(_) => Ok(0),
    }
}

/// How many leaves a name has.
pub(crate) fn leaves_of_sense(forms: &[StructForm], sense: &Sense) -> Result<u32, AllocError>
    ensures { IfOk result (λ count. (of : tables.Sense) → HoldsSense forms.now sense.now of →
        count ≡ length (spec.leaves_of_sense of)) }
{
    match sense {
        Sense::Variable { form, .. } => {
            let count = leaves_of_form(forms, form)?;
            Ok(count)
        }
        Sense::Parameter(_) => Ok(0),
        Sense::Control(_) => Ok(0),
        Sense::NewType => Ok(0),
        Sense::Semaphore => Ok(0),
        Sense::Interrupt => Ok(0),
        Sense::AlphicDation(_) => Ok(0),
        Sense::BasicDation { .. } => Ok(0),
        Sense::Task => Ok(0),
        Sense::Procedure(_) => Ok(0),
    }
}
