// The cells of a routine.

ghost use Rattle.std.specs.Prelude.{◌≡◌, [], ◌∷◌, ◌++◌, map, replicate, IfOk, OnOk};
ghost use Rattle.std.specs.List.{flat_map, sum_by};
ghost use Rattle.pearl_names.specs.Holding.{HoldsSense, HoldsTable, parameter_of};
ghost use Rattle.pearl_names.specs.Layout.{slots_of};
ghost use Rattle.pearl_names.specs.Lengths.{length_at};
ghost use Rattle.pearl_names.specs.Tables as tables;
ghost use Rattle.pearl_program.specs.PlainStatements.{plain_values};
ghost use Rattle.pearl_tree.specs.declared.typing.Sort.TheVariants.{Fixed};
ghost use Rattle.pearl_value.specs.declared.kind.CellKind.TheVariants.{Plain};
ghost use Rattle.pearl_resolve.specs.Cells as spec;
ghost use Rattle.pearl_resolve.specs.Holding.{values_cells};
ghost use Rattle.pearl_resolve.specs.Laying.{cells_of_sense, leaves_of_sense, slots};
ghost use Rattle.pearl_resolve.specs.Numbers.{counts as does_count, senses_at};

use crate::counter::counts;
use pearl_names::length::Lengths;
use pearl_names::sense::{Parameter, Sense};
use pearl_names::table::SenseTable;
use pearl_names::types::StructForm;
use pearl_program::table::FirstValues;
use pearl_resolve_tables::counts::sum;
use pearl_resolve_tables::devices::kind_or_short;
use pearl_resolve_tables::leaves::add_first_values;
use pearl_tree::statement::Repeat;
use pearl_tree::typing::Sort;
use pearl_value::kind::{CellKind, Kind};
use std::alloc::{AllocError, Global};

/// Adds so many cells for values of a kind.
pub(crate) fn add_cells(
    count: usize,
    kind: Kind,
    into: &mut Vec<CellKind>,
) -> Result<(), AllocError>
    ensures { OnOk result (into.new.items ≡ into.old.items ++ replicate count (Plain kind)) }
{
    match into.len().checked_add(count) {
        Some(len) => into.resize(len, CellKind::Plain(kind)),
        None => Err(AllocError),
    }
}

/// Adds the cells of a loop that counts.
pub(crate) fn add_counter_cells(
    lengths: &Lengths,
    part: &Repeat,
    into: &mut Vec<CellKind>,
) -> Result<(), AllocError>
    ensures { OnOk result (into.new.items ≡ into.old.items ++ spec.counter_cells
        (does_count part.now.control part.now.begin part.now.step part.now.end) (length_at lengths.now Fixed part.now.place)) }
{
    if counts(part) {
        let len = lengths.at(Sort::Fixed, part.place);
        add_cells(3, Kind::Fixed(len), into)
    } else {
        Ok(())
    }
}

fn param_cell(parameter: Parameter) -> CellKind
    ensures { (of : tables.Parameter) → parameter_of parameter ≡ of → spec.sense_cells (tables.OwnParameter of) ≡ result ∷ [] }
{
    let kind = kind_or_short(parameter.kind);
    if parameter.ident {
        CellKind::RefTo(kind)
    } else {
        CellKind::Plain(kind)
    }
}

fn add_values_cells(values: &[FirstValues], into: &mut Vec<CellKind>) -> Result<(), AllocError>
    ensures { OnOk result (into.new.items ≡ into.old.items ++ flat_map values_cells (map plain_values values.now)) }
{
    for own in values {
        add_cells(own.count as usize, own.kind, into)?;
    }
    Ok(())
}

fn add_variable_cells(
    alloc: Global,
    forms: &[StructForm],
    sense: &Sense,
    into: &mut Vec<CellKind>,
) -> Result<u32, AllocError>
    ensures count { IfOk result (λ count. (of : tables.Sense) → HoldsSense forms.now sense.now of → count ≡ slots (leaves_of_sense of)) }
    ensures cells { OnOk result ((of : tables.Sense) → HoldsSense forms.now sense.now of →
        into.new.items ≡ into.old.items ++ map Plain (slots_of (leaves_of_sense of))) }
{
    let mut values = Vec::new(alloc);
    let count = add_first_values(alloc, forms, sense, &[], &mut values)?;
    add_values_cells(values.as_slice(), into)?;
    Ok(count)
}

// Adds the cells of a name, and answers how many there are.
fn add_sense_cells(
    alloc: Global,
    forms: &[StructForm],
    sense: &Sense,
    into: &mut Vec<CellKind>,
) -> Result<u32, AllocError>
    ensures count { IfOk result (λ count. (of : tables.Sense) → HoldsSense forms.now sense.now of → count ≡ cells_of_sense of) }
    ensures cells { OnOk result ((of : tables.Sense) → HoldsSense forms.now sense.now of →
        into.new.items ≡ into.old.items ++ spec.sense_cells of) }
{
    match sense {
        Sense::Variable { .. } => {
            let count = add_variable_cells(alloc, forms, sense, into)?;
            Ok(count)
        }
        Sense::Parameter(parameter) => {
            into.push(param_cell(*parameter))?;
            Ok(1)
        }
        Sense::Control(_) => Ok(0),
        Sense::NewType => Ok(0),
        Sense::Semaphore => Ok(0),
        Sense::Interrupt => Ok(0),
        Sense::AlphicDation(_) => Ok(0),
        Sense::BasicDation { .. } => Ok(0),
        Sense::Task => Ok(0),
        Sense::Procedure(_) => Ok(0),
    }
}

/// Adds the cells of the names of a scope, and answers how many there are.
pub(crate) fn add_scope_cells(
    alloc: Global,
    table: &SenseTable,
    scope: u32,
    into: &mut Vec<CellKind>,
) -> Result<u32, AllocError>
    ensures count { IfOk result (λ count. (t : tables.Table) → HoldsTable table.now t → count ≡ sum_by cells_of_sense (senses_at t scope)) }
    ensures cells { OnOk result ((t : tables.Table) → HoldsTable table.now t → into.new.items ≡ into.old.items ++ spec.scope_cells t scope) }
{
    let forms = table.forms();
    let senses = table.senses_in(scope);
    let mut count: u32 = 0;
    for sense in senses {
        let own = add_sense_cells(alloc, forms, sense, into)?;
        count = sum(count, own)?;
    }
    Ok(count)
}
