// Semaphores of REQUEST and RELEASE: S31.

ghost use Rattle.std.specs.Prelude.{◌≡◌, ◌++◌, ◌∷◌, [], List, Option, filter, slice_get, OnOk};
ghost use Rattle.std.specs.Option.{option_copied};
ghost use Rattle.pearl_tree.specs.declared.name.Name.{Name as NameOf};
ghost use Rattle.pearl_tree.specs.Faults.{fault_if};
ghost use Rattle.pearl_tree.specs.Names.{is_among, name_text, repeats};
ghost use Rattle.pearl_names.specs.declared.scope.View.TheVariants.{Within};
ghost use Rattle.pearl_names.specs.declared.types.StructForm.{StructForm as StructFormOf};
ghost use Rattle.pearl_names.specs.Holding.{HoldsFound, HoldsSense, HoldsTable};
ghost use Rattle.pearl_names.specs.Tables as tables;
ghost use Rattle.pearl_scope.specs.Seen.{Sees};
ghost use Rattle.pearl_check.specs.declared.limit.TheConstants as limit;
ghost use Rattle.pearl_check.specs.Statements as spec;
ghost use Rattle.pearl_check.specs.Views as views;

use crate::limit::NAMES_MAX;
use crate::tell::tell_if;
use pearl_names::names::{FirstNames, note};
use pearl_names::scope::View;
use pearl_names::sense::Sense;
use pearl_names::table::SenseTable;
use pearl_tree::fault::RuleFault;
use pearl_tree::name::Name;
use pearl_tree::rule;
use std::alloc::{AllocError as NoMemory, Global};
use std::collections::BTreeMap;

fn is_semaphore_sense(sense: &Sense) -> bool
    ensures { (forms : List StructFormOf) (of : tables.Sense) → HoldsSense forms sense.now of →
        result ≡ views.is_semaphore (Some of) }
{
    match sense {
        Sense::Semaphore => true,
        Sense::Variable { .. } => false,
        Sense::Control(_) => false,
        Sense::Parameter(_) => false,
        Sense::NewType => false,
        Sense::Interrupt => false,
        Sense::AlphicDation(_) => false,
        Sense::BasicDation { .. } => false,
        Sense::Task => false,
        Sense::Procedure(_) => false,
    }
}

fn is_semaphore(sense: Option<&Sense>) -> bool
    ensures { (forms : List StructFormOf) (of : Option tables.Sense) → HoldsFound forms (option_copied sense.entry) of →
        result ≡ views.is_semaphore of }
{
    match sense {
        Some(sense) => is_semaphore_sense(sense),
        None => false,
    }
}

// Tells a semaphore that was seen before, and else notes it.
fn tell_repeat(
    faults: &mut Vec<RuleFault>,
    seen: &mut FirstNames,
    name: &Name,
) -> Result<(), NoMemory>
    ensures { OnOk result ((before : List NameOf) → Sees seen.old.entries before →
        Sees seen.new.entries (before ++ name.now ∷ []) ×
        (faults.new.items ≡ faults.old.items ++ fault_if (is_among before (name_text name.now)) name.now.place 31)) }
{
    let again = note(seen, &name.text, 0)?;
    tell_if(faults, again, name.place, rule::S31)?;
    Ok(())
}

// The same of a name that is a semaphore's, and nothing of another.
fn tell_semaphore(
    table: &SenseTable,
    faults: &mut Vec<RuleFault>,
    seen: &mut FirstNames,
    scope: u32,
    name: &Name,
) -> Result<(), NoMemory>
    ensures { OnOk result ((t : tables.Table) → HoldsTable table.now t → (before : List NameOf) → Sees seen.old.entries before →
        let semaphore = filter (λ name. views.is_semaphore (views.seen t (Within scope) name)) (name.now ∷ []) in
        Sees seen.new.entries (before ++ semaphore) × (faults.new.items ≡ faults.old.items ++ repeats 31 before semaphore)) }
{
    let semaphore = is_semaphore(table.sense_from(View::Within(scope), &name.text));
    if !semaphore {
        return Ok(());
    }
    tell_repeat(faults, seen, name)?;
    Ok(())
}

fn tell_repeats(
    alloc: Global,
    table: &SenseTable,
    faults: &mut Vec<RuleFault>,
    scope: u32,
    mut names: &[Name],
) -> Result<(), NoMemory>
    ensures { OnOk result ((t : tables.Table) → HoldsTable table.now t →
        faults.new.items ≡
        faults.old.items ++ repeats 31 [] (filter (λ name. views.is_semaphore (views.seen t (Within scope) name)) names.entry.now)) }
{
    let mut seen = BTreeMap::new(alloc);
    while let [name, rest @ ..] = names {
        tell_semaphore(table, faults, &mut seen, scope, name)?;
        names = rest;
    }
    Ok(())
}

// The first name of too many.
fn seventeenth(names: &[Name]) -> Option<&Name>
    ensures { option_copied result ≡ slice_get names.now limit.NAMES_MAX }
{
    names.get(NAMES_MAX)
}

fn tell_name(faults: &mut Vec<RuleFault>, name: Option<&Name>) -> Result<(), NoMemory>
    ensures { OnOk result (faults.new.items ≡ faults.old.items ++ spec.fault_at_name (option_copied name.entry) 31) }
{
    match name {
        Some(name) => tell_if(faults, true, name.place, rule::S31),
        None => Ok(()),
    }
}

/// Adds what is broken of S31 in REQUEST or RELEASE with these names.
pub(crate) fn s31_of(
    alloc: Global,
    table: &SenseTable,
    faults: &mut Vec<RuleFault>,
    scope: u32,
    names: &[Name],
) -> Result<(), NoMemory>
    ensures { OnOk result ((t : tables.Table) → HoldsTable table.now t →
        faults.new.items ≡
        faults.old.items ++
        (repeats 31 [] (filter (λ name. views.is_semaphore (views.seen t (Within scope) name)) names.now) ++
        spec.fault_at_name (slice_get names.now limit.NAMES_MAX) 31)) }
{
    tell_repeats(alloc, table, faults, scope, names)?;
    tell_name(faults, seventeenth(names))?;
    Ok(())
}
