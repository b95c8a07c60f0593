// Dations of transfers: S32.

ghost use Rattle.std.specs.Prelude.{◌≡◌, ◌++◌, List, Option, Some, OnOk};
ghost use Rattle.std.specs.Option.{option_copied};
ghost use Rattle.pearl_tree.specs.Faults.{fault_if};
ghost use Rattle.pearl_names.specs.declared.types.StructForm.{StructForm as StructFormOf};
ghost use Rattle.pearl_names.specs.Holding.{HoldsFound, HoldsSense, HoldsTable};
ghost use Rattle.pearl_names.specs.Tables as tables;
ghost use Rattle.pearl_system.specs.Rules as directions;
ghost use Rattle.pearl_check.specs.Dations as spec;
ghost use Rattle.pearl_check.specs.Findings as findings_spec;

use crate::findings::{Findings, misfits, sense_of};
use crate::tell::tell_if;
use pearl_names::sense::Sense;
use pearl_names::table::SenseTable;
use pearl_tree::fault::RuleFault;
use pearl_tree::name::Name;
use pearl_tree::rule;
use pearl_value::device::Direction;
use pearl_value::kind::Kind;
use std::alloc::AllocError as NoMemory;

fn is_in(direction: Direction) -> bool
    ensures { result ≡ directions.is_in direction }
{
    match direction {
        Direction::In => true,
        Direction::Out => false,
        Direction::InOut => false,
    }
}

fn is_out(direction: Direction) -> bool
    ensures { result ≡ directions.is_out direction }
{
    match direction {
        Direction::In => false,
        Direction::Out => true,
        Direction::InOut => false,
    }
}

fn sense_takes_no_put(sense: &Sense) -> bool
    ensures { (forms : List StructFormOf) (of : tables.Sense) → HoldsSense forms sense.now of →
        result ≡ spec.takes_no_put (Some of) }
{
    match sense {
        Sense::AlphicDation(direction) => is_in(*direction),
        Sense::BasicDation { .. } => true,
        Sense::Variable { .. } => false,
        Sense::Control(_) => false,
        Sense::Parameter(_) => false,
        Sense::NewType => false,
        Sense::Semaphore => false,
        Sense::Interrupt => false,
        Sense::Task => false,
        Sense::Procedure(_) => false,
    }
}

fn takes_no_put(sense: Option<&Sense>) -> bool
    ensures { (forms : List StructFormOf) (of : Option tables.Sense) → HoldsFound forms (option_copied sense.entry) of →
        result ≡ spec.takes_no_put of }
{
    match sense {
        Some(sense) => sense_takes_no_put(sense),
        None => false,
    }
}

fn sense_gives_no_get(sense: &Sense) -> bool
    ensures { (forms : List StructFormOf) (of : tables.Sense) → HoldsSense forms sense.now of →
        result ≡ spec.gives_no_get (Some of) }
{
    match sense {
        Sense::AlphicDation(direction) => is_out(*direction),
        Sense::BasicDation { .. } => true,
        Sense::Variable { .. } => false,
        Sense::Control(_) => false,
        Sense::Parameter(_) => false,
        Sense::NewType => false,
        Sense::Semaphore => false,
        Sense::Interrupt => false,
        Sense::Task => false,
        Sense::Procedure(_) => false,
    }
}

fn gives_no_get(sense: Option<&Sense>) -> bool
    ensures { (forms : List StructFormOf) (of : Option tables.Sense) → HoldsFound forms (option_copied sense.entry) of →
        result ≡ spec.gives_no_get of }
{
    match sense {
        Some(sense) => sense_gives_no_get(sense),
        None => false,
    }
}

fn sense_takes_no_send(sent: Option<Kind>, sense: &Sense) -> bool
    ensures { (forms : List StructFormOf) (of : tables.Sense) → HoldsSense forms sense.now of →
        result ≡ spec.takes_no_send sent (Some of) }
{
    match sense {
        Sense::AlphicDation(_) => true,
        Sense::BasicDation { direction, kind } => is_in(*direction) || misfits(sent, *kind),
        Sense::Variable { .. } => false,
        Sense::Control(_) => false,
        Sense::Parameter(_) => false,
        Sense::NewType => false,
        Sense::Semaphore => false,
        Sense::Interrupt => false,
        Sense::Task => false,
        Sense::Procedure(_) => false,
    }
}

fn takes_no_send(sent: Option<Kind>, sense: Option<&Sense>) -> bool
    ensures { (forms : List StructFormOf) (of : Option tables.Sense) → HoldsFound forms (option_copied sense.entry) of →
        result ≡ spec.takes_no_send sent of }
{
    match sense {
        Some(sense) => sense_takes_no_send(sent, sense),
        None => false,
    }
}

fn sense_gives_no_take(taken: Option<Kind>, sense: &Sense) -> bool
    ensures { (forms : List StructFormOf) (of : tables.Sense) → HoldsSense forms sense.now of →
        result ≡ spec.gives_no_take taken (Some of) }
{
    match sense {
        Sense::AlphicDation(_) => true,
        Sense::BasicDation { direction, kind } => is_out(*direction) || misfits(*kind, taken),
        Sense::Variable { .. } => false,
        Sense::Control(_) => false,
        Sense::Parameter(_) => false,
        Sense::NewType => false,
        Sense::Semaphore => false,
        Sense::Interrupt => false,
        Sense::Task => false,
        Sense::Procedure(_) => false,
    }
}

fn gives_no_take(taken: Option<Kind>, sense: Option<&Sense>) -> bool
    ensures { (forms : List StructFormOf) (of : Option tables.Sense) → HoldsFound forms (option_copied sense.entry) of →
        result ≡ spec.gives_no_take taken of }
{
    match sense {
        Some(sense) => sense_gives_no_take(taken, sense),
        None => false,
    }
}

/// Adds S32, where it is broken by a PUT to this dation, of the parts of which this was found.
pub(crate) fn s32_of_put(
    table: &SenseTable,
    faults: &mut Vec<RuleFault>,
    dation: &Name,
    findings: &Findings,
) -> Result<(), NoMemory>
    ensures { OnOk result ((t : tables.Table) → HoldsTable table.now t →
        faults.new.items ≡
        faults.old.items ++ fault_if (spec.takes_no_put (findings_spec.sense_of t (findings_spec.first_name findings.now))) dation.now.place 32) }
{
    let broken = takes_no_put(sense_of(table, findings.first_name()));
    tell_if(faults, broken, dation.place, rule::S32)?;
    Ok(())
}

/// The same of a GET from it.
pub(crate) fn s32_of_get(
    table: &SenseTable,
    faults: &mut Vec<RuleFault>,
    dation: &Name,
    findings: &Findings,
) -> Result<(), NoMemory>
    ensures { OnOk result ((t : tables.Table) → HoldsTable table.now t →
        faults.new.items ≡
        faults.old.items ++ fault_if (spec.gives_no_get (findings_spec.sense_of t (findings_spec.first_name findings.now))) dation.now.place 32) }
{
    let broken = gives_no_get(sense_of(table, findings.first_name()));
    tell_if(faults, broken, dation.place, rule::S32)?;
    Ok(())
}

/// The same of a SEND to it.
pub(crate) fn s32_of_send(
    table: &SenseTable,
    faults: &mut Vec<RuleFault>,
    dation: &Name,
    findings: &Findings,
) -> Result<(), NoMemory>
    ensures { OnOk result ((t : tables.Table) → HoldsTable table.now t →
        faults.new.items ≡
        faults.old.items ++
        fault_if (spec.takes_no_send (findings_spec.kind_at findings.now 0) (findings_spec.sense_of t (findings_spec.first_name findings.now)))
        dation.now.place 32) }
{
    let sense = sense_of(table, findings.first_name());
    let broken = takes_no_send(findings.kind_at(0), sense);
    tell_if(faults, broken, dation.place, rule::S32)?;
    Ok(())
}

/// The same of a TAKE from it.
pub(crate) fn s32_of_take(
    table: &SenseTable,
    faults: &mut Vec<RuleFault>,
    dation: &Name,
    findings: &Findings,
) -> Result<(), NoMemory>
    ensures { OnOk result ((t : tables.Table) → HoldsTable table.now t →
        faults.new.items ≡
        faults.old.items ++
        fault_if (spec.gives_no_take (findings_spec.kind_at findings.now 0) (findings_spec.sense_of t (findings_spec.first_name findings.now)))
        dation.now.place 32) }
{
    let sense = sense_of(table, findings.first_name());
    let broken = gives_no_take(findings.kind_at(0), sense);
    tell_if(faults, broken, dation.place, rule::S32)?;
    Ok(())
}
