// The rules on statements as a whole: S24, S26 and S27, and those of other files.

ghost use Rattle.std.specs.Prelude.{◌≡◌, ◌++◌, ℕ, not, option_map, OnOk};
ghost use Rattle.pearl_tree.specs.Faults as faults_spec;
ghost use Rattle.pearl_tree.specs.ShownExpressions.{shown_expr};
ghost use Rattle.pearl_names.specs.Holding.{HoldsTable};
ghost use Rattle.pearl_names.specs.Lengths as lengths_spec;
ghost use Rattle.pearl_names.specs.Tables as tables;
ghost use Rattle.pearl_scope.specs.Placed.{placed_at};
ghost use Rattle.pearl_check_expr.specs.Judged as judged;
ghost use Rattle.pearl_check.specs.Asked.{asked_at};
ghost use Rattle.pearl_check.specs.Dations as dations;
ghost use Rattle.pearl_check.specs.Findings as findings_spec;
ghost use Rattle.pearl_check.specs.Formats as formats;
ghost use Rattle.pearl_check.specs.Routines.{shown_sort};
ghost use Rattle.pearl_check.specs.Rules as spec;
ghost use Rattle.pearl_check.specs.Statements as statements;

use crate::dations::{s32_of_get, s32_of_put, s32_of_send, s32_of_take};
use crate::findings::{Findings, misfits};
use crate::formats::format_faults;
use crate::routine::RoutineSort;
use crate::semaphores::s31_of;
use crate::tell::tell_if;
use pearl_names::length::kind_of_basic;
use pearl_names::table::SenseTable;
use pearl_scope::places::Place;
use pearl_tree::expression::Expr;
use pearl_tree::fault::RuleFault;
use pearl_tree::rule;
use pearl_tree::statement::{Get, Put, Return, Stmt};
use pearl_tree::typing::Basic;
use pearl_value::kind::Kind;
use std::alloc::{AllocError as NoMemory, Global};

// Of an assignment, of whose target and value this was found.
fn s24_of(faults: &mut Vec<RuleFault>, place: u32, findings: &Findings) -> Result<(), NoMemory>
    ensures { OnOk result (faults.new.items ≡
        faults.old.items ++
        faults_spec.fault_if (judged.misfits (findings_spec.kind_at findings.now 1) (findings_spec.kind_at findings.now 0)) place 24) }
{
    let target = findings.kind_at(0);
    let value = findings.kind_at(1);
    tell_if(faults, misfits(value, target), place, rule::S24)?;
    Ok(())
}

fn s26_of(faults: &mut Vec<RuleFault>, in_loop: bool, place: u32) -> Result<(), NoMemory>
    ensures { OnOk result (faults.new.items ≡ faults.old.items ++ faults_spec.fault_if (not in_loop) place 26) }
{
    tell_if(faults, !in_loop, place, rule::S26)?;
    Ok(())
}

fn suits_ill(table: &SenseTable, result_type: &Basic, kind: Option<Kind>) -> bool
    ensures { (t : tables.Table) → HoldsTable table.now t →
        result ≡ judged.misfits kind (lengths_spec.kind_of_basic t.lengths result_type.now) }
{
    misfits(kind, kind_of_basic(table.lengths(), result_type))
}

// With a value of this kind, where there is one.
fn returns_ill(
    table: &SenseTable,
    returns: &Option<Basic>,
    value: &Option<Expr>,
    kind: Option<Kind>,
) -> bool
    ensures { (t : tables.Table) (scope : ℕ) → HoldsTable table.now t →
        kind ≡ findings_spec.kind_if t scope (option_map shown_expr value.now) →
        result ≡ statements.returns_ill t scope returns.now (option_map shown_expr value.now) }
{
    match (returns, value) {
        (None, None) => false,
        (Some(result_type), Some(_)) => suits_ill(table, result_type, kind),
        (None, Some(_)) => true,
        (Some(_), None) => true,
    }
}

fn is_misplaced(
    table: &SenseTable,
    sort: RoutineSort<'_>,
    value: &Option<Expr>,
    kind: Option<Kind>,
) -> bool
    ensures { (t : tables.Table) (scope : ℕ) → HoldsTable table.now t →
        kind ≡ findings_spec.kind_if t scope (option_map shown_expr value.now) →
        result ≡ statements.is_misplaced_return t scope (shown_sort sort.entry) (option_map shown_expr value.now) }
{
    match sort {
        RoutineSort::Task(_) => true,
        RoutineSort::Procedure(returns) => returns_ill(table, returns, value, kind),
    }
}

// Of a RETURN, of whose value this was found.
fn s27_of(
    table: &SenseTable,
    faults: &mut Vec<RuleFault>,
    sort: RoutineSort<'_>,
    part: &Return,
    findings: &Findings,
) -> Result<(), NoMemory>
    ensures { OnOk result ((t : tables.Table) (scope : ℕ) → HoldsTable table.now t →
        findings_spec.kind_at findings.now 0 ≡ findings_spec.kind_if t scope (option_map shown_expr part.now.value) →
        faults.new.items ≡
        faults.old.items ++
        faults_spec.fault_if
        (statements.is_misplaced_return t scope (shown_sort sort.entry) (option_map shown_expr part.now.value)) part.now.place 27) }
{
    let kind = findings.kind_at(0);
    let misplaced = is_misplaced(table, sort, &part.value, kind);
    tell_if(faults, misplaced, part.place, rule::S27)?;
    Ok(())
}

// S32 and S33 of a PUT, of whose values and dation this was found.
fn put_faults(
    table: &SenseTable,
    faults: &mut Vec<RuleFault>,
    part: &Put,
    findings: &Findings,
) -> Result<(), NoMemory>
    ensures { OnOk result ((t : tables.Table) → HoldsTable table.now t →
        faults.new.items ≡
        faults.old.items ++
        (faults_spec.fault_if (dations.takes_no_put (findings_spec.sense_of t (findings_spec.first_name findings.now))) part.now.dation.place 32 ++
        formats.format_faults part.now.place part.now.formats.items.items findings.now.kinds.items)) }
{
    s32_of_put(table, faults, &part.dation, findings)?;
    let kinds = findings.kinds.as_slice();
    format_faults(faults, part.place, part.formats.as_slice(), kinds)?;
    Ok(())
}

// The same of a GET.
fn get_faults(
    table: &SenseTable,
    faults: &mut Vec<RuleFault>,
    part: &Get,
    findings: &Findings,
) -> Result<(), NoMemory>
    ensures { OnOk result ((t : tables.Table) → HoldsTable table.now t →
        faults.new.items ≡
        faults.old.items ++
        (faults_spec.fault_if (dations.gives_no_get (findings_spec.sense_of t (findings_spec.first_name findings.now))) part.now.dation.place 32 ++
        formats.format_faults part.now.place part.now.formats.items.items findings.now.kinds.items)) }
{
    s32_of_get(table, faults, &part.dation, findings)?;
    let kinds = findings.kinds.as_slice();
    format_faults(faults, part.place, part.formats.as_slice(), kinds)?;
    Ok(())
}

/// Adds the rules S24, S26, S27 and S31 to S33 that are broken by a statement in a routine of this sort, apart from
/// those within it, where this was found of its parts.
pub(crate) fn own_faults(
    alloc: Global,
    table: &SenseTable,
    faults: &mut Vec<RuleFault>,
    sort: RoutineSort<'_>,
    place: &Place<'_>,
    findings: &Findings,
) -> Result<(), NoMemory>
    ensures { OnOk result ((t : tables.Table) → HoldsTable table.now t → findings_spec.AreFound t findings.now (asked_at (placed_at place.now)) →
        faults.new.items ≡ faults.old.items ++ spec.own_faults t (shown_sort sort.entry) (placed_at place.now)) }
{
    match place.stmt {
        Stmt::Assign(part) => {
            s24_of(faults, part.target.place, findings)?;
            Ok(())
        }
        Stmt::Exit { place: at } => {
            s26_of(faults, place.spot.in_loop, *at)?;
            Ok(())
        }
        Stmt::Return(part) => {
            s27_of(table, faults, sort, part, findings)?;
            Ok(())
        }
        Stmt::OnSemas(part) => {
            let scope = place.spot.scope;
            s31_of(alloc, table, faults, scope, part.names.as_slice())?;
            Ok(())
        }
        Stmt::Put(part) => {
            put_faults(table, faults, part, findings)?;
            Ok(())
        }
        Stmt::Get(part) => {
            get_faults(table, faults, part, findings)?;
            Ok(())
        }
        Stmt::Send(part) => {
            s32_of_send(table, faults, &part.dation, findings)?;
            Ok(())
        }
        Stmt::Take(part) => {
            s32_of_take(table, faults, &part.dation, findings)?;
            Ok(())
        }
        Stmt::If(_) => Ok(()),
        Stmt::Case(_) => Ok(()),
        Stmt::Repeat(_) => Ok(()),
        Stmt::Begin(_) => Ok(()),
        Stmt::Empty { .. } => Ok(()),
        Stmt::Call(_) => Ok(()),
        Stmt::Activate(_) => Ok(()),
        Stmt::Continue(_) => Ok(()),
        Stmt::Resume(_) => Ok(()),
        Stmt::OnTask(_) => Ok(()),
        Stmt::OnInterrupt(_) => Ok(()),
    }
}
