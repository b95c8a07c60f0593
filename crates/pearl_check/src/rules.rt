// Which of the rules on statements, and on the heads of tasks, a module breaks.
#![tactic(auto, using(std::proofs::lemmas::Grind::common_steps))]

ghost use Rattle.std.specs.Prelude.{◌≡◌, ◌+◌, ◌++◌, [], map, IfOk, OnOk};
ghost use Rattle.std.specs.List.{flat_map};
ghost use Rattle.pearl_tree.specs.Faults.{ListFaults};
ghost use Rattle.pearl_tree.specs.ShownModules.{shown_decl, shown_tree};
ghost use Rattle.pearl_names.specs.Holding.{HoldsTable};
ghost use Rattle.pearl_names.specs.Listed.{stmts_shown};
ghost use Rattle.pearl_names.specs.Scopes.{scopes_in_all, scopes_in_decl};
ghost use Rattle.pearl_names.specs.Tables as tables;
ghost use Rattle.pearl_scope.specs.Placed.{placed_at, placed_in, placed_body};
ghost use Rattle.pearl_check.specs.Asked.{asked_in};
ghost use Rattle.pearl_check.specs.Findings.{AreFound};
ghost use Rattle.pearl_check.specs.Roles as roles;
ghost use Rattle.pearl_check.specs.Routines.{decl_routines, decls_routines, shown_sort};
ghost use Rattle.pearl_check.specs.Rules as spec;

use crate::asked::{Asked, add_asked};
use crate::findings::Findings;
use crate::limit::PRIORITY_MAX;
use crate::roles::asked_faults;
use crate::routine::RoutineSort;
use crate::statements::own_faults;
use crate::tell::tell_if;
use pearl_names::table::SenseTable;
use pearl_scope::places::{Place, place_body};
use pearl_tree::declaration::Prio;
use pearl_tree::fault::{RuleFault, in_order};
use pearl_tree::rule;
use pearl_tree::statement::Body;
use pearl_tree::tree::{Decl, TaskHead, Tree};
use std::alloc::{AllocError as NoMemory, Global};

// It answers what is found of these parts.
fn all_asked_faults(
    alloc: Global,
    table: &SenseTable,
    faults: &mut Vec<RuleFault>,
    asked: &[Asked<'_>],
) -> Result<Findings, NoMemory>
    ensures found { IfOk result (λ findings. (t : tables.Table) → HoldsTable table.now t → AreFound t findings (asked_in asked.now)) }
    ensures faults { OnOk result ((t : tables.Table) → HoldsTable table.now t →
        faults.new.items ≡ faults.old.items ++ flat_map (roles.asked_faults t) (asked_in asked.now)) }
{
    let mut findings = Findings::new(alloc);
    for part in asked {
        asked_faults(alloc, table, faults, &mut findings, part)?;
    }
    Ok(findings)
}

fn statement_faults_at(
    alloc: Global,
    table: &SenseTable,
    faults: &mut Vec<RuleFault>,
    sort: RoutineSort<'_>,
    place: &Place<'_>,
) -> Result<(), NoMemory>
    ensures { OnOk result ((t : tables.Table) → HoldsTable table.now t →
        faults.new.items ≡ faults.old.items ++ spec.statement_faults t (shown_sort sort.entry) (placed_at place.now)) }
{
    let mut asked = Vec::new(alloc);
    add_asked(&mut asked, place)?;
    let findings = all_asked_faults(alloc, table, faults, asked.as_slice())?;
    own_faults(alloc, table, faults, sort, place, &findings)?;
    Ok(())
}

fn all_statement_faults(
    alloc: Global,
    table: &SenseTable,
    faults: &mut Vec<RuleFault>,
    sort: RoutineSort<'_>,
    places: &[Place<'_>],
) -> Result<(), NoMemory>
    ensures { OnOk result ((t : tables.Table) → HoldsTable table.now t →
        faults.new.items ≡ faults.old.items ++ flat_map (spec.statement_faults t (shown_sort sort.entry)) (placed_in places.now)) }
{
    for place in places {
        statement_faults_at(alloc, table, faults, sort, place)?;
    }
    Ok(())
}

// Of a body that is the scope of this number. It answers the number of the next scope.
fn body_faults(
    alloc: Global,
    table: &SenseTable,
    faults: &mut Vec<RuleFault>,
    sort: RoutineSort<'_>,
    scope: u32,
    body: &Body,
) -> Result<u32, NoMemory>
    ensures next { IfOk result (λ next. next ≡ scope + 1 + scopes_in_all (stmts_shown body.now.statements.items.items)) }
    ensures faults { OnOk result ((t : tables.Table) → HoldsTable table.now t →
        faults.new.items ≡
        faults.old.items ++
        flat_map (spec.statement_faults t (shown_sort sort.entry)) (placed_body scope (stmts_shown body.now.statements.items.items))) }
{
    let mut places = Vec::new(alloc);
    let next = place_body(&mut places, scope, body)?;
    all_statement_faults(alloc, table, faults, sort, places.as_slice())?;
    Ok(next)
}

fn unfit_priority(faults: &mut Vec<RuleFault>, prio: &Prio) -> Result<(), NoMemory>
    ensures { OnOk result (faults.new.items ≡ faults.old.items ++ spec.unfit_priority prio.now) }
{
    let number = prio.number;
    let fits = 1 <= number.value && number.value <= PRIORITY_MAX;
    tell_if(faults, !fits, number.place, rule::S30)?;
    Ok(())
}

fn head_faults(faults: &mut Vec<RuleFault>, head: &TaskHead) -> Result<(), NoMemory>
    ensures { OnOk result (faults.new.items ≡ faults.old.items ++ spec.head_faults head.now) }
{
    match head {
        TaskHead::PrioFirst { prio, .. } => match prio {
            Some(prio) => unfit_priority(faults, prio),
            None => Ok(()),
        },
        TaskHead::MainFirst { prio } => unfit_priority(faults, prio),
    }
}

// Of a declaration, where the next scope has the number `next`. It answers the number of the one behind.
fn decl_faults(
    alloc: Global,
    table: &SenseTable,
    faults: &mut Vec<RuleFault>,
    next: u32,
    decl: &Decl,
) -> Result<u32, NoMemory>
    ensures next { IfOk result (λ after. after ≡ next + scopes_in_decl (shown_decl decl.now)) }
    ensures faults { OnOk result ((t : tables.Table) → HoldsTable table.now t →
        faults.new.items ≡ faults.old.items ++ flat_map (spec.routine_faults t) (decl_routines next (shown_decl decl.now))) }
{
    match decl {
        Decl::Task { head, body, .. } => {
            head_faults(faults, head)?;
            let after = body_faults(alloc, table, faults, RoutineSort::Task(head), next, body)?;
            Ok(after)
        }
        Decl::Proc { returns, body, .. } => {
            let sort = RoutineSort::Procedure(returns);
            let after = body_faults(alloc, table, faults, sort, next, body)?;
            Ok(after)
        }
        Decl::Length { .. } => Ok(next),
        Decl::Type { .. } => Ok(next),
        Decl::Declare { .. } => Ok(next),
        Decl::Specify { .. } => Ok(next),
    }
}

fn decls_faults(
    alloc: Global,
    table: &SenseTable,
    faults: &mut Vec<RuleFault>,
    mut decls: &[Decl],
) -> Result<(), NoMemory>
    ensures { OnOk result ((t : tables.Table) → HoldsTable table.now t →
        faults.new.items ≡
        faults.old.items ++ flat_map (spec.routine_faults t) (decls_routines 1 (map shown_decl decls.entry.now))) }
{
    let mut next = 1;
    while let [decl, rest @ ..] = decls {
        next = decl_faults(alloc, table, faults, next, decl)?;
        decls = rest;
    }
    Ok(())
}

/// Where the tasks and procedures of a module break the rules S15 to S27 and S29 to S33, by place and then by rule. The
/// table is the module's own.
pub fn statement_faults(
    alloc: Global,
    table: &SenseTable,
    tree: &Tree,
) -> Result<Vec<RuleFault>, NoMemory>
    ensures { IfOk result (λ faults. (t : tables.Table) → HoldsTable table.now t →
        ListFaults (spec.statements_broken t (shown_tree tree.now)) faults.items) }
{
    let mut found = Vec::new(alloc);
    decls_faults(alloc, table, &mut found, tree.declarations.as_slice())?;
    Ok(in_order(found))
}
