// The tasks and procedures of a module, each with what it weighs itself and which procedures it calls.
#![tactic(auto, using(std::proofs::lemmas::Grind::common_steps))]

ghost use Rattle.std.specs.Prelude.{◌≡◌, ◌+◌, ◌++◌, ◌∷◌, [], ℕ, List, map, take, drop, filter, IfOk, OnOk};
ghost use Rattle.std.specs.List.{sum_by};
ghost use Rattle.pearl_tree.specs.declared.name.Name.{Name as NameOf};
ghost use Rattle.pearl_tree.specs.ShownModules.{shown_body, shown_decl};
ghost use Rattle.pearl_names.specs.Counts.{cut};
ghost use Rattle.pearl_names.specs.Holding.{HoldsAll, HoldsSense, HoldsTable};
ghost use Rattle.pearl_names.specs.Listed.{stmts_shown};
ghost use Rattle.pearl_names.specs.Scopes.{scopes_in_all, scopes_in_decl};
ghost use Rattle.pearl_names.specs.Tables as tables;
ghost use Rattle.pearl_check.specs.Calls as calls_spec;
ghost use Rattle.pearl_check.specs.Routines.{RoutineSort, Routine, decl_routines, decls_routines, is_procedure, is_task};
ghost use Rattle.pearl_check.specs.Sizes as spec;
ghost use Rattle.pearl_check.specs.Weighing.{HoldsWeighed, cut_caller};

use crate::cut::cut_sum;
use crate::procedures::Procedures;
use crate::sizes::slots;
use crate::tally::tally_places;
use pearl_calls::caller::Caller;
use pearl_names::sense::Sense;
use pearl_names::table::SenseTable;
use pearl_names::types::StructForm;
use pearl_scope::places::place_body;
use pearl_tree::statement::Body;
use pearl_tree::tree::Decl;
use std::alloc::{AllocError as NoMemory, Global};

/// Tasks or procedures in the order of the text: the places of their names, and what they are to those that weigh them.
#[derive(Drop)]
pub struct Weighed {
    pub places: Vec<u32>,
    pub callers: Vec<Caller>,
}

/// The tasks and procedures of a module.
#[derive(Drop)]
pub struct Routines {
    pub procedures: Weighed,
    pub tasks: Weighed,
}

// The cells of what a name stands for, cut off at 2^31.
fn cells(forms: &[StructForm], sense: &Sense) -> u32
    ensures { (of : tables.Sense) → HoldsSense forms.now sense.now of → result ≡ cut (spec.cells of) }
{
    match sense {
        Sense::Variable { form, .. } => slots(forms, form),
        Sense::Parameter(_) => 1,
        _ => 0,
    }
}

fn cells_in_scope(forms: &[StructForm], mut senses: &[Sense]) -> u32
    ensures { (of : List tables.Sense) → HoldsAll forms.now senses.entry.now of → result ≡ cut (sum_by spec.cells of) }
{
    let mut sum = 0;
    while let [sense, rest @ ..] = senses {
        sum = cut_sum(sum, cells(forms, sense));
        senses = rest;
    }
    sum
}

// The cells of the scopes from this number on, up to that one, cut off at 2^31.
fn cells_in_scopes(table: &SenseTable, first: u32, past: u32) -> u32
    ensures { (t : tables.Table) (count : ℕ) → HoldsTable table.now t → past ≡ first + count →
        result ≡ cut (sum_by (sum_by spec.cells) (take count (drop first t.senses))) }
{
    let mut sum = 0;
    let mut scope = first;
    while scope < past {
        sum = cut_sum(sum, cells_in_scope(table.forms(), table.senses_in(scope)));
        scope += 1;
    }
    sum
}

// What the task or procedure of a body is, which is the scope of this number; and the number of the next scope.
fn caller_of(
    alloc: Global,
    table: &SenseTable,
    procedures: &Procedures,
    scope: u32,
    body: &Body,
) -> Result<(Caller, u32), NoMemory>
    ensures next { IfOk result (λ found. found.1 ≡ scope + 1 + scopes_in_all (stmts_shown body.now.statements.items.items)) }
    ensures caller { IfOk result (λ found. (t : tables.Table) (name : NameOf) (sort : RoutineSort) → HoldsTable table.now t →
        found.0 ≡ cut_caller (spec.caller_of t procedures.now (record { name = name; sort = sort; scope = scope; body = shown_body body.now }))) }
{
    let mut places = Vec::new(alloc);
    let next = place_body(&mut places, scope, body)?;
    let tally = tally_places(alloc, table, procedures, places.as_slice())?;
    let cells = cut_sum(cells_in_scopes(table, scope, next), tally.hidden);
    Ok((Caller::new(cut_sum(cells, tally.need), tally.calls), next))
}

impl Weighed {
    fn push(&mut self, place: u32, caller: Caller) -> Result<(), NoMemory>
        ensures { OnOk result ((of : List calls_spec.Weighed) (weighed : calls_spec.Weighed) → HoldsWeighed self.old of →
            place ≡ weighed.name.place → caller ≡ cut_caller weighed.caller → HoldsWeighed self.new (of ++ weighed ∷ [])) }
    {
        self.places.push(place)?;
        self.callers.push(caller)?;
        Ok(())
    }
}

// Adds what a declaration declares, whose first scope has the number `next`. It answers the number of the scope behind.
fn add_decl(
    alloc: Global,
    table: &SenseTable,
    procedures: &Procedures,
    routines: &mut Routines,
    next: u32,
    decl: &Decl,
) -> Result<u32, NoMemory>
    ensures next { IfOk result (λ after. after ≡ next + scopes_in_decl (shown_decl decl.now)) }
    ensures procedures { OnOk result ((t : tables.Table) (of : List calls_spec.Weighed) → HoldsTable table.now t → HoldsWeighed routines.old.procedures of →
        HoldsWeighed routines.new.procedures (of ++ map (spec.weighed_of t procedures.now) (filter is_procedure (decl_routines next (shown_decl decl.now))))) }
    ensures tasks { OnOk result ((t : tables.Table) (of : List calls_spec.Weighed) → HoldsTable table.now t → HoldsWeighed routines.old.tasks of →
        HoldsWeighed routines.new.tasks (of ++ map (spec.weighed_of t procedures.now) (filter is_task (decl_routines next (shown_decl decl.now))))) }
{
    match decl {
        Decl::Task { name, body, .. } => {
            let (caller, after) = caller_of(alloc, table, procedures, next, body)?;
            routines.tasks.push(name.place, caller)?;
            Ok(after)
        }
        Decl::Proc { name, body, .. } => {
            let (caller, after) = caller_of(alloc, table, procedures, next, body)?;
            routines.procedures.push(name.place, caller)?;
            Ok(after)
        }
        Decl::Length { .. } => Ok(next),
        Decl::Type { .. } => Ok(next),
        Decl::Declare { .. } => Ok(next),
        Decl::Specify { .. } => Ok(next),
    }
}

// The tasks and procedures that these declare, where these procedures are called.
fn all_routines(
    alloc: Global,
    table: &SenseTable,
    procedures: &Procedures,
    mut decls: &[Decl],
) -> Result<Routines, NoMemory>
    ensures procedures { IfOk result (λ routines. (t : tables.Table) → HoldsTable table.now t →
        HoldsWeighed routines.procedures
        (map (spec.weighed_of t procedures.now) (filter is_procedure (decls_routines 1 (map shown_decl decls.entry.now))))) }
    ensures tasks { IfOk result (λ routines. (t : tables.Table) → HoldsTable table.now t →
        HoldsWeighed routines.tasks
        (map (spec.weighed_of t procedures.now) (filter is_task (decls_routines 1 (map shown_decl decls.entry.now))))) }
{
    let mut routines = Routines {
        procedures: Weighed {
            places: Vec::new(alloc),
            callers: Vec::new(alloc),
        },
        tasks: Weighed {
            places: Vec::new(alloc),
            callers: Vec::new(alloc),
        },
    };
    let mut next = 1;
    while let [decl, rest @ ..] = decls {
        next = add_decl(alloc, table, procedures, &mut routines, next, decl)?;
        decls = rest;
    }
    Ok(routines)
}

/// The tasks and procedures that these declare.
pub(crate) fn routines_of(
    alloc: Global,
    table: &SenseTable,
    decls: &[Decl],
) -> Result<Routines, NoMemory>
    ensures procedures { IfOk result (λ routines. (t : tables.Table) → HoldsTable table.now t →
        HoldsWeighed routines.procedures (spec.weighed_procedures t (decls_routines 1 (map shown_decl decls.now)))) }
    ensures tasks { IfOk result (λ routines. (t : tables.Table) → HoldsTable table.now t →
        HoldsWeighed routines.tasks (spec.weighed_tasks t (decls_routines 1 (map shown_decl decls.now)))) }
{
    let procedures = Procedures::of(alloc, decls)?;
    let routines = all_routines(alloc, table, &procedures, decls)?;
    Ok(routines)
}
