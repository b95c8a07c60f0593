// The procedures of a module by their names, and which of them a statement calls.
#![tactic(auto, using(crate::proofs::Calling::call_steps, crate::proofs::PieceLists::piece_steps, pearl_names::proofs::Offered::list_steps, std::proofs::lemmas::Grind::common_steps))]

ghost use Rattle.std.specs.Prelude.{◌≡◌, ◌++◌, ◌∷◌, [], List, Option, length, map, option_copied, IfOk, OnOk};
ghost use Rattle.std.specs.List.{flat_map};
ghost use Rattle.pearl_tree.specs.ShownModules.{shown_decl};
ghost use Rattle.pearl_names.specs.declared.types.StructForm.{StructForm as StructFormOf};
ghost use Rattle.pearl_names.specs.Holding.{HoldsFound, HoldsTable};
ghost use Rattle.pearl_names.specs.Tables as tables;
ghost use Rattle.pearl_check_expr.specs.Subjects.{shown_subject};
ghost use Rattle.pearl_check.specs.Asked.{shown_asked};
ghost use Rattle.pearl_check.specs.Calls as calls_spec;
ghost use Rattle.pearl_check.specs.Calling as spec;
ghost use Rattle.pearl_check.specs.PieceLists.{pieces_in};
ghost use Rattle.pearl_check.specs.Views as views;

use crate::asked::Asked;
use crate::pieces::{Piece, add_pieces};
use pearl_check_expr::subject::Subject;
use pearl_names::names::ScopeTable;
use pearl_names::scope::{NameSort, SortedName, View};
use pearl_names::sense::Sense;
use pearl_names::table::SenseTable;
use pearl_tree::name::Name;
use pearl_tree::tree::Decl;
use std::alloc::{AllocError as NoMemory, Global};
use std::marker::Model;

/// The procedures of a module in order. Of several that have one name, the first is called.
#[derive(Drop)]
pub struct Procedures {
    table: ScopeTable,
}

impl Model for Procedures {
    ghost use Rattle.std.specs.Prelude.{List, map};
    ghost use Rattle.pearl_tree.specs.declared.name.Name.{Name};

    ghost Value = { List Name };

    ghost view = { λ p. map (λ entry. entry.name) p.table.names };
}

fn copied(name: &Name) -> Result<Name, NoMemory>
    ensures { IfOk result (λ copy. copy ≡ name.now) }
{
    let text = name.text.clone()?;
    let place = name.place;
    Ok(Name { text, place })
}

fn add_procedure(into: &mut Vec<SortedName>, name: &Name) -> Result<(), NoMemory>
    ensures { OnOk result (spec.names_in into.new.items ≡ spec.names_in into.old.items ++ name.now ∷ []) }
{
    let name = copied(name)?;
    let sort = NameSort::Procedure;
    into.push(SortedName { name, sort })?;
    Ok(())
}

fn add_decl(into: &mut Vec<SortedName>, decl: &Decl) -> Result<(), NoMemory>
    ensures { OnOk result
        (spec.names_in into.new.items ≡ spec.names_in into.old.items ++ spec.procedures_in (shown_decl decl.now)) }
{
    match decl {
        Decl::Proc { name, .. } => add_procedure(into, name),
        Decl::Task { .. } => Ok(()),
        Decl::Length { .. } => Ok(()),
        Decl::Type { .. } => Ok(()),
        Decl::Declare { .. } => Ok(()),
        Decl::Specify { .. } => Ok(()),
    }
}

impl Procedures {
    /// The procedures that these declare.
    pub fn of(alloc: Global, decls: &[Decl]) -> Result<Procedures, NoMemory>
        ensures { IfOk result (λ procedures. procedures ≡ flat_map spec.procedures_in (map shown_decl decls.now)) }
    {
        let mut names = Vec::new(alloc);
        for decl in decls {
            add_decl(&mut names, decl)?;
        }
        let table = ScopeTable::new(alloc, None, names)?;
        Ok(Procedures { table })
    }

    /// The number of the procedure that is called by a name.
    pub fn number_of(&self, name: &Name) -> Option<u32>
        ensures { result ≡ calls_spec.number_of self.now name.now }
    {
        self.table.find(&name.text)
    }
}

fn is_procedure(sense: Option<&Sense>) -> bool
    ensures { (forms : List StructFormOf) (of : Option tables.Sense) → HoldsFound forms (option_copied sense.entry) of →
        result ≡ views.is_procedure_sense of }
{
    matches!(sense, Some(Sense::Procedure(_)))
}

fn view_of(scope: u32, subject: Subject<'_>) -> View
    ensures { result ≡ views.view_of scope (shown_subject subject.entry) }
{
    match subject {
        Subject::While(_) => View::WhileOf(scope),
        Subject::Value(_) => View::Within(scope),
        Subject::Target(_) => View::Within(scope),
        Subject::Call(_) => View::Within(scope),
    }
}

/// From where the names of calls are seen.
#[derive(Clone, Copy)]
pub struct Sight<'a> {
    pub table: &'a SenseTable,
    pub procedures: &'a Procedures,
    pub view: View,
}

// Few names are those of procedures: the others aren't looked for in the scopes.
fn add_call(calls: &mut Vec<u32>, sight: Sight<'_>, name: &Name) -> Result<(), NoMemory>
    ensures { OnOk result ((t : tables.Table) → HoldsTable sight.entry.table.now t →
        calls.new.items ≡ calls.old.items ++ spec.calls_seen t sight.entry.procedures.now sight.entry.view (name.now ∷ [])) }
{
    match sight.procedures.number_of(name) {
        Some(number) => {
            if is_procedure(sight.table.sense_from(sight.view, &name.text)) {
                calls.push(number)?;
            }
            Ok(())
        }
        None => Ok(()),
    }
}

fn add_piece_call(calls: &mut Vec<u32>, sight: Sight<'_>, piece: &Piece<'_>) -> Result<(), NoMemory>
    ensures { OnOk result ((t : tables.Table) → HoldsTable sight.entry.table.now t →
        calls.new.items ≡
        calls.old.items ++ spec.calls_seen t sight.entry.procedures.now sight.entry.view (flat_map calls_spec.referred (pieces_in (piece.now ∷ [])))) }
{
    match piece {
        Piece::Reference(name) => add_call(calls, sight, name),
        Piece::Other => Ok(()),
    }
}

fn add_piece_calls(
    calls: &mut Vec<u32>,
    sight: Sight<'_>,
    pieces: &[Piece<'_>],
) -> Result<(), NoMemory>
    ensures { OnOk result ((t : tables.Table) → HoldsTable sight.entry.table.now t →
        calls.new.items ≡
        calls.old.items ++ spec.calls_seen t sight.entry.procedures.now sight.entry.view (flat_map calls_spec.referred (pieces_in pieces.now))) }
{
    for piece in pieces {
        add_piece_call(calls, sight, piece)?;
    }
    Ok(())
}

// The name of a call statement, which stands outside its expressions.
fn add_called(calls: &mut Vec<u32>, sight: Sight<'_>, subject: Subject<'_>) -> Result<(), NoMemory>
    ensures { OnOk result ((t : tables.Table) → HoldsTable sight.entry.table.now t →
        calls.new.items ≡
        calls.old.items ++ spec.calls_seen t sight.entry.procedures.now sight.entry.view (spec.called_name (shown_subject subject.entry))) }
{
    match subject {
        Subject::Call(call) => add_call(calls, sight, &call.name),
        Subject::Value(_) => Ok(()),
        Subject::While(_) => Ok(()),
        Subject::Target(_) => Ok(()),
    }
}

// The calls of a part of a statement, the expressions of which are made of these.
fn add_part_calls(
    table: &SenseTable,
    procedures: &Procedures,
    calls: &mut Vec<u32>,
    asked: &Asked<'_>,
    pieces: &[Piece<'_>],
) -> Result<(), NoMemory>
    ensures { OnOk result ((t : tables.Table) → HoldsTable table.now t → pieces_in pieces.now ≡ calls_spec.asked_pieces (shown_asked asked.now) →
        calls.new.items ≡ calls.old.items ++ spec.calls_of_part t procedures.now (shown_asked asked.now)) }
{
    match *asked {
        Asked::Subject { scope, subject, .. } => {
            let view = view_of(scope, subject);
            let sight = Sight {
                table,
                procedures,
                view,
            };
            add_called(calls, sight, subject)?;
            add_piece_calls(calls, sight, pieces)?;
            Ok(())
        }
        Asked::Named { .. } => Ok(()),
    }
}

/// Adds the numbers of the procedures that a part of a statement calls, and answers of how many pieces its expressions
/// are made.
pub fn add_calls(
    alloc: Global,
    table: &SenseTable,
    procedures: &Procedures,
    calls: &mut Vec<u32>,
    asked: &Asked<'_>,
) -> Result<usize, NoMemory>
    ensures pieces { IfOk result (λ count. count ≡ length (calls_spec.asked_pieces (shown_asked asked.now))) }
    ensures calls { OnOk result ((t : tables.Table) → HoldsTable table.now t →
        calls.new.items ≡ calls.old.items ++ spec.calls_of_part t procedures.now (shown_asked asked.now)) }
{
    let mut pieces = Vec::new(alloc);
    add_pieces(&mut pieces, asked)?;
    let made = pieces.as_slice();
    add_part_calls(table, procedures, calls, asked, made)?;
    Ok(made.len())
}
