// The parts of a module's declarations.
#![tactic(auto, using(crate::proofs::PartLists::part_steps, crate::proofs::Placing::place_steps, pearl_names::proofs::Offered::list_steps, std::proofs::lemmas::Grind::common_steps))]

ghost use Rattle.std.specs.Prelude.{◌≡◌, ◌+◌, ◌++◌, map, IfOk, OnOk, false};
ghost use Rattle.std.specs.List.{flat_map};
ghost use Rattle.pearl_tree.specs.ShownModules.{shown_body, shown_decl, shown_tree};
ghost use Rattle.pearl_names.specs.Listed.{stmts_shown};
ghost use Rattle.pearl_names.specs.Scopes.{as_stmts, scopes_in_all, scopes_in_decl};
ghost use Rattle.pearl_scope.specs.Parts as spec;
ghost use Rattle.pearl_scope.specs.PartLists.{parts_in};
ghost use Rattle.pearl_scope.specs.Placed.{placed_in, parts_at};

use crate::part::{
    Part, add_all_declared, add_body_declarations, add_params, add_returns, add_specs, add_typing,
};
use crate::places::{Place, Spot, place_body};
use crate::statement_part::add_place;
use pearl_names::collect::types_after;
use pearl_tree::statement::Body;
use pearl_tree::tree::{Decl, Tree};
use std::alloc::{AllocError as NoMemory, Global};

fn add_places<'a>(
    parts: &mut Vec<Part<'a>>,
    types: u32,
    places: &[Place<'a>],
) -> Result<(), NoMemory>
    ensures { OnOk result
        (parts_in parts.new.items ≡ parts_in parts.old.items ++ flat_map (parts_at types) (placed_in places.now)) }
{
    for place in places {
        add_place(parts, types, place)?;
    }
    Ok(())
}

// The parts of a body that is the scope of this number. It answers the number of the next scope.
fn add_body<'a>(
    alloc: Global,
    parts: &mut Vec<Part<'a>>,
    types: u32,
    scope: u32,
    body: &'a Body,
) -> Result<u32, NoMemory>
    ensures parts { OnOk result
        (parts_in parts.new.items ≡ parts_in parts.old.items ++ spec.body_parts types scope (shown_body body.now)) }
    ensures next { IfOk result (λ next. next ≡ scope + 1 + scopes_in_all (stmts_shown body.now.statements.items.items)) }
{
    add_body_declarations(parts, scope, types, body.declarations.as_slice())?;
    let mut places = Vec::new(alloc);
    let next = place_body(&mut places, scope, body)?;
    add_places(parts, types, places.as_slice())?;
    Ok(next)
}

// The parts of a declaration, where the next scope has the number `next`. It answers the number of the one behind.
fn add_decl<'a>(
    alloc: Global,
    parts: &mut Vec<Part<'a>>,
    types: u32,
    next: u32,
    decl: &'a Decl,
) -> Result<u32, NoMemory>
    ensures parts { OnOk result
        (parts_in parts.new.items ≡ parts_in parts.old.items ++ spec.decl_parts types next (shown_decl decl.now)) }
    ensures next { IfOk result (λ after. after ≡ next + scopes_in_decl (shown_decl decl.now)) }
{
    match decl {
        Decl::Length { sort, number, .. } => {
            parts.push(Part::Length {
                sort: *sort,
                number: *number,
            })?;
            Ok(next)
        }
        Decl::Type { typing, .. } => {
            add_typing(parts, 0, types, typing)?;
            Ok(next)
        }
        Decl::Declare { declared, .. } => {
            add_all_declared(parts, types, declared.as_slice())?;
            Ok(next)
        }
        Decl::Specify { specs, .. } => {
            add_specs(parts, specs.as_slice())?;
            Ok(next)
        }
        Decl::Task { body, .. } => {
            let after = add_body(alloc, parts, types, next, body)?;
            Ok(after)
        }
        Decl::Proc {
            params,
            returns,
            body,
            ..
        } => {
            add_params(parts, params.as_slice())?;
            add_returns(parts, returns)?;
            let after = add_body(alloc, parts, types, next, body)?;
            Ok(after)
        }
    }
}

fn add_decls<'a>(
    alloc: Global,
    parts: &mut Vec<Part<'a>>,
    mut decls: &'a [Decl],
) -> Result<(), NoMemory>
    ensures { OnOk result
        (parts_in parts.new.items ≡ parts_in parts.old.items ++ spec.decls_parts 0 1 (map shown_decl decls.entry.now)) }
{
    let mut types = 0;
    let mut next = 1;
    while let [decl, rest @ ..] = decls {
        next = add_decl(alloc, parts, types, next, decl)?;
        types = types_after(types, decl)?;
        decls = rest;
    }
    Ok(())
}

/// The parts of a module in which one of the rules S2 to S9 may be broken, in the order of the text.
pub fn parts_of_module<'a>(alloc: Global, tree: &'a Tree) -> Result<Vec<Part<'a>>, NoMemory>
    ensures { IfOk result (λ parts. parts_in parts.items ≡ spec.parts_of (shown_tree tree.now)) }
{
    let mut parts = Vec::new(alloc);
    add_decls(alloc, &mut parts, tree.declarations.as_slice())?;
    Ok(parts)
}
