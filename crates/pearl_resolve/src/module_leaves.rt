// The leaves of the module's variables.

ghost use Rattle.std.specs.Prelude.{◌≡◌, ◌++◌, map, IfOk, OnOk};
ghost use Rattle.std.specs.List.{flat_map};
ghost use Rattle.pearl_names.specs.declared.scope.View.TheVariants.{Within};
ghost use Rattle.pearl_program.specs.PlainPrograms.{plain_leaf};
ghost use Rattle.pearl_tree.specs.ShownDeclarations.{shown_declared};
ghost use Rattle.pearl_tree.specs.ShownLiterals.{shown_const};
ghost use Rattle.pearl_tree.specs.ShownModules.{shown_decl};
ghost use Rattle.pearl_resolve.specs.Expressions.{meant, meant_at};
ghost use Rattle.pearl_resolve.specs.Holding.{Becomes};
ghost use Rattle.pearl_resolve.specs.Resolve as spec;
ghost use Rattle.pearl_resolve.specs.Statements.{slots_of_meant};

use crate::numbered::NumberedTable;
use pearl_names::meaning::Found;
use pearl_names::scope::View;
use pearl_program::table::Leaf;
use pearl_resolve_tables::leaves::add_leaves;
use pearl_resolve_tables::values::left_behind;
use pearl_tree::declaration::Declared;
use pearl_tree::literal::Const;
use pearl_tree::name::Name;
use pearl_tree::tree::Decl;
use std::alloc::{AllocError, Global};

// Adds the leaves of what a name stands for, and answers how many slots they have.
fn add_found_leaves(
    alloc: Global,
    numbered: &NumberedTable,
    found: Found,
    name: &Name,
    constants: &[Const],
    into: &mut Vec<Leaf>,
) -> Result<u32, AllocError>
    ensures slots { IfOk result (λ count. Becomes numbered.now count (λ of. slots_of_meant (meant_at of found))) }
    ensures leaves { OnOk result (Becomes numbered.now (map plain_leaf into.new.items)
        (λ of. map plain_leaf into.old.items ++ spec.variable_leaves name.now (map shown_const constants.now) (meant_at of found))) }
{
    match numbered.table.sense_at(found) {
        Some(sense) => {
            let text = name.text.as_slice();
            let forms = numbered.table.forms();
            let count = add_leaves(alloc, forms, sense, text, constants, into)?;
            Ok(count)
        }
        None => Ok(0),
    }
}

fn add_name_leaves(
    alloc: Global,
    numbered: &NumberedTable,
    name: &Name,
    constants: &[Const],
    into: &mut Vec<Leaf>,
) -> Result<u32, AllocError>
    ensures slots { IfOk result (λ count. Becomes numbered.now count (λ of. slots_of_meant (meant of (Within 0) name.now))) }
    ensures leaves { OnOk result (Becomes numbered.now (map plain_leaf into.new.items)
        (λ of. map plain_leaf into.old.items ++ spec.variable_leaves name.now (map shown_const constants.now) (meant of (Within 0) name.now))) }
{
    match numbered.table.find_from(View::Within(0), &name.text) {
        Some(found) => {
            let count = add_found_leaves(alloc, numbered, found, name, constants, into)?;
            Ok(count)
        }
        None => Ok(0),
    }
}

// The constants run over the names of an item in order.
fn add_names_leaves(
    alloc: Global,
    numbered: &NumberedTable,
    names: &[Name],
    constants: &[Const],
    into: &mut Vec<Leaf>,
) -> Result<(), AllocError>
    ensures { OnOk result (Becomes numbered.now (map plain_leaf into.new.items)
        (λ of. map plain_leaf into.old.items ++ spec.names_leaves of (map shown_const constants.now) names.now)) }
{
    let mut left = constants;
    for name in names {
        let count = add_name_leaves(alloc, numbered, name, left, into)?;
        left = left_behind(count, left);
    }
    Ok(())
}

fn add_declared_leaves(
    alloc: Global,
    numbered: &NumberedTable,
    declared: &Declared,
    into: &mut Vec<Leaf>,
) -> Result<(), AllocError>
    ensures { OnOk result (Becomes numbered.now (map plain_leaf into.new.items)
        (λ of. map plain_leaf into.old.items ++ spec.declared_leaves of (shown_declared declared.now))) }
{
    match declared {
        Declared::Item(item) => {
            let constants = item.init.as_slice();
            add_names_leaves(alloc, numbered, item.names.as_slice(), constants, into)?;
            Ok(())
        }
        Declared::Sema(_) => Ok(()),
    }
}

fn add_all_declared(
    alloc: Global,
    numbered: &NumberedTable,
    declared: &[Declared],
    into: &mut Vec<Leaf>,
) -> Result<(), AllocError>
    ensures { OnOk result (Becomes numbered.now (map plain_leaf into.new.items)
        (λ of. map plain_leaf into.old.items ++ flat_map (spec.declared_leaves of) (map shown_declared declared.now))) }
{
    for one in declared {
        add_declared_leaves(alloc, numbered, one, into)?;
    }
    Ok(())
}

fn add_decl_leaves(
    alloc: Global,
    numbered: &NumberedTable,
    decl: &Decl,
    into: &mut Vec<Leaf>,
) -> Result<(), AllocError>
    ensures { OnOk result (Becomes numbered.now (map plain_leaf into.new.items)
        (λ of. map plain_leaf into.old.items ++ spec.decl_leaves of (shown_decl decl.now))) }
{
    match decl {
        Decl::Declare { declared, .. } => {
            add_all_declared(alloc, numbered, declared.as_slice(), into)?;
            Ok(())
        }
        Decl::Length { .. } => Ok(()),
        Decl::Type { .. } => Ok(()),
        Decl::Specify { .. } => Ok(()),
        Decl::Task { .. } => Ok(()),
        Decl::Proc { .. } => Ok(()),
    }
}

/// The leaves of the variables that these declarations declare, in order.
pub(crate) fn module_leaves(
    alloc: Global,
    numbered: &NumberedTable,
    decls: &[Decl],
) -> Result<Vec<Leaf>, AllocError>
    ensures { IfOk result (λ leaves. Becomes numbered.now (map plain_leaf leaves.items)
        (λ of. flat_map (spec.decl_leaves of) (map shown_decl decls.now))) }
{
    let mut leaves = Vec::new(alloc);
    for decl in decls {
        add_decl_leaves(alloc, numbered, decl, &mut leaves)?;
    }
    Ok(leaves)
}
