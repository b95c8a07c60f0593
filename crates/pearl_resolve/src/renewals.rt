// The first values of the variables that a scope declares.

ghost use Rattle.std.specs.Prelude.{◌≡◌, map, IfOk, OnOk};
ghost use Rattle.pearl_program.specs.PlainStatements.{OfRenew, plain_stmt, plain_stmts, plain_values};
ghost use Rattle.pearl_tree.specs.Names.{names_of};
ghost use Rattle.pearl_tree.specs.ShownDeclarations.{shown_item, shown_names};
ghost use Rattle.pearl_tree.specs.ShownLiterals.{shown_const};
ghost use Rattle.pearl_tree.specs.ShownStatements.{shown_body_decl};
ghost use Rattle.pearl_names.specs.declared.scope.View.TheVariants.{Within};
ghost use Rattle.pearl_resolve.specs.Expressions.{meant, meant_at};
ghost use Rattle.pearl_resolve.specs.Holding.{Becomes, values_renewals};
ghost use Rattle.pearl_resolve.specs.Statements as spec;

use crate::numbered::NumberedTable;
use pearl_names::meaning::Found;
use pearl_names::scope::View;
use pearl_program::statement::{Renewal, Stmt};
use pearl_program::table::FirstValues;
use pearl_resolve_tables::counts::sum;
use pearl_resolve_tables::leaves::add_first_values;
use pearl_resolve_tables::values::left_behind;
use pearl_tree::declaration::Item;
use pearl_tree::literal::Const;
use pearl_tree::name::Name;
use pearl_tree::statement::BodyDecl;
use std::alloc::{AllocError, Global};

fn renewal(alloc: Global, cell: u32, values: FirstValues) -> Result<Stmt, AllocError>
    ensures { IfOk result (λ s. plain_stmt s ≡ OfRenew cell (plain_values values)) }
{
    let made = Box::new(alloc, Renewal { cell, values })?;
    Ok(Stmt::Renew(made))
}

// The cells from this one on get these first values.
fn add_values_renewals(
    alloc: Global,
    cell: u32,
    values: Vec<FirstValues>,
    into: &mut Vec<Stmt>,
) -> Result<(), AllocError>
    ensures { OnOk result (plain_stmts into.new.items ≡ spec.joined (plain_stmts into.old.items) (values_renewals cell (map plain_values values.items))) }
{
    let mut next = cell;
    for own in values {
        let count = own.count;
        let made = renewal(alloc, next, own)?;
        into.push(made)?;
        next = sum(next, count)?;
    }
    Ok(())
}

// Adds the renewals of what a name stands for, and answers how many cells they have.
fn add_found_renewals(
    alloc: Global,
    numbered: &NumberedTable,
    found: Found,
    constants: &[Const],
    into: &mut Vec<Stmt>,
) -> Result<u32, AllocError>
    ensures slots { IfOk result (λ count. Becomes numbered.now count (λ of. spec.slots_of_meant (meant_at of found))) }
    ensures renewals { OnOk result (Becomes numbered.now (plain_stmts into.new.items)
        (λ of. spec.joined (plain_stmts into.old.items) (spec.variable_renewals (map shown_const constants.now) (meant_at of found)))) }
{
    match numbered.table.sense_at(found) {
        Some(sense) => {
            let mut values = Vec::new(alloc);
            let forms = numbered.table.forms();
            let count = add_first_values(alloc, forms, sense, constants, &mut values)?;
            add_values_renewals(alloc, numbered.number_at(found), values, into)?;
            Ok(count)
        }
        None => Ok(0),
    }
}

fn add_name_renewals(
    alloc: Global,
    numbered: &NumberedTable,
    scope: u32,
    name: &Name,
    constants: &[Const],
    into: &mut Vec<Stmt>,
) -> Result<u32, AllocError>
    ensures slots { IfOk result (λ count. Becomes numbered.now count (λ of. spec.slots_of_meant (meant of (Within scope) name.now))) }
    ensures renewals { OnOk result (Becomes numbered.now (plain_stmts into.new.items)
        (λ of. spec.joined (plain_stmts into.old.items) (spec.variable_renewals (map shown_const constants.now) (meant of (Within scope) name.now)))) }
{
    match numbered.table.find_from(View::Within(scope), &name.text) {
        Some(found) => {
            let count = add_found_renewals(alloc, numbered, found, constants, into)?;
            Ok(count)
        }
        None => Ok(0),
    }
}

// The constants run over the names of an item in order.
fn add_names_renewals(
    alloc: Global,
    numbered: &NumberedTable,
    scope: u32,
    names: &[Name],
    constants: &[Const],
    into: &mut Vec<Stmt>,
) -> Result<(), AllocError>
    ensures { OnOk result (Becomes numbered.now (plain_stmts into.new.items)
        (λ of. spec.joined (plain_stmts into.old.items) (spec.names_renewals of scope (map shown_const constants.now) names.now))) }
{
    let mut left = constants;
    for name in names {
        let count = add_name_renewals(alloc, numbered, scope, name, left, into)?;
        left = left_behind(count, left);
    }
    Ok(())
}

fn add_items_renewals(
    alloc: Global,
    numbered: &NumberedTable,
    scope: u32,
    items: &[Item],
    into: &mut Vec<Stmt>,
) -> Result<(), AllocError>
    ensures { OnOk result (Becomes numbered.now (plain_stmts into.new.items)
        (λ of. spec.joined (plain_stmts into.old.items) (spec.items_renewals of scope (map shown_item items.now)))) }
{
    for item in items {
        let constants = item.init.as_slice();
        add_names_renewals(
            alloc,
            numbered,
            scope,
            item.names.as_slice(),
            constants,
            into,
        )?;
    }
    Ok(())
}

/// The variables that a scope declares get their first values.
pub(crate) fn add_renewals(
    alloc: Global,
    numbered: &NumberedTable,
    scope: u32,
    declarations: &[BodyDecl],
    into: &mut Vec<Stmt>,
) -> Result<(), AllocError>
    ensures { OnOk result (Becomes numbered.now (plain_stmts into.new.items)
        (λ of. spec.joined (plain_stmts into.old.items) (spec.declared_renewals of scope (map shown_body_decl declarations.now)))) }
{
    for declaration in declarations {
        add_items_renewals(alloc, numbered, scope, declaration.items.as_slice(), into)?;
    }
    Ok(())
}
