// What the semaphores of a module have at first.

ghost use Rattle.std.specs.Prelude.{◌≡◌, ◌++◌, map, option_map, slice_get, unwrap_or, IfOk, OnOk};
ghost use Rattle.std.specs.List.{flat_map};
ghost use Rattle.pearl_tree.specs.ShownDeclarations.{shown_declared, shown_names};
ghost use Rattle.pearl_tree.specs.ShownModules.{shown_decl, shown_tree};
ghost use Rattle.pearl_tree.specs.Names.{names_of};
ghost use Rattle.pearl_resolve_tables.specs.Presets as spec;

use pearl_tree::declaration::{Declared, Sema};
use pearl_tree::name::Number;
use pearl_tree::tree::{Decl, Tree};
use pearl_value::listing::Listing;
use std::alloc::{AllocError, Global};

// The number at an index, or 0 where there is none.
fn preset_at(numbers: &[Number], index: usize) -> Result<u32, AllocError>
    ensures { IfOk result (λ value. value ≡ unwrap_or (option_map (λ number. number.value) (slice_get numbers.now index)) 0) }
{
    match numbers.get(index) {
        Some(number) => match u32::try_from(number.value) {
            Ok(value) => Ok(value),
            Err(_) => Err(AllocError),
        },
        None => Ok(0),
    }
}

fn add_presets(sema: &Sema, into: &mut Vec<u32>) -> Result<(), AllocError>
    ensures { OnOk result (into.new.items ≡ into.old.items ++
        spec.presets (names_of (shown_names sema.now.names)) sema.now.preset.items.items) }
{
    let names = sema.names.as_slice();
    for index in 0..names.len() {
        into.push(preset_at(sema.preset.as_slice(), index)?)?;
    }
    Ok(())
}

fn add_declared(declared: &Declared, into: &mut Vec<u32>) -> Result<(), AllocError>
    ensures { OnOk result (into.new.items ≡ into.old.items ++ spec.declared_presets (shown_declared declared.now)) }
{
    match declared {
        Declared::Item(_) => Ok(()),
        Declared::Sema(sema) => add_presets(sema, into),
    }
}

fn add_all_declared(declared: &[Declared], into: &mut Vec<u32>) -> Result<(), AllocError>
    ensures { OnOk result (into.new.items ≡ into.old.items ++ flat_map spec.declared_presets (map shown_declared declared.now)) }
{
    for one in declared {
        add_declared(one, into)?;
    }
    Ok(())
}

fn add_decl(decl: &Decl, into: &mut Vec<u32>) -> Result<(), AllocError>
    ensures { OnOk result (into.new.items ≡ into.old.items ++ spec.decl_presets (shown_decl decl.now)) }
{
    match decl {
        Decl::Declare { declared, .. } => add_all_declared(declared.as_slice(), into),
        Decl::Length { .. } => Ok(()),
        Decl::Type { .. } => Ok(()),
        Decl::Specify { .. } => Ok(()),
        Decl::Task { .. } => Ok(()),
        Decl::Proc { .. } => Ok(()),
    }
}

/// What the semaphores of a module have at first, in order. A number beyond 2^32 - 1 counts as want of memory.
pub fn module_presets(alloc: Global, tree: &Tree) -> Result<Listing<u32>, AllocError>
    ensures { IfOk result (λ made. made ≡ flat_map spec.decl_presets (shown_tree tree.now).declarations) }
{
    let mut made = Vec::new(alloc);
    for decl in tree.declarations.as_slice() {
        add_decl(decl, &mut made)?;
    }
    Ok(Listing::new(made))
}
