// The names that a module specifies.

ghost use Rattle.std.specs.Prelude.{◌≡◌, ◌++◌, map, IfOk, OnOk};
ghost use Rattle.std.specs.List.{flat_map};
ghost use Rattle.pearl_tree.specs.ShownDeclarations.{shown_spec};
ghost use Rattle.pearl_tree.specs.ShownModules.{shown_decl, shown_tree};
ghost use Rattle.pearl_system.specs.Specified as spec;

use arrayvec::ArrayVec;
use pearl_tree::declaration::{Class, Spec};
use pearl_tree::name::Name;
use pearl_tree::tree::{Decl, Tree};
use pearl_value::device::Direction;
use std::alloc::{AllocError as NoMemory, Global};

/// What a name is specified as.
#[derive(Clone, Copy)]
pub enum Form {
    Interrupt,
    Dation { direction: Direction, class: Class },
}

/// A specified name.
#[derive(Drop)]
pub struct Specified {
    pub text: ArrayVec<u8, 63>,
    pub place: u32,
    pub form: Form,
}

fn as_form(name: &Name, form: Form) -> Specified
    ensures { result ≡ spec.as_form form name.now }
{
    Specified {
        text: name.text.clone().unwrap(),
        place: name.place,
        form,
    }
}

fn add_names(into: &mut Vec<Specified>, names: &[Name], form: Form) -> Result<(), NoMemory>
    ensures { OnOk result (into.new.items ≡ into.old.items ++ map (spec.as_form form) names.now) }
{
    for name in names {
        into.push(as_form(name, form))?;
    }
    Ok(())
}

fn add_spec(into: &mut Vec<Specified>, part: &Spec) -> Result<(), NoMemory>
    ensures { OnOk result (into.new.items ≡ into.old.items ++ spec.specified_by (shown_spec part.now)) }
{
    match part {
        Spec::Interrupt { names, .. } => add_names(into, names.as_slice(), Form::Interrupt),
        Spec::Dation {
            names,
            direction,
            class,
            ..
        } => add_names(
            into,
            names.as_slice(),
            Form::Dation {
                direction: *direction,
                class: *class,
            },
        ),
    }
}

fn add_specs(into: &mut Vec<Specified>, parts: &[Spec]) -> Result<(), NoMemory>
    ensures { OnOk result (into.new.items ≡ into.old.items ++ flat_map spec.specified_by (map shown_spec parts.now)) }
{
    for part in parts {
        add_spec(into, part)?;
    }
    Ok(())
}

fn add_decl(into: &mut Vec<Specified>, decl: &Decl) -> Result<(), NoMemory>
    ensures { OnOk result (into.new.items ≡ into.old.items ++ spec.specified_in (shown_decl decl.now)) }
{
    match decl {
        Decl::Specify { specs, .. } => add_specs(into, specs.as_slice()),
        _ => Ok(()),
    }
}

/// The specified names of a module, in order of text.
pub(crate) fn specified_names(alloc: Global, tree: &Tree) -> Result<Vec<Specified>, NoMemory>
    ensures { IfOk result (λ names. names.items ≡ spec.specified (shown_tree tree.now)) }
{
    let decls = tree.declarations.as_slice();
    let mut names = Vec::new(alloc);
    for decl in decls {
        add_decl(&mut names, decl)?;
    }
    Ok(names)
}
