// The names of scopes, each with its sort.
#![tactic(auto, using(crate::proofs::Sorting::name_steps, crate::proofs::Collecting::group_steps, crate::proofs::Lists::list_steps, std::proofs::lemmas::Grind::common_steps))]

ghost use Rattle.std.specs.Prelude.{◌≡◌, ◌++◌, ◌∷◌, [], IfOk, OnOk};
ghost use Rattle.pearl_tree.specs.ShownModules.{shown_tree};
ghost use Rattle.pearl_names.specs.Groups.{shown_meaning, group_entries, entries_in, shown_scope, scopes_in_list};
ghost use Rattle.pearl_names.specs.Scopes.{scopes_of};
ghost use Rattle.pearl_names.specs.Sorts as spec;

use crate::collect::scopes_of_module;
use crate::group::{Group, Meaning, ScopeGroups};
use crate::names::ScopeTable;
use crate::scope::{NameSort, SortedName};
use pearl_tree::name::Name;
use pearl_tree::tree::Tree;
use std::alloc::{AllocError as NoMemory, Global};

fn sort_of(meaning: &Meaning<'_>) -> NameSort
    ensures { result ≡ spec.sort_of (shown_meaning meaning.now) }
{
    match meaning {
        Meaning::Variable { .. } => NameSort::Variable,
        Meaning::Control(_) => NameSort::Control,
        Meaning::Parameter { .. } => NameSort::Parameter,
        Meaning::NewType(number) => NameSort::NewType(*number),
        Meaning::Semaphore => NameSort::Semaphore,
        Meaning::Interrupt => NameSort::Interrupt,
        Meaning::Dation { .. } => NameSort::Dation,
        Meaning::Task => NameSort::Task,
        Meaning::Procedure { .. } => NameSort::Procedure,
    }
}

fn add_name(into: &mut Vec<SortedName>, name: &Name, sort: NameSort) -> Result<(), NoMemory>
    ensures { OnOk result (into.new.items ≡ into.old.items ++ spec.names_as sort (name.now ∷ [])) }
{
    let text = name.text.clone()?;
    let place = name.place;
    into.push(SortedName {
        name: Name { text, place },
        sort,
    })?;
    Ok(())
}

fn add_names(into: &mut Vec<SortedName>, names: &[Name], sort: NameSort) -> Result<(), NoMemory>
    ensures { OnOk result (into.new.items ≡ into.old.items ++ spec.names_as sort names.now) }
{
    for name in names {
        add_name(into, name, sort)?;
    }
    Ok(())
}

fn add_group(into: &mut Vec<SortedName>, group: &Group<'_>) -> Result<(), NoMemory>
    ensures { OnOk result (into.new.items ≡ into.old.items ++ spec.sorted_names (group_entries group.now)) }
{
    add_names(into, group.names, sort_of(&group.meaning))
}

fn sorted(alloc: Global, groups: &[Group<'_>]) -> Result<Vec<SortedName>, NoMemory>
    ensures { IfOk result (λ names. names.items ≡ spec.sorted_names (entries_in groups.now)) }
{
    let mut names = Vec::new(alloc);
    for group in groups {
        add_group(&mut names, group)?;
    }
    Ok(names)
}

fn names_of_scope(alloc: Global, scope: &ScopeGroups<'_>) -> Result<ScopeTable, NoMemory>
    ensures { IfOk result (λ names. names ≡ spec.scope_names (shown_scope scope.now)) }
{
    let names = sorted(alloc, scope.groups.as_slice())?;
    let table = ScopeTable::new(alloc, scope.outer, names)?;
    Ok(table)
}

/// The names of these scopes: each with its sort, in order.
pub fn names_of(alloc: Global, scopes: &[ScopeGroups<'_>]) -> Result<Vec<ScopeTable>, NoMemory>
    ensures { IfOk result (λ names. names.items ≡ spec.names_of_scopes (scopes_in_list scopes.now)) }
{
    let mut names = Vec::new(alloc);
    for scope in scopes {
        let table = names_of_scope(alloc, scope)?;
        names.push(table)?;
    }
    Ok(names)
}

/// The names of all scopes of a module, by the scopes' numbers: each name with its sort, in order, also where a rule is
/// broken.
pub fn names_of_module(alloc: Global, tree: &Tree) -> Result<Vec<ScopeTable>, NoMemory>
    ensures { IfOk result (λ scopes. scopes.items ≡ spec.names_of_scopes (scopes_of (shown_tree tree.now))) }
{
    let scopes = scopes_of_module(alloc, tree)?;
    let names = names_of(alloc, scopes.as_slice())?;
    Ok(names)
}
