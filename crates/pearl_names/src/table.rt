// The table of names: what each name stands for where it is seen.

ghost use Rattle.std.specs.Prelude.{◌≡◌, [], option_copied, unwrap_or, slice_get, IfOk};
ghost use Rattle.pearl_tree.specs.ShownModules.{shown_tree};
ghost use Rattle.pearl_names.specs.Found.{found_from, names_in};
ghost use Rattle.pearl_names.specs.Holding.{HoldsAll, HoldsFound, HoldsTable, held_at};
ghost use Rattle.pearl_names.specs.Tables as spec;

use crate::collect::scopes_of_module;
use crate::forms::types_of;
use crate::length::{Lengths, lengths_set};
use crate::meaning::{Found, find_from};
use crate::names::ScopeTable;
use crate::scope::{SortedName, View};
use crate::sense::{ScopeSenses, Sense};
use crate::senses::all_senses;
use crate::sorted::names_of;
use crate::types::StructForm;
use arrayvec::ArrayVec;
use pearl_tree::tree::Tree;
use std::alloc::{AllocError as NoMemory, Global};

/// What the names of a module stand for, scope by scope, with its default lengths and the forms of its STRUCTs.
#[derive(Drop)]
pub struct SenseTable {
    names: Vec<ScopeTable>,
    senses: Vec<ScopeSenses>,
    lengths: Lengths,
    forms: Vec<StructForm>,
}

fn sense_in(scopes: &[ScopeSenses], found: Found) -> Option<&Sense>
    ensures { option_copied result ≡ held_at scopes.now found }
{
    let scope = scopes.get(found.scope as usize)?;
    scope.senses.get(found.entry as usize)
}

impl SenseTable {
    /// The scopes with their names, by their numbers.
    pub fn scopes(&self) -> &[ScopeTable]
        ensures { result.now ≡ self.now.names.items }
    {
        self.names.as_slice()
    }

    /// What the names of the scopes stand for, in the same order.
    pub fn senses(&self) -> &[ScopeSenses]
        ensures { result.now ≡ self.now.senses.items }
    {
        self.senses.as_slice()
    }

    /// The names of the scope of a number, also those that are declared again.
    pub fn names_in(&self, scope: u32) -> &[SortedName]
        ensures { result.now ≡ names_in (slice_get self.now.names.items scope) }
    {
        match self.names.get(scope as usize) {
            Some(scope) => scope.names(),
            None => &[],
        }
    }

    /// What the names of the scope of a number stand for, in the same order.
    pub fn senses_in(&self, scope: u32) -> &[Sense]
        ensures { (t : spec.Table) → HoldsTable self.now t →
            HoldsAll self.now.forms.items result.now (unwrap_or (slice_get t.senses scope) []) }
    {
        match self.senses.get(scope as usize) {
            Some(scope) => scope.senses.as_slice(),
            None => &[],
        }
    }

    /// The declared name that a name means where it is seen from there, if a visible scope declares it.
    pub fn find_from(&self, view: View, text: &ArrayVec<u8, 63>) -> Option<Found>
        ensures { (t : spec.Table) → HoldsTable self.now t → result ≡ found_from t.names view text.now.items }
    {
        find_from(self.names.as_slice(), view, text)
    }

    /// What a declared name stands for.
    pub fn sense_at(&self, found: Found) -> Option<&Sense>
        ensures { (t : spec.Table) → HoldsTable self.now t →
            HoldsFound self.now.forms.items (option_copied result) (spec.sense_at t.senses found) }
    {
        sense_in(self.senses.as_slice(), found)
    }

    /// What a name stands for where it is seen from there, if a visible scope declares it.
    pub fn sense_from(&self, view: View, text: &ArrayVec<u8, 63>) -> Option<&Sense>
        ensures { (t : spec.Table) → HoldsTable self.now t →
            HoldsFound self.now.forms.items (option_copied result) (spec.sense_from t view text.now.items) }
    {
        let found = self.find_from(view, text)?;
        self.sense_at(found)
    }

    /// The default lengths of the module.
    pub fn lengths(&self) -> &Lengths
        ensures { result.now ≡ self.now.lengths }
    {
        &self.lengths
    }

    /// The forms of its STRUCTs, by their numbers.
    pub fn forms(&self) -> &[StructForm]
        ensures { result.now ≡ self.now.forms.items }
    {
        self.forms.as_slice()
    }
}

/// The table of names of a module.
pub fn table_of(alloc: Global, tree: &Tree) -> Result<SenseTable, NoMemory>
    ensures { IfOk result (λ table. HoldsTable table (spec.table_of (shown_tree tree.now))) }
{
    let scopes = scopes_of_module(alloc, tree)?;
    let names = names_of(alloc, scopes.as_slice())?;
    let lengths = lengths_set(alloc, tree)?;
    let decls = tree.declarations.as_slice();
    let mut types = types_of(alloc, names.as_slice(), &lengths, decls)?;
    let senses = all_senses(
        alloc,
        names.as_slice(),
        &lengths,
        &mut types,
        scopes.as_slice(),
    )?;
    Ok(SenseTable {
        names,
        senses,
        lengths,
        forms: types.forms,
    })
}
