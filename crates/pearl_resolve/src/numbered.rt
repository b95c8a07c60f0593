// The table of names of a module with the number of each name.

ghost use Rattle.std.specs.Prelude.{◌≡◌, [], List, Some, option_map, unwrap_or, slice_get};
ghost use Rattle.std.specs.Option.{option_copied};
ghost use Rattle.pearl_names.specs.Holding.{HoldsSense};
ghost use Rattle.pearl_names.specs.Tables as tables;
ghost use Rattle.pearl_names.specs.declared.types.StructForm.{StructForm as StructFormOf};
ghost use Rattle.pearl_resolve.specs.Expressions as spec;
ghost use Rattle.pearl_resolve.specs.Holding.{Becomes, numbers_held, parameters_in};

use pearl_names::meaning::Found;
use pearl_names::scope::View;
use pearl_names::sense::{Sense, Signature};
use pearl_names::table::SenseTable;
use pearl_tree::name::Name;

/// The numbers of the names of one scope, in their order.
#[derive(Drop)]
pub struct ScopeNumbers {
    pub numbers: Vec<u32>,
}

/// What the names of a module stand for, and the number of each: of a variable of the module that of its first leaf, of
/// one of a routine that of its first cell, and of any other thing that among those of its sort.
#[derive(Drop)]
pub struct NumberedTable {
    pub table: SenseTable,
    /// Scope by scope, as in the table.
    pub numbers: Vec<ScopeNumbers>,
}

/// The number at an index, 0 where there is none.
pub(crate) fn number_or_zero(numbers: &[u32], index: u32) -> u32
    ensures { result ≡ unwrap_or (slice_get numbers.now index) 0 }
{
    match numbers.get(index as usize) {
        Some(number) => *number,
        None => 0,
    }
}

fn numbers_in(scopes: &[ScopeNumbers], scope: u32) -> &[u32]
    ensures { result.now ≡ unwrap_or (slice_get (numbers_held scopes.now) scope) [] }
{
    match scopes.get(scope as usize) {
        Some(scope) => scope.numbers.as_slice(),
        None => &[],
    }
}

fn signature_in(sense: &Sense) -> Option<&Signature>
    ensures { (forms : List StructFormOf) (of : spec.Meant) → HoldsSense forms sense.now of.sense →
        option_map parameters_in (option_copied result) ≡ spec.params_of (Some of) }
{
    match sense {
        Sense::Procedure(signature) => Some(signature),
        Sense::Variable { .. } => None,
        Sense::Control(_) => None,
        Sense::Parameter(_) => None,
        Sense::NewType => None,
        Sense::Semaphore => None,
        Sense::Interrupt => None,
        Sense::AlphicDation(_) => None,
        Sense::BasicDation { .. } => None,
        Sense::Task => None,
    }
}

impl NumberedTable {
    /// The number of a declared name.
    pub fn number_at(&self, found: Found) -> u32
        ensures { result ≡ spec.number_at (numbers_held self.now.numbers.items) found }
    {
        number_or_zero(
            numbers_in(self.numbers.as_slice(), found.scope),
            found.entry,
        )
    }

    fn number_of_found(&self, found: Found) -> u32
        ensures { Becomes self.now result (λ of. unwrap_or (option_map (λ (thing : spec.Meant). thing.number) (spec.meant_at of found)) 0) }
    {
        match self.table.sense_at(found) {
            Some(_) => self.number_at(found),
            None => 0,
        }
    }

    /// The number of what a name means where it is seen from there: 0 where no visible scope declares it.
    pub fn number_of(&self, view: View, name: &Name) -> u32
        ensures { Becomes self.now result (λ of. spec.number_of of view name.now) }
    {
        match self.table.find_from(view, &name.text) {
            Some(found) => self.number_of_found(found),
            None => 0,
        }
    }

    fn signature_of_found(&self, found: Found) -> Option<&Signature>
        ensures { Becomes self.now (option_map parameters_in (option_copied result)) (λ of. spec.params_of (spec.meant_at of found)) }
    {
        match self.table.sense_at(found) {
            Some(sense) => signature_in(sense),
            None => None,
        }
    }

    /// What a call asks and answers, where a name means a procedure.
    pub fn signature_of(&self, view: View, name: &Name) -> Option<&Signature>
        ensures { Becomes self.now (option_map parameters_in (option_copied result)) (λ of. spec.params_of (spec.meant of view name.now)) }
    {
        match self.table.find_from(view, &name.text) {
            Some(found) => self.signature_of_found(found),
            None => None,
        }
    }
}
