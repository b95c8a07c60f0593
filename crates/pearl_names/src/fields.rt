// The fields of a STRUCT, in order and by their names.

ghost use Rattle.std.specs.Prelude.{◌≡◌, ◌++◌, ◌∷◌, ◌<◌, ◌^◌, [], false, true, length, option_copied, option_map, is_none, slice_get, IfOk, IfSome, OnErr};
ghost use Rattle.std.specs.Map.{lookup};
ghost use Rattle.std.specs.Map.Iter.{deref_pair};
ghost use Rattle.std.specs.Str.{bytes_eq};

use crate::names::{FirstNames, copy_text, next_number, note, number_at};
use crate::types::FieldForm;
use arrayvec::ArrayVec;
use std::alloc::{AllocError as NoMemory, Global};
use std::collections::BTreeMap;
use std::marker::Model;

/// The fields of a STRUCT in order, with the place of each name at hand.
#[derive(Drop)]
pub struct FieldTable {
    entries: Vec<(ArrayVec<u8, 63>, FieldForm)>,
    places: FirstNames,
}

impl Model for FieldTable {
    ghost use Rattle.pearl_names.specs.FieldEntries.{FieldEntries, HasPlaces};

    ghost Value = { FieldEntries };

    ghost view = { λ s. record { entries = s.entries.items } };

    ghost invariant = { λ s. HasPlaces s.entries.items s.places.entries };
}

impl FieldTable {
    pub(crate) fn new(alloc: Global) -> FieldTable
        ensures empty { result.entries ≡ [] }
    {
        FieldTable {
            entries: Vec::new(alloc),
            places: BTreeMap::new(alloc),
        }
    }

    /// How many fields there are.
    pub fn len(&self) -> usize
        ensures { result ≡ length self.now.entries }
    {
        self.entries.len()
    }

    /// The field at a place, behind its name.
    pub fn get_index(&self, index: usize) -> Option<(&ArrayVec<u8, 63>, &FieldForm)>
        ensures entry { option_map deref_pair result ≡ slice_get self.now.entries index }
        ensures within { IfSome result (λ _. index < length self.now.entries) }
        ensures few { IfSome result (λ _. index < 2 ^ 63) }
    {
        match self.entries.get(index) {
            Some((name, field)) => Some((name, field)),
            None => None,
        }
    }

    /// The field of a name.
    pub fn get(&self, text: &ArrayVec<u8, 63>) -> Option<&FieldForm>
        ensures { option_copied result ≡ lookup (λ key. bytes_eq text.now.items key.items) self.now.entries }
    {
        match number_at(&self.places, text) {
            Some(place) => match self.get_index(place as usize) {
                Some((_, field)) => Some(field),
                None => None,
            },
            None => None,
        }
    }

    // Adds a field behind the others where none has its name, and answers whether none had it.
    pub(crate) fn add(
        &mut self,
        name: &ArrayVec<u8, 63>,
        field: FieldForm,
    ) -> Result<bool, NoMemory>
        ensures fresh { IfOk result (λ fresh. fresh ≡ is_none (lookup (λ key. bytes_eq name.now.items key.items) self.old.entries)) }
        ensures added { IfOk result (λ fresh. fresh ≡ true → self.new.entries ≡ self.old.entries ++ (name.now, field) ∷ []) }
        ensures twice { IfOk result (λ fresh. fresh ≡ false → self.new.entries ≡ self.old.entries) }
        ensures err { OnErr result (self.new.entries ≡ self.old.entries) }
    {
        let place = next_number(self.entries.as_slice())?;
        if number_at(&self.places, name).is_some() {
            return Ok(false);
        }
        self.entries.push((copy_text(name)?, field))?;
        match note(&mut self.places, name, place) {
            Ok(_) => Ok(true),
            Err(error) => {
                self.entries.pop();
                Err(error)
            }
        }
    }
}
