// The leaves of a variable one after the other, each with the constants that are left for it.

ghost use Rattle.std.specs.Prelude.{◌≡◌, ◌↔◌, ◌+◌, ℕ, false, [], List, Some, map, IfOk, OnOk, IsTrue};
ghost use Rattle.pearl_names.specs.Holding.{HoldsForm};
ghost use Rattle.pearl_names.specs.Tables as tables;
ghost use Rattle.pearl_names.specs.Layout.{Leaf, leaves_of};
ghost use Rattle.pearl_tree.specs.ShownLiterals.{shown_const};
ghost use Rattle.pearl_resolve_tables.specs.Laying as spec;
ghost use Rattle.pearl_resolve_tables.specs.Walks.{AllLeft, GoesOn, PassesAlike};

use crate::counts::{all_elements, sum};
use crate::values::left_behind;
use crate::walk::{Found, Frame, descend, go_on};
use pearl_names::sense::Form;
use pearl_names::types::StructForm;
use pearl_tree::literal::Const;
use pearl_value::kind::Kind;
use std::alloc::{AllocError, Global};

/// More leaves than a variable may have.
pub(crate) const TOO_MANY: u32 = 65_537;

fn is_same_kind(kind: Kind, other: Kind) -> bool
    ensures { IsTrue result ↔ (kind ≡ other) }
{
    kind == other
}

/// A walk over the leaves of a variable that has come to one of them, if one is left.
#[derive(Drop)]
pub(crate) struct Filling<'a> {
    pub name: Vec<u8>,
    frames: Vec<Frame>,
    pub next: Option<Found>,
    /// The constants that are left for this leaf and those behind it.
    pub constants: &'a [Const],
    /// How many slots lie before this leaf.
    pub slots: u32,
}

impl Filling<'_> {
    /// Begins with the first leaf. Names are made where they are asked for.
    pub fn start<'a>(
        alloc: Global,
        forms: &[StructForm],
        form: &Form,
        asked: bool,
        name: &[u8],
        constants: &'a [Const],
    ) -> Result<Filling<'a>, AllocError>
        ensures constants { IfOk result (λ filling. filling.constants.now ≡ constants.now) }
        ensures slots { IfOk result (λ filling. filling.slots ≡ 0) }
        ensures goes { IfOk result (λ filling. (of : tables.Form) → HoldsForm forms.now (Some form.now) (Some of) →
            GoesOn forms.now asked name.now filling.next filling.frames.items filling.name.items (leaves_of [] of.bounds of.shape)) }
    {
        let mut name = Vec::from_slice(alloc, name)?;
        let mut frames = Vec::new(alloc);
        let count = all_elements(form.bounds.as_slice())?;
        let first = descend(forms, asked, form.part, count, &mut name, &mut frames)?;
        Ok(Filling {
            name,
            frames,
            next: Some(first),
            constants,
            slots: 0,
        })
    }

    /// Goes past a leaf that the walk has come to.
    pub fn pass(
        &mut self,
        forms: &[StructForm],
        asked: bool,
        found: Found,
    ) -> Result<(), AllocError>
        ensures constants { OnOk result (map shown_const self.new.constants.now ≡ spec.left_behind found.count (map shown_const self.old.constants.now)) }
        ensures slots { OnOk result (self.new.slots ≡ self.old.slots + found.count) }
        ensures goes { OnOk result ((base : List ℕ) (left : List Leaf) → AllLeft forms.now asked base self.old.frames.items self.old.name.items left →
            GoesOn forms.now asked base self.new.next self.new.frames.items self.new.name.items left) }
    {
        self.constants = left_behind(found.count, self.constants);
        self.slots = sum(self.slots, found.count)?;
        self.next = go_on(forms, asked, &mut self.name, &mut self.frames)?;
        Ok(())
    }

    /// Goes past a leaf that the walk has come to and those of its kind next to it, and answers how many slots these have.
    pub fn pass_alike(&mut self, forms: &[StructForm], found: Found) -> Result<u32, AllocError>
        ensures slots { IfOk result (λ count. self.new.slots ≡ self.old.slots + count) }
        ensures passes { IfOk result (λ count. (leaves : List Leaf) → GoesOn forms.now false [] (Some found) self.old.frames.items self.old.name.items leaves →
            PassesAlike forms.now found.kind count self.new.next self.new.frames.items self.new.name.items leaves) }
    {
        let mut count = found.count;
        self.pass(forms, false, found)?;
        for _leaf in 0..TOO_MANY {
            let next = match self.next {
                Some(next) => next,
                None => return Ok(count),
            };
            if !is_same_kind(next.kind, found.kind) {
                return Ok(count);
            }
            count = sum(count, next.count)?;
            self.pass(forms, false, next)?;
        }
        Err(AllocError)
    }
}
