// The leaves of a variable one after the other, each with its name where names are asked for. TYPEs may be thousands
// deep, so what is left of each STRUCT on the way stands in a list; where no names are asked for, STRUCTs with one field
// are gone past.

ghost use Rattle.std.specs.Prelude.{◌≡◌, ◌+◌, ◌*◌, ◌++◌, ◌∷◌, [], ℕ, true, Some, List, take, IfOk, OnOk};
ghost use Rattle.pearl_names.specs.Counts.{cut};
ghost use Rattle.pearl_names.specs.Layout.{Leaf};
ghost use Rattle.pearl_resolve_tables.specs.Laying.{path_name};
ghost use Rattle.pearl_resolve_tables.specs.Walks.{AllLeft, ComesTo, GoesOn, HasLeaves};

use crate::counts::{product, whole};
use arrayvec::ArrayVec;
use pearl_names::types::{Elements, FieldForm, StructForm, TypeRef, end_of};
use pearl_value::kind::Kind;
use std::alloc::AllocError;

/// A leaf that a walk has come to: the kind of its elements, and how many it has.
#[derive(Clone, Copy)]
pub(crate) struct Found {
    pub kind: Kind,
    pub count: u32,
}

/// What is left of a STRUCT of so many elements: its fields from an index on. Its name has so many bytes.
#[derive(Clone, Copy)]
pub(crate) struct Frame {
    pub number: u32,
    pub next: usize,
    pub count: u32,
    pub bytes: usize,
}

// The name of a STRUCT, a point, and that of a field.
fn extend_name(bytes: usize, key: &ArrayVec<u8, 63>, name: &mut Vec<u8>) -> Result<(), AllocError>
    ensures { OnOk result (name.new.items ≡ take bytes name.old.items ++ 46 ∷ key.now.items) }
{
    name.truncate(bytes);
    name.push(b'.')?;
    name.extend_from_slice(key.as_slice())?;
    Ok(())
}

fn past_field(frame: Frame) -> Result<Frame, AllocError>
    ensures { IfOk result (λ past. past ≡ record frame { next = frame.next + 1 }) }
{
    match frame.next.checked_add(1) {
        Some(next) => Ok(Frame { next, ..frame }),
        None => Err(AllocError),
    }
}

// Goes into the next field of a STRUCT, and answers how many elements that has.
fn enter(
    asked: bool,
    frame: Frame,
    key: &ArrayVec<u8, 63>,
    field: &FieldForm,
    name: &mut Vec<u8>,
    frames: &mut Vec<Frame>,
) -> Result<u32, AllocError>
    ensures frames { OnOk result (frames.new.items ≡ frames.old.items ++ record frame { next = frame.next + 1 } ∷ []) }
    ensures name { OnOk result (asked ≡ true → name.new.items ≡ take frame.bytes name.old.items ++ 46 ∷ key.now.items) }
    ensures count { IfOk result (λ count. (n : ℕ) → field.now.elements ≡ cut n → count ≡ frame.count * n) }
{
    if asked {
        extend_name(frame.bytes, key, name)?;
    }
    frames.push(past_field(frame)?)?;
    let count = product(frame.count, whole(field.elements)?)?;
    Ok(count)
}

// What so many elements of a type come to. Where names are asked for, that is themselves.
fn ended(
    asked: bool,
    forms: &[StructForm],
    part: TypeRef,
    count: u32,
) -> Result<Elements, AllocError>
    ensures { IfOk result (λ end. (path : List (List ℕ)) (leaves : List Leaf) → HasLeaves forms.now part count path leaves →
        ComesTo forms.now asked end path leaves) }
{
    if asked {
        return Ok(Elements { part, count });
    }
    let end = end_of(forms, part);
    let each = whole(end.count)?;
    let count = product(count, each)?;
    Ok(Elements {
        part: end.part,
        count,
    })
}

/// Goes down to the first leaf of so many elements of a type. A STRUCT without fields, which no source has, counts as
/// want of memory.
pub(crate) fn descend(
    forms: &[StructForm],
    asked: bool,
    part: TypeRef,
    count: u32,
    name: &mut Vec<u8>,
    frames: &mut Vec<Frame>,
) -> Result<Found, AllocError>
    ensures { IfOk result (λ found. (base : List ℕ) (path : List (List ℕ)) (own left : List Leaf) → (asked ≡ true → name.old.items ≡ path_name base path) →
        HasLeaves forms.now part count path own → AllLeft forms.now asked base frames.old.items name.old.items left →
        GoesOn forms.now asked base (Some found) frames.new.items name.new.items (own ++ left)) }
{
    let mut earlier = forms;
    let first = ended(asked, forms, part, count)?;
    let mut part = first.part;
    let mut count = first.count;
    loop {
        let number = match part {
            TypeRef::Basic(kind) => return Ok(Found { kind, count }),
            TypeRef::Struct(number) => number,
        };
        let form = match earlier.get(number as usize) {
            Some(form) => form,
            None => return Err(AllocError),
        };
        earlier = &earlier[..number as usize];
        let (key, field) = match form.fields.get_index(0) {
            Some(entry) => entry,
            None => return Err(AllocError),
        };
        let frame = Frame {
            number,
            next: 0,
            count,
            bytes: name.len(),
        };
        let inner = enter(asked, frame, key, field, name, frames)?;
        let end = ended(asked, earlier, field.part, inner)?;
        part = end.part;
        count = end.count;
    }
}

/// Goes on to the next leaf, if there is one.
pub(crate) fn go_on(
    forms: &[StructForm],
    asked: bool,
    name: &mut Vec<u8>,
    frames: &mut Vec<Frame>,
) -> Result<Option<Found>, AllocError>
    ensures { IfOk result (λ next. (base : List ℕ) (left : List Leaf) → AllLeft forms.now asked base frames.old.items name.old.items left →
        GoesOn forms.now asked base next frames.new.items name.new.items left) }
{
    loop {
        let frame = match frames.pop() {
            Some(frame) => frame,
            None => return Ok(None),
        };
        let form = match forms.get(frame.number as usize) {
            Some(form) => form,
            None => return Err(AllocError),
        };
        match form.fields.get_index(frame.next) {
            Some((key, field)) => {
                let count = enter(asked, frame, key, field, name, frames)?;
                let found = descend(forms, asked, field.part, count, name, frames)?;
                return Ok(Some(found));
            }
            None => {}
        }
    }
}
