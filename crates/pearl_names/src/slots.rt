// The slots of a variable, in runs of one kind, without all of them being listed: a variable may have 2^60.

ghost use Rattle.std.specs.Prelude.{◌≡◌, ◌+◌, ◌*◌, ◌++◌, ◌<◌, ◌≤◌, [], ℕ, List, Option, Some, length, IfOk, OnOk, true, false};
ghost use Rattle.pearl_value.specs.declared.kind.Kind.{Kind as KindOf};
ghost use Rattle.pearl_names.specs.Forms.{StandsFor, FieldsStand, leaf_count};
ghost use Rattle.pearl_names.specs.Kinds.{kinds_among};
ghost use Rattle.pearl_names.specs.Leaps as leaps;
ghost use Rattle.pearl_names.specs.Leaps.{LeapStands, TwoLeaps, behind_slots, two_steps};
ghost use Rattle.pearl_names.specs.Shapes.{Shape, Fields};
ghost use Rattle.pearl_names.specs.Walks.{HasSlots, HasLeft, AllLeft, GoesOn, FindsNext, FindsWay, Lists, kinds_of_next, weight};
ghost use Rattle.pearl_names.specs.declared.slots.Left.TheVariants as left_of;
ghost use Rattle.pearl_names.specs.declared.types.Leap.{Leap as LeapOf};

use crate::kinds::{Kinds, NO_KINDS, has_kind, joined_kinds, one_kind};
use crate::types::{
    Elements, FieldForm, StructForm, TypeRef, begun_at, cut_product, has_leaf, kinds_from, leap_at,
};
use pearl_value::kind::Kind;
use std::alloc::{AllocError as NoMemory, Global};

/// So many slots of one kind, one after the other: those of a leaf.
#[derive(Clone, Copy, PartialEq, Eq, Debug)]
pub struct Run {
    pub kind: Kind,
    pub count: u32,
}

/// Slots that are listed, and which kinds are among those behind them.
#[derive(Drop)]
pub struct Slots {
    pub runs: Vec<Run>,
    pub behind: Kinds,
}

/// A part of a STRUCT: its fields from an index on, or what is behind a leap of so many steps, the one that is kept.
#[derive(Clone, Copy, PartialEq, Eq, Debug)]
pub enum Left {
    FieldsFrom(usize),
    Behind(u32),
}

/// What is left of so many elements of a STRUCT.
#[derive(Clone, Copy, PartialEq, Eq, Debug)]
pub struct Frame {
    pub number: u32,
    pub left: Left,
    pub count: u32,
}

/// Where a walk goes on within a STRUCT, and what it leaves of it.
#[derive(Clone, Copy, PartialEq, Eq, Debug)]
pub struct Way {
    pub left: Left,
    pub to: Elements,
}

/// A field with leaves, and the index behind it.
#[derive(Clone, Copy, PartialEq, Eq, Debug)]
pub struct NextField {
    pub field: FieldForm,
    pub after: usize,
}

// The first field from an index on that has leaves.
fn next_field(forms: &[StructForm], form: &StructForm, from: usize) -> Option<NextField>
    ensures { (fields : Fields) → FieldsStand forms.now 0 0 form.now.fields.entries fields → FindsNext forms.now result fields from }
{
    let mut index = from;
    loop {
        match form.fields.get_index(index) {
            Some((_, field)) => {
                index += 1;
                if has_leaf(forms, field.part) {
                    return Some(NextField {
                        field: *field,
                        after: index,
                    });
                }
            }
            None => return None,
        }
    }
}

// The way to a first leaf, where there is one: by the leap that is kept, or else into the first field that has leaves.
fn way_into(forms: &[StructForm], form: &StructForm) -> Option<Way>
    ensures { (fields : Fields) → FieldsStand forms.now 0 0 form.now.fields.entries fields →
        LeapStands forms.now form.now.leap form.now.fields.entries fields → FindsWay forms.now form.now.leap result fields }
{
    match form.leap {
        Some(leap) => Some(Way {
            left: Left::Behind(leap.steps),
            to: leap.to,
        }),
        None => match next_field(forms, form, 0) {
            Some(next) => Some(Way {
                left: Left::FieldsFrom(next.after),
                to: Elements {
                    part: next.field.part,
                    count: next.field.elements,
                },
            }),
            None => None,
        },
    }
}

// Goes down to the first leaf of so many elements of a type, and notes what is left on the way.
fn descend(
    forms: &[StructForm],
    stack: &mut Vec<Frame>,
    part: TypeRef,
    count: u32,
) -> Result<Option<Run>, NoMemory>
    ensures { IfOk result (λ run. (slots left : List KindOf) (found : HasSlots forms.now part count slots) →
        1 ≤ leaf_count found.shape → AllLeft forms.now stack.old.items left → GoesOn forms.now run stack.new.items (slots ++ left)) }
{
    let mut earlier = forms;
    let mut part = part;
    let mut count = count;
    loop {
        let number = match part {
            TypeRef::Basic(kind) => return Ok(Some(Run { kind, count })),
            TypeRef::Struct(number) => number,
        };
        let form = match earlier.get(number as usize) {
            Some(form) => form,
            None => return Ok(None),
        };
        earlier = &earlier[..number as usize];
        let way = match way_into(earlier, form) {
            Some(way) => way,
            None => return Ok(None),
        };
        stack.push(Frame {
            number,
            left: way.left,
            count,
        })?;
        let inner = cut_product(count, way.to.count);
        part = way.to.part;
        count = inner;
    }
}

// Notes what is behind two leaps from so many elements of a type, one after the other, which are fewer steps than these.
fn note_leaps(
    forms: &[StructForm],
    stack: &mut Vec<Frame>,
    of: Elements,
    steps: u32,
) -> Result<(), NoMemory>
    ensures left { OnOk result ((slots left : List KindOf) (found : HasSlots forms.now of.part of.count slots) (two : TwoLeaps forms.now of.part) →
        two_steps two < steps → AllLeft forms.now stack.old.items left →
        AllLeft forms.now stack.new.items (behind_slots (two_steps two) found.many found.shape ++ left)) }
    ensures lighter { OnOk result (weight stack.new.items ≤ weight stack.old.items + 4 * steps) }
{
    let near = match begun_at(forms, of.part) {
        Some(near) => near,
        None => return Ok(()),
    };
    let next = match begun_at(forms, near.leap.to.part) {
        Some(next) => next,
        None => return Ok(()),
    };
    if u64::from(near.leap.steps) + u64::from(next.leap.steps) >= u64::from(steps) {
        return Ok(());
    }
    stack.push(Frame {
        number: near.number,
        left: Left::Behind(near.leap.steps),
        count: of.count,
    })?;
    stack.push(Frame {
        number: next.number,
        left: Left::Behind(next.leap.steps),
        count: cut_product(of.count, near.leap.to.count),
    })?;
    Ok(())
}

// Notes what is behind a leap: the fields behind the first one, and where it is of more than one step what is behind the
// two leaps that follow the first one.
fn note_parts(
    forms: &[StructForm],
    stack: &mut Vec<Frame>,
    number: u32,
    steps: u32,
    count: u32,
) -> Result<(), NoMemory>
    ensures left { OnOk result ((own left : List KindOf) → HasLeft forms.now (record { number = number; left = left_of.Behind steps; count = count }) own →
        AllLeft forms.now stack.old.items left → AllLeft forms.now stack.new.items (own ++ left)) }
    ensures lighter { OnOk result (weight stack.new.items ≤ weight stack.old.items + 4 * steps + 1) }
{
    let form = match forms.get(number as usize) {
        Some(form) => form,
        None => return Ok(()),
    };
    let field = match form.fields.get_index(0) {
        Some((_, field)) => field,
        None => return Ok(()),
    };
    stack.push(Frame {
        number,
        left: Left::FieldsFrom(1),
        count,
    })?;
    if steps <= 1 {
        return Ok(());
    }
    let of = Elements {
        part: field.part,
        count: cut_product(count, field.elements),
    };
    note_leaps(forms, stack, of, steps)?;
    Ok(())
}

// Goes on to the next leaf.
fn go_on(forms: &[StructForm], stack: &mut Vec<Frame>) -> Result<Option<Run>, NoMemory>
    ensures { IfOk result (λ run. (left : List KindOf) → AllLeft forms.now stack.old.items left → GoesOn forms.now run stack.new.items left) }
{
    loop {
        let frame = match stack.pop() {
            Some(frame) => frame,
            None => return Ok(None),
        };
        match frame.left {
            Left::FieldsFrom(from) => {
                let form = match forms.get(frame.number as usize) {
                    Some(form) => form,
                    None => return Ok(None),
                };
                match next_field(forms, form, from) {
                    Some(next) => {
                        stack.push(Frame {
                            left: Left::FieldsFrom(next.after),
                            ..frame
                        })?;
                        let count = cut_product(frame.count, next.field.elements);
                        let run = descend(forms, stack, next.field.part, count)?;
                        return Ok(run);
                    }
                    None => {}
                }
            }
            Left::Behind(steps) => {
                if has_kind(kinds_past(forms, frame.number)) {
                    note_parts(forms, stack, frame.number, steps, frame.count)?;
                }
            }
        }
    }
}

// The kinds of what is behind the leap that is kept with a STRUCT.
fn kinds_past(forms: &[StructForm], number: u32) -> Kinds
    ensures { (leap : LeapOf) → leaps.leap_at forms.now number ≡ Some leap → result ≡ leap.behind }
{
    match leap_at(forms, number) {
        Some(leap) => leap.behind,
        None => NO_KINDS,
    }
}

fn kinds_left(forms: &[StructForm], frame: Frame) -> Kinds
    ensures { (slots : List KindOf) → HasLeft forms.now frame slots → result ≡ kinds_among slots }
{
    match frame.left {
        Left::FieldsFrom(next) => kinds_from(forms, frame.number, next),
        Left::Behind(_) => kinds_past(forms, frame.number),
    }
}

fn all_kinds_left(forms: &[StructForm], stack: &[Frame]) -> Kinds
    ensures { (slots : List KindOf) → AllLeft forms.now stack.now slots → result ≡ kinds_among slots }
{
    let mut kinds = NO_KINDS;
    for frame in stack {
        kinds = joined_kinds(kinds_left(forms, *frame), kinds);
    }
    kinds
}

// The first leaf of so many elements of a type, where it has one.
fn begin(
    forms: &[StructForm],
    stack: &mut Vec<Frame>,
    part: TypeRef,
    count: u32,
) -> Result<Option<Run>, NoMemory>
    ensures { IfOk result (λ run. (slots : List KindOf) → HasSlots forms.now part count slots → AllLeft forms.now stack.old.items [] →
        GoesOn forms.now run stack.new.items slots) }
{
    if !has_leaf(forms, part) {
        return Ok(None);
    }
    let run = descend(forms, stack, part, count)?;
    Ok(run)
}

fn kinds_of_run(run: Option<Run>) -> Kinds
    ensures { result ≡ kinds_of_next run }
{
    match run {
        Some(run) => one_kind(run.kind),
        None => NO_KINDS,
    }
}

/// The slots of so many elements of a type, of which runs are listed, up to so many.
pub fn slots_of(
    alloc: Global,
    forms: &[StructForm],
    part: TypeRef,
    elements: u32,
    most: usize,
) -> Result<Slots, NoMemory>
    ensures lists { IfOk result (λ found. (slots : List KindOf) → HasSlots forms.now part elements slots → Lists found slots most) }
    ensures few { IfOk result (λ found. length found.runs.items ≤ most) }
{
    let mut stack = Vec::new(alloc);
    let mut runs = Vec::new(alloc);
    let mut next = begin(forms, &mut stack, part, elements)?;
    while runs.len() < most {
        let run = match next {
            Some(run) => run,
            None => {
                return Ok(Slots {
                    runs,
                    behind: NO_KINDS,
                });
            }
        };
        runs.push(run)?;
        next = go_on(forms, &mut stack)?;
    }
    let behind = joined_kinds(kinds_of_run(next), all_kinds_left(forms, stack.as_slice()));
    Ok(Slots { runs, behind })
}
