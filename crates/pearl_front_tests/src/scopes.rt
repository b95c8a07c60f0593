// What the names of a module mean, scope by scope, and its default lengths.

use crate::cases::{STOP, places_of, tree_of};
use arrayvec::ArrayVec;
use pearl_names::duration::is_too_long;
use pearl_names::length::{Lengths, is_length, kind_of_basic, lengths_set};
use pearl_names::meaning::sort_from;
use pearl_names::names::ScopeTable;
use pearl_names::scope::{NameSort, View};
use pearl_names::sense::{Form, Sense};
use pearl_names::sorted::names_of_module;
use pearl_names::table::table_of;
use pearl_names::types::TypeRef;
use pearl_tree::literal::{Duration, Secs};
use pearl_tree::name::Number;
use pearl_tree::typing::{Basic, Sort};
use pearl_value::kind::Kind;
use std::alloc::{AllocError, Global};
use std::test::Fail;

// A module, with marks before, at and behind the place from which FIXED has another length.
const MODULE: &[u8] = b"MODULE(m);^PROBLEM;^LENGTH FIXED(15);LENGTH BIT(65);^TYPE u BIT;\
    DCL (a,b) FIXED,s SEMA;p:PROC(x FIXED);FOR i WHILE i<1 REPEAT DCL a u;END;END;MODEND;";

// Of each scope the one around it, and how many names it has.
static SCOPES: [(Option<u32>, usize); 3] = [(None, 5), (Some(0), 1), (Some(1), 2)];

// Names seen from somewhere, and what they mean there.
static MEANINGS: [(View, &[u8], Option<NameSort>); 9] = [
    (View::Within(0), b"u", Some(NameSort::NewType(0))),
    (View::Within(0), b"x", None),
    (View::Within(1), b"x", Some(NameSort::Parameter)),
    (View::Within(1), b"i", None),
    (View::Within(2), b"a", Some(NameSort::Variable)),
    (View::Within(2), b"s", Some(NameSort::Semaphore)),
    (View::Within(2), b"p", Some(NameSort::Procedure)),
    (View::WhileOf(2), b"i", Some(NameSort::Control)),
    (View::WhileOf(2), b"x", Some(NameSort::Parameter)),
];

fn text_of(letters: &[u8]) -> ArrayVec<u8, 63> {
    let mut text = ArrayVec::new();
    for &letter in letters {
        if text.len() < 63 {
            text.push(letter);
        }
    }
    text
}

// Whether each scope has its outer one and so many names.
fn are_scopes(found: &[ScopeTable]) -> bool {
    if found.len() != SCOPES.len() {
        return false;
    }
    for (scope, want) in found.iter().zip(SCOPES.iter()) {
        if scope.outer() != want.0 || scope.names().len() != want.1 {
            return false;
        }
    }
    true
}

// The first row whose name means something else; their number, where the scopes are others.
fn first_other_meaning(alloc: Global) -> Result<Option<usize>, AllocError> {
    let Some(tree) = tree_of(alloc, MODULE) else {
        return Ok(Some(MEANINGS.len()));
    };
    let found = names_of_module(alloc, &tree)?;
    if !are_scopes(found.as_slice()) {
        return Ok(Some(MEANINGS.len()));
    }
    for (number, &(view, name, want)) in MEANINGS.iter().enumerate() {
        if sort_from(found.as_slice(), view, &text_of(name)) != want {
            return Ok(Some(number));
        }
    }
    Ok(None)
}

#[test]
fn names_mean_their_innermost_declaration(rt: HostRuntime) -> Result<(), Fail> {
    if let Some(number) = first_other_meaning(rt.alloc())? {
        assert!(rt; false, "row {number}");
    }
    Ok(())
}

// Names seen from somewhere, and the kind that each is found to have without dimensions.
static KINDS: [(View, &[u8], Option<Kind>); 7] = [
    (View::Within(0), b"a", Some(Kind::Fixed(15))),
    (View::Within(2), b"a", Some(Kind::Bits(1))),
    (View::Within(2), b"b", Some(Kind::Fixed(15))),
    (View::Within(1), b"x", Some(Kind::Fixed(15))),
    (View::WhileOf(2), b"i", Some(Kind::Fixed(15))),
    (View::Within(1), b"i", None),
    (View::Within(0), b"u", None),
];

fn kind_of_form(form: &Form) -> Option<Kind> {
    match form.part {
        TypeRef::Basic(kind) if form.bounds.is_empty() => Some(kind),
        _ => None,
    }
}

fn kind_of(sense: Option<&Sense>) -> Option<Kind> {
    match sense {
        Some(
            Sense::Variable {
                form: Some(form),
                ..
            },
        ) => kind_of_form(form),
        Some(Sense::Control(kind)) => Some(*kind),
        Some(Sense::Parameter(parameter)) => parameter.kind,
        _ => None,
    }
}

// Whether p is a procedure with one parameter and no result.
fn is_procedure(sense: Option<&Sense>) -> bool {
    match sense {
        Some(Sense::Procedure(called)) => called.parameters.len() == 1 && called.result.is_none(),
        _ => false,
    }
}

// The first row whose name has another kind; their number, where p is another procedure.
fn first_other_kind(alloc: Global) -> Result<Option<usize>, AllocError> {
    let Some(tree) = tree_of(alloc, MODULE) else {
        return Ok(Some(KINDS.len()));
    };
    let table = table_of(alloc, &tree)?;
    for (number, &(view, name, want)) in KINDS.iter().enumerate() {
        if kind_of(table.sense_from(view, &text_of(name))) != want {
            return Ok(Some(number));
        }
    }
    if !is_procedure(table.sense_from(View::Within(0), &text_of(b"p"))) {
        return Ok(Some(KINDS.len()));
    }
    Ok(None)
}

#[test]
fn names_stand_for_what_declares_them(rt: HostRuntime) -> Result<(), Fail> {
    if let Some(number) = first_other_kind(rt.alloc())? {
        assert!(rt; false, "row {number}");
    }
    Ok(())
}

// Whether FIXED has 31 before the second of these places and 15 from there on, and BIT has 1.
fn are_lengths(lengths: &Lengths, places: &[u32]) -> bool {
    let &[before, at, behind] = places else {
        return false;
    };
    let basic = Basic::Sized {
        sort: Sort::Fixed,
        number: None,
        place: behind,
    };
    lengths.at(Sort::Fixed, before) == 31
        && lengths.at(Sort::Fixed, at) == 15
        && lengths.at(Sort::Fixed, behind) == 15
        && lengths.at(Sort::Bit, behind) == 1
        && kind_of_basic(lengths, &basic) == Some(Kind::Fixed(15))
}

fn has_lengths(alloc: Global) -> Result<bool, AllocError> {
    let Some(tree) = tree_of(alloc, MODULE) else {
        return Ok(false);
    };
    let lengths = lengths_set(alloc, &tree)?;
    let places = places_of(alloc, MODULE, STOP)?;
    Ok(lengths.as_slice().len() == 1 && are_lengths(&lengths, places.as_slice()))
}

#[test]
fn lengths_hold_from_their_place_on(rt: HostRuntime) -> Result<(), Fail> {
    assert!(rt; has_lengths(rt.alloc())?);
    Ok(())
}

#[test]
fn kinds_have_their_lengths(rt: HostRuntime) {
    assert!(rt; is_length(Sort::Char, 255));
    assert!(rt; !is_length(Sort::Bit, 65));
}

fn of_seconds(whole: u64) -> Duration {
    Duration::Seconds {
        seconds: Secs::Decimal {
            whole,
            thousandths: 776,
            place: 0,
        },
        place: 0,
    }
}

fn of_hours(value: u64) -> Duration {
    Duration::Hours {
        hours: Number { value, place: 0 },
        minutes: None,
        seconds: None,
        place: 0,
    }
}

#[test]
fn a_duration_may_have_2_to_the_40_milliseconds(rt: HostRuntime) {
    assert!(rt; !is_too_long(&of_seconds(1_099_511_627)));
    assert!(rt; is_too_long(&of_seconds(1_099_511_628)));
    assert!(rt; !is_too_long(&of_hours(305_419)));
    assert!(rt; is_too_long(&of_hours(305_420)));
}
