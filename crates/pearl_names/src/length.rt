// The lengths of FIXED, BIT and CHAR.
#![tactic(auto, using(crate::proofs::Lists::list_steps, std::proofs::lemmas::Grind::common_steps))]

ghost use Rattle.std.specs.Prelude.{◌≡◌, ℕ, nat_le, if◌then◌else◌, List, [], ◌∷◌, ◌++◌, IfOk, OnOk};
ghost use Rattle.std.specs.List.Sorted.{IsNonDecreasingBy};
ghost use Rattle.pearl_names.specs.declared.length.Step.{Step as StepOf};
ghost use Rattle.pearl_names.specs.declared.length.DefaultLength.{DefaultLength as DefaultOf};
ghost use Rattle.pearl_names.specs.Steps.{last_step, HasSteps};
ghost use Rattle.std.specs.Option.{option_to_list};
ghost use Rattle.pearl_tree.specs.ShownModules.{shown_decl, shown_tree};
ghost use Rattle.pearl_names.specs.Lengths as spec;

use pearl_tree::tree::{Decl, Tree};
use pearl_tree::typing::{Basic, Sort};
use pearl_value::kind::Kind;
use std::alloc::{AllocError as NoMemory, Global};
use std::marker::Model;

/// From a place on, FIXED, BIT or CHAR without a number has this length.
#[derive(Clone, Copy, PartialEq, Eq, Debug)]
pub struct DefaultLength {
    pub place: u32,
    pub sort: Sort,
    pub len: u8,
}

fn longest(sort: Sort) -> u8
    ensures { result ≡ spec.longest sort }
{
    match sort {
        Sort::Fixed => 63,
        Sort::Bit => 64,
        Sort::Char => 255,
    }
}

/// Whether FIXED, BIT or CHAR may have this length.
pub fn is_length(sort: Sort, n: u64) -> bool
    ensures { result ≡ spec.is_length sort n }
{
    1 <= n && n <= u64::from(longest(sort))
}

/// The kind of this sort and length.
pub fn kind_of_length(sort: Sort, len: u8) -> Kind
    ensures { result ≡ spec.kind_of_length sort len }
{
    match sort {
        Sort::Fixed => Kind::Fixed(len),
        Sort::Bit => Kind::Bits(len),
        Sort::Char => Kind::Chars(len),
    }
}

fn is_same_sort(a: Sort, b: Sort) -> bool
    ensures { result ≡ spec.is_same_sort a b }
{
    match (a, b) {
        (Sort::Fixed, Sort::Fixed) => true,
        (Sort::Bit, Sort::Bit) => true,
        (Sort::Char, Sort::Char) => true,
        _ => false,
    }
}

fn first_length(sort: Sort) -> u8
    ensures { result ≡ spec.first_length sort }
{
    match sort {
        Sort::Fixed => 31,
        Sort::Bit => 1,
        Sort::Char => 1,
    }
}

/// From a place on, a length.
#[derive(Clone, Copy)]
pub(crate) struct Step {
    place: u32,
    len: u8,
}

fn step_at(steps: &[Step], len: u8, place: u32) -> u8
    requires { IsNonDecreasingBy (λ (step : StepOf). step.place) steps.now }
    ensures { result ≡ last_step len steps.now place }
{
    let count = steps.partition_point(|step| step.place <= place);
    if count == 0 {
        len
    } else {
        steps[count - 1].len
    }
}

// Adds a step, in place of those with later places.
fn add_step(steps: &mut Vec<Step>, step: Step) -> Result<(), NoMemory>
    requires { IsNonDecreasingBy (λ (step : StepOf). step.place) steps.now.items }
    ensures rising { OnOk result (IsNonDecreasingBy (λ (step : StepOf). step.place) steps.new.items) }
    ensures tells { OnOk result ((len place : ℕ) → last_step len steps.new.items place ≡
        (if nat_le step.place place then step.len else last_step len steps.old.items place)) }
{
    let last = step.place;
    let count = steps
        .as_slice()
        .partition_point(|earlier| earlier.place <= last);
    steps.truncate(count);
    steps.push(step)?;
    Ok(())
}

// Adds the step of a length, where it is of this sort.
fn add_default(steps: &mut Vec<Step>, default: &DefaultLength, sort: Sort) -> Result<(), NoMemory>
    requires { IsNonDecreasingBy (λ (step : StepOf). step.place) steps.now.items }
    ensures { OnOk result ((lengths : List DefaultOf) → HasSteps lengths sort steps.old.items →
        HasSteps (lengths ++ default.now ∷ []) sort steps.new.items) }
{
    if !is_same_sort(default.sort, sort) {
        return Ok(());
    }
    let step = Step {
        place: default.place,
        len: default.len,
    };
    add_step(steps, step)?;
    Ok(())
}

fn steps_of(alloc: Global, set: &[DefaultLength], sort: Sort) -> Result<Vec<Step>, NoMemory>
    ensures { IfOk result (λ steps. HasSteps set.now sort steps.items) }
{
    let mut steps = Vec::new(alloc);
    for default in set {
        add_default(&mut steps, default, sort)?;
    }
    Ok(steps)
}

/// The default lengths that a module sets, in order of their places.
#[derive(Drop)]
pub struct Lengths {
    set: Vec<DefaultLength>,
    fixed: Vec<Step>,
    bit: Vec<Step>,
    char: Vec<Step>,
}

impl Model for Lengths {
    ghost use Rattle.std.specs.Prelude.{List};
    ghost use Rattle.pearl_names.specs.declared.length.DefaultLength.{DefaultLength};
    ghost use Rattle.pearl_names.specs.Steps.{HasAllSteps};

    ghost Value = { List DefaultLength };

    ghost view = { λ l. l.set.items };

    ghost invariant = { λ l. HasAllSteps l.set.items l.fixed.items l.bit.items l.char.items };
}

impl Lengths {
    pub fn new(alloc: Global, set: Vec<DefaultLength>) -> Result<Lengths, NoMemory>
        ensures { IfOk result (λ lengths. lengths ≡ set.items) }
    {
        let fixed = steps_of(alloc, set.as_slice(), Sort::Fixed)?;
        let bit = steps_of(alloc, set.as_slice(), Sort::Bit)?;
        let char = steps_of(alloc, set.as_slice(), Sort::Char)?;
        Ok(Lengths {
            set,
            fixed,
            bit,
            char,
        })
    }

    pub fn as_slice(&self) -> &[DefaultLength]
        ensures { result.now ≡ self.now }
    {
        self.set.as_slice()
    }

    /// The default length at a place.
    pub fn at(&self, sort: Sort, place: u32) -> u8
        ensures { result ≡ spec.length_at self.now sort place }
    {
        match sort {
            Sort::Fixed => step_at(self.fixed.as_slice(), first_length(Sort::Fixed), place),
            Sort::Bit => step_at(self.bit.as_slice(), first_length(Sort::Bit), place),
            Sort::Char => step_at(self.char.as_slice(), first_length(Sort::Char), place),
        }
    }
}

/// The kind of a basic type. A length that is out of range gives none.
pub fn kind_of_basic(lengths: &Lengths, basic: &Basic) -> Option<Kind>
    ensures { result ≡ spec.kind_of_basic lengths.now basic.now }
{
    match *basic {
        Basic::Sized {
            sort,
            number: None,
            place,
        } => Some(kind_of_length(sort, lengths.at(sort, place))),
        Basic::Sized {
            sort,
            number: Some(number),
            ..
        } => {
            if is_length(sort, number.value) {
                Some(kind_of_length(sort, number.value as u8))
            } else {
                None
            }
        }
        Basic::Clock { .. } => Some(Kind::Clock),
        Basic::Duration { .. } => Some(Kind::Span),
    }
}

fn length_set(decl: &Decl) -> Option<DefaultLength>
    ensures { option_to_list result ≡ spec.length_set (shown_decl decl.now) }
{
    match decl {
        Decl::Length {
            sort,
            number,
            place,
        } => {
            if is_length(*sort, number.value) {
                Some(DefaultLength {
                    place: *place,
                    sort: *sort,
                    len: number.value as u8,
                })
            } else {
                None
            }
        }
        Decl::Type { .. } => None,
        Decl::Declare { .. } => None,
        Decl::Specify { .. } => None,
        Decl::Task { .. } => None,
        Decl::Proc { .. } => None,
    }
}

/// The default lengths that a module sets, in order of their places. LENGTH with a number that is no length sets none.
pub fn lengths_set(alloc: Global, tree: &Tree) -> Result<Lengths, NoMemory>
    ensures { IfOk result (λ lengths. lengths ≡ spec.lengths_set (shown_tree tree.now).declarations) }
{
    let mut set = Vec::new(alloc);
    for decl in tree.declarations.as_slice() {
        if let Some(default) = length_set(decl) {
            set.push(default)?;
        }
    }
    let lengths = Lengths::new(alloc, set)?;
    Ok(lengths)
}
