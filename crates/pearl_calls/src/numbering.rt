// The numbers of procedures.

ghost use Rattle.std.specs.Prelude.{◌≡◌, ◌↔◌, ◌<◌, ℕ, Some, true, false, length, nat_eq, slice_get, IfOk, IfSome, IfNone, IsNone};
ghost use Rattle.std.specs.List.{list_any};
ghost use Rattle.pearl_calls.specs.Cycles.{SomeCallsItself};
ghost use Rattle.pearl_calls.specs.Numberings.{IsNumbering};
ghost use Rattle.pearl_calls.specs.Numbers.{AreNumbers};

use crate::caller::Caller;
use crate::order::order_of;
use std::alloc::{AllocError as NoMemory, Global};
use std::marker::Model;

/// The procedures in the order of their numbers.
#[derive(Drop)]
pub struct Numbering {
    order: Vec<usize>,
    // the number of each procedure
    numbers: Vec<usize>,
}

impl Model for Numbering {
    ghost use Rattle.std.specs.Prelude.{ℕ, List};
    ghost use Rattle.pearl_calls.specs.Numbers.{AreNumbers};

    ghost Value = { List ℕ };

    ghost view = { λ s. s.order.items };

    ghost invariant = { λ s. AreNumbers s.order.items s.numbers.items };
}

impl Numbering {
    /// The procedures in the order of their numbers.
    pub fn order(&self) -> &[usize]
        ensures { result.now ≡ self.now }
    {
        self.order.as_slice()
    }

    /// The numbers of the procedures, in the order in which they stand in the list of callers.
    pub fn numbers(&self) -> &[usize]
        ensures { AreNumbers self.now result.now }
    {
        self.numbers.as_slice()
    }

    /// The procedure that has a number.
    pub fn procedure_at(&self, number: usize) -> Option<usize>
        ensures { result ≡ slice_get self.now number }
    {
        self.order.get(number).copied()
    }

    /// The number of a procedure.
    pub fn number_of(&self, procedure: usize) -> Option<usize>
        ensures some { IfSome result (λ number. slice_get self.now number ≡ Some procedure) }
        ensures none { IfNone result (list_any (nat_eq procedure) self.now ≡ false) }
    {
        self.numbers.get(procedure).copied()
    }
}

// The place of each procedure in the order.
fn numbers_in(alloc: Global, order: &[usize], count: usize) -> Result<Vec<usize>, NoMemory>
    requires below { (procedure : ℕ) → list_any (nat_eq procedure) order.now ≡ true → procedure < count }
    requires whole { (procedure : ℕ) → procedure < count → list_any (nat_eq procedure) order.now ≡ true }
    ensures { IfOk result (λ numbers. AreNumbers order.now numbers.items) }
{
    let mut numbers = vec![in alloc; 0usize; count]?;
    for (number, procedure) in order.iter().enumerate() {
        numbers[*procedure] = number;
    }
    Ok(numbers)
}

/// The numbers of procedures, so that each calls only those with smaller numbers: again and again the first declared
/// one whose callees all have numbers gets the next. None where a procedure calls itself, directly or through others.
pub fn number_procedures(alloc: Global, callers: &[Caller]) -> Result<Option<Numbering>, NoMemory>
    ensures none { IfOk result (λ found. IsNone found ↔ SomeCallsItself callers.now) }
    ensures rule { IfOk result (λ found. IfSome found (λ order. IsNumbering callers.now order)) }
{
    match order_of(alloc, callers)? {
        Some(order) => {
            let numbers = numbers_in(alloc, order.as_slice(), callers.len())?;
            Ok(Some(Numbering { order, numbers }))
        }
        None => Ok(None),
    }
}
