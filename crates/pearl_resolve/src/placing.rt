// Procedures by their numbers.

ghost use Rattle.std.specs.Prelude.{◌≡◌, [], ◌∷◌, ◌++◌, length, replicate, slice_get, slice_set, Some, None, IfOk, OnOk};
ghost use Rattle.pearl_resolve.specs.Placing.{collected, placed_in, put_at};
ghost use Rattle.pearl_resolve.specs.Resolve as spec;

use pearl_program::program::Procedure;
use std::alloc::{AllocError, Global};

fn no_places(alloc: Global, count: usize) -> Result<Vec<Option<Procedure>>, AllocError>
    ensures { IfOk result (λ places. places.items ≡ replicate count None) }
{
    let mut places = Vec::with_capacity(alloc, count)?;
    'places: for _ in 0..count {
        places.push(None)?;
    }
    Ok(places)
}

// Puts a procedure into the place of its number, if there is one.
fn put(places: &mut Vec<Option<Procedure>>, number: usize, procedure: Procedure)
    ensures { places.new.items ≡ slice_set places.old.items number (Some procedure) }
{
    if number < places.len() {
        places[number] = Some(procedure);
    }
}

// Puts a procedure into the place of the number at an index, if there is one.
fn put_by_number(
    places: &mut Vec<Option<Procedure>>,
    numbers: &[u32],
    index: usize,
    procedure: Procedure,
)
    ensures { places.new.items ≡ put_at places.old.items (slice_get numbers.now index) procedure }
{
    match numbers.get(index) {
        Some(number) => put(places, *number as usize, procedure),
        None => {}
    }
}

// A place for each number, with the first procedure that has it.
fn placed(
    alloc: Global,
    numbers: &[u32],
    procedures: Vec<Procedure>,
) -> Result<Vec<Option<Procedure>>, AllocError>
    ensures { IfOk result (λ places. places.items ≡ placed_in numbers.now procedures.items (length numbers.now) 0) }
{
    let mut places = no_places(alloc, numbers.len())?;
    let mut left = procedures;
    loop {
        let procedure = match left.pop() {
            Some(procedure) => procedure,
            None => return Ok(places),
        };
        put_by_number(&mut places, numbers, left.len(), procedure);
    }
}

fn add_place(place: Option<Procedure>, into: &mut Vec<Procedure>) -> Result<(), AllocError>
    ensures { OnOk result (into.new.items ≡ into.old.items ++ collected (place ∷ [])) }
{
    match place {
        Some(procedure) => {
            into.push(procedure)?;
            Ok(())
        }
        None => Ok(()),
    }
}

fn gathered(alloc: Global, places: Vec<Option<Procedure>>) -> Result<Vec<Procedure>, AllocError>
    ensures { IfOk result (λ made. made.items ≡ collected places.items) }
{
    let mut made = Vec::new(alloc);
    for place in places {
        add_place(place, &mut made)?;
    }
    Ok(made)
}

/// The procedures by their numbers, of which there are as many. Where two have the same one, the first stays.
pub(crate) fn by_number(
    alloc: Global,
    numbers: &[u32],
    procedures: Vec<Procedure>,
) -> Result<Vec<Procedure>, AllocError>
    ensures { IfOk result (λ made. made.items ≡ spec.by_number numbers.now procedures.items (length numbers.now) 0) }
{
    let places = placed(alloc, numbers, procedures)?;
    let made = gathered(alloc, places)?;
    Ok(made)
}
