// The bytes of the code of routines, both ways.

ghost use Rattle.std.specs.Prelude.{◌≡◌, ◌++◌, OnOk};
ghost use Rattle.pearl_object.specs.Codes.{shape, after_shape, first_shape, above, code};
ghost use Rattle.pearl_object.specs.Lists.{each_in};
ghost use Rattle.pearl_fields.specs.Codec.{counted};
ghost use Rattle.pearl_fields.specs.Reads.{Reads};

use crate::states::{Alone, Last, Parameters};
use pearl_fields::fault::ReadFault;
use pearl_fields::part::{Part, list, put_list};
use pearl_fields::reader::Reader;
use pearl_fields::writer::put_number;
use pearl_instructions::instr::Instr;
use pearl_instructions::object::{Code, Shape};
use pearl_value::kind::CellKind;
use pearl_value::listing::Listing;
use std::alloc::{AllocError, Global};

/// Reads a list of a table, whose length is within bounds.
pub(crate) fn listed<S: Copy, T: Part<S>>(
    reader: &mut Reader,
    alloc: Global,
    low: u64,
    high: u64,
    state: S,
) -> Result<Listing<T>, ReadFault>
    ensures { Reads (counted low high T.spelled T.part T.after state) reader.old reader.new result }
{
    let items = list::<S, T>(reader, alloc, low, high, state)?;
    Ok(Listing::new(items))
}

fn is_above(last: Option<u64>, number: u64) -> bool
    ensures { result ≡ above last number }
{
    match last {
        None => true,
        Some(last) => last < number,
    }
}

/// Reads a shape behind the last one.
#[tactic(auto, unfolding(crate::specs::Codes::shape))]
pub fn read_shape(reader: &mut Reader, alloc: Global, last: Last) -> Result<Shape, ReadFault>
    ensures { Reads (shape last) reader.old reader.new result }
{
    let left = reader.left();
    let instruction = reader.number()?;
    if !is_above(last.number, instruction) {
        return Err(ReadFault::Bad(left));
    }
    let kinds = listed::<Alone, CellKind>(reader, alloc, 0, u64::MAX, Alone {})?;
    Ok(Shape { instruction, kinds })
}

/// Appends a shape.
#[tactic(auto, unfolding(crate::specs::Codes::shape))]
pub fn put_shape(out: &mut Vec<u8>, value: &Shape) -> Result<(), AllocError>
    ensures { OnOk result (out.new.items ≡ out.old.items ++ (shape first_shape).bytes value.now) }
{
    put_number(out, value.instruction)?;
    put_list::<Alone, CellKind>(value.kinds.as_slice(), out)?;
    Ok(())
}

impl Part<Last> for Shape {
    ghost spelled = { (shape first_shape).bytes };

    ghost part = { shape };

    ghost after = { after_shape };

    fn read(reader: &mut Reader, alloc: Global, last: Last) -> Result<Shape, ReadFault> {
        read_shape(reader, alloc, last)
    }

    fn next(&self, _last: Last) -> Last {
        Last {
            number: Some(self.instruction),
        }
    }

    fn put(&self, out: &mut Vec<u8>) -> Result<(), AllocError> {
        put_shape(out, self)?;
        Ok(())
    }
}

/// Reads the code of a routine with so many parameters.
#[tactic(auto, unfolding(crate::specs::Codes::code))]
pub fn read_code(reader: &mut Reader, alloc: Global, params: u64) -> Result<Code, ReadFault>
    ensures { Reads (code params) reader.old reader.new result }
{
    let parameters = Parameters { left: params };
    let cells = listed::<Parameters, CellKind>(reader, alloc, params, u64::MAX, parameters)?;
    let depth = reader.number()?;
    let instructions = listed::<Alone, Instr>(reader, alloc, 0, u64::MAX, Alone {})?;
    let shapes = listed::<Last, Shape>(reader, alloc, 0, u64::MAX, Last { number: None })?;
    Ok(Code {
        cells,
        depth,
        instructions,
        shapes,
    })
}

/// Appends the code of a routine.
#[tactic(auto, unfolding(crate::specs::Codes::code))]
pub fn put_code(out: &mut Vec<u8>, value: &Code) -> Result<(), AllocError>
    ensures { OnOk result (out.new.items ≡ out.old.items ++ (code 0).bytes value.now) }
{
    put_list::<Parameters, CellKind>(value.cells.as_slice(), out)?;
    put_number(out, value.depth)?;
    put_list::<Alone, Instr>(value.instructions.as_slice(), out)?;
    put_list::<Last, Shape>(value.shapes.as_slice(), out)?;
    Ok(())
}
