// The text of an object.

ghost use Rattle.std.specs.Prelude.{◌≡◌, ◌<◌, ◌^◌, ◌++◌, ℕ, List, length, IfOk, OnOk};
ghost use Rattle.std.specs.List.{AllByRecursion};
ghost use Rattle.pearl_value.specs.Devices.{IsDevice};
ghost use Rattle.pearl_format.specs.Items.{IsFormat};
ghost use Rattle.pearl_instructions.specs.Lawful.{IsInstr, IsLeaf, IsCode, IsProcedure, IsTask, IsObject};
ghost use Rattle.pearl_object.specs.Listing.{listing_of, numbered, name_of, instr_line, sort_text, device_line, semaphore_line, leaf_line, format_line, main_word, code_lines, procedure_lines, task_lines};

use crate::instructions::opcode_of;
use crate::spelling::put_operands;
use crate::table::codes;
use crate::tables::own_number;
use crate::words::{Words, put_decimal, put_each, put_kind_word, put_number_word, put_word};
use pearl_format::item::Item;
use pearl_instructions::instr::Instr;
use pearl_instructions::object::{Code, Leaf, Object, Parts, Procedure, Task};
use pearl_value::device::Device;
use pearl_value::listing::Listing;
use std::alloc::{AllocError, Global};

/// What has lines of its own in a listing.
trait Lined {
    /// The lines, told its number.
    ghost lines: { ℕ → Self → List ℕ };

    /// What each of them is.
    ghost lawful: { Self → Type 0 };

    fn put_lines(&self, number: usize, out: &mut Vec<u8>) -> Result<(), AllocError>
        requires { lawful self.now }
        ensures { OnOk result (out.new.items ≡ out.old.items ++ lines number self.now) };
}

// The lines of each, with its number.
fn put_numbered<T: Lined>(out: &mut Vec<u8>, items: &[T]) -> Result<(), AllocError>
    requires { AllByRecursion T.lawful items.now }
    ensures { OnOk result (out.new.items ≡ out.old.items ++ numbered T.lines 0 items.now) }
{
    for (number, item) in items.iter().enumerate() {
        item.put_lines(number, out)?;
    }
    Ok(())
}

fn sort_text(device: Device) -> &'static [u8]
    ensures { result.now ≡ sort_text device }
{
    match device {
        Device::Interrupt { .. } => b"INTERRUPT",
        Device::Terminal { .. } => b"TERMINAL",
        Device::Input { .. } => b"INPUT",
        Device::Output { .. } => b"OUTPUT",
    }
}

impl Lined for Device {
    ghost lines = { device_line };

    ghost lawful = { IsDevice };

    fn put_lines(&self, _number: usize, out: &mut Vec<u8>) -> Result<(), AllocError> {
        out.extend_from_slice(b"device")?;
        put_word(out, sort_text(*self))?;
        put_number_word(out, u64::from(own_number(*self)))?;
        out.push(b'\n')?;
        Ok(())
    }
}

// A semaphore.
impl Lined for u32 {
    ghost lines = { semaphore_line };

    ghost lawful = { λ count. count < 2 ^ 31 };

    fn put_lines(&self, number: usize, out: &mut Vec<u8>) -> Result<(), AllocError> {
        out.extend_from_slice(b"semaphore")?;
        put_number_word(out, number as u64)?;
        put_number_word(out, u64::from(*self))?;
        out.push(b'\n')?;
        Ok(())
    }
}

impl Lined for Leaf {
    ghost lines = { leaf_line };

    ghost lawful = { IsLeaf };

    fn put_lines(&self, number: usize, out: &mut Vec<u8>) -> Result<(), AllocError> {
        out.extend_from_slice(b"leaf")?;
        put_number_word(out, number as u64)?;
        put_word(out, self.name.as_slice())?;
        put_kind_word(out, self.kind)?;
        put_number_word(out, u64::from(self.slots))?;
        out.push(b'\n')?;
        Ok(())
    }
}

// A format.
impl Lined for Listing<Item> {
    ghost lines = { format_line };

    ghost lawful = { IsFormat };

    fn put_lines(&self, number: usize, out: &mut Vec<u8>) -> Result<(), AllocError> {
        out.extend_from_slice(b"format")?;
        put_number_word(out, number as u64)?;
        put_each::<Item>(out, self.as_slice())?;
        out.push(b'\n')?;
        Ok(())
    }
}

fn name_of(instr: &Instr) -> &'static [u8]
    ensures { result.now ≡ name_of instr.now }
{
    let opcode = usize::from(opcode_of(instr));
    codes()[opcode].name
}

impl Lined for Instr {
    ghost lines = { instr_line };

    ghost lawful = { IsInstr };

    fn put_lines(&self, number: usize, out: &mut Vec<u8>) -> Result<(), AllocError> {
        put_decimal(out, number as u64)?;
        put_word(out, name_of(self))?;
        put_operands::<Words>(out, self)?;
        out.push(b'\n')?;
        Ok(())
    }
}

// The end of a routine's head, and its instructions.
fn put_code_lines(out: &mut Vec<u8>, code: &Code) -> Result<(), AllocError>
    requires { AllByRecursion IsInstr code.now.instructions }
    ensures { OnOk result (out.new.items ≡ out.old.items ++ code_lines code.now) }
{
    out.extend_from_slice(b" cells")?;
    put_number_word(out, code.cells.as_slice().len() as u64)?;
    out.extend_from_slice(b" depth")?;
    put_number_word(out, code.depth)?;
    out.push(b'\n')?;
    put_numbered::<Instr>(out, code.instructions.as_slice())?;
    Ok(())
}

impl Lined for Procedure {
    ghost lines = { procedure_lines };

    ghost lawful = { IsProcedure };

    fn put_lines(&self, number: usize, out: &mut Vec<u8>) -> Result<(), AllocError> {
        out.extend_from_slice(b"procedure")?;
        put_number_word(out, number as u64)?;
        put_code_lines(out, &self.code)?;
        Ok(())
    }
}

fn put_main_word(out: &mut Vec<u8>, main: bool) -> Result<(), AllocError>
    ensures { OnOk result (out.new.items ≡ out.old.items ++ main_word main) }
{
    if main {
        out.extend_from_slice(b" main")?;
    }
    Ok(())
}

impl Lined for Task {
    ghost lines = { task_lines };

    ghost lawful = { IsTask };

    fn put_lines(&self, _number: usize, out: &mut Vec<u8>) -> Result<(), AllocError> {
        out.extend_from_slice(b"task")?;
        put_word(out, self.name.as_slice())?;
        out.extend_from_slice(b" prio")?;
        put_number_word(out, u64::from(self.priority))?;
        put_main_word(out, self.main)?;
        put_code_lines(out, &self.code)?;
        Ok(())
    }
}

fn put_listing(out: &mut Vec<u8>, parts: &Parts) -> Result<(), AllocError>
    requires { IsObject parts.now }
    ensures { OnOk result (out.new.items ≡ out.old.items ++ listing_of parts.now) }
{
    put_numbered::<Device>(out, parts.devices.as_slice())?;
    put_numbered::<u32>(out, parts.semaphores.as_slice())?;
    put_numbered::<Leaf>(out, parts.leaves.as_slice())?;
    put_numbered::<Listing<Item>>(out, parts.formats.as_slice())?;
    put_numbered::<Procedure>(out, parts.procedures.as_slice())?;
    put_numbered::<Task>(out, parts.tasks.as_slice())?;
    Ok(())
}

/// The listing of an object, which need not be valid: a line for each device, semaphore, leaf and format, then for each
/// routine, and behind that one for each of its instructions.
pub fn list(alloc: Global, object: &Object) -> Result<Vec<u8>, AllocError>
    ensures { IfOk result (λ bytes. bytes.items ≡ listing_of object.now) }
{
    let mut out = Vec::new(alloc);
    put_listing(&mut out, object.parts())?;
    Ok(out)
}
