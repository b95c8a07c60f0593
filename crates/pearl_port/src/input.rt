// The values that came in at an input of any kind, as cells.

ghost use Rattle.std.specs.Prelude.{◌≡◌, ◌↔◌, ◌<◌, ◌≤◌, Some, IsFalse, IfOk, if◌then◌else◌, length, slice_get};
ghost use Rattle.pearl_port.specs.Families.{family_of};
ghost use Rattle.pearl_port.specs.Inputs.{as_cells, family_of_kind};
ghost use Rattle.pearl_port.specs.Pending.{empty, IsFull, joined, served};

use crate::carried::Carried;
use crate::port::Port;
use crate::values::{BitsValue, CharsValue, ClockValue, FixedValue, SpanValue};
use pearl_value::cell::Cell;
use pearl_value::kind::Kind;
use std::alloc::{AllocError as NoMemory, Global};
use std::marker::Model;

/// The port of an input, by the family of its kind.
#[derive(Drop)]
enum AnyPort {
    Fixed(Port<FixedValue>),
    Bits(Port<BitsValue>),
    Chars(Port<CharsValue>),
    Clock(Port<ClockValue>),
    Span(Port<SpanValue>),
}

/// What waits at one input, whatever the kind of its values. Contracts see its values as cells.
#[derive(Drop)]
pub struct Input {
    port: AnyPort,
}

impl Model for Input {
    ghost use Rattle.std.specs.Prelude.{◌≡◌};
    ghost use Rattle.pearl_value.specs.declared.cell.Cell.{Cell as Cells};
    ghost use Rattle.pearl_port.specs.Inputs.{family_in, family_of_kind, queue_of};
    ghost use Rattle.pearl_port.specs.Pending.{Queue};

    ghost Value = { Queue Cells };

    ghost view = { λ i. queue_of i.port };

    ghost invariant = { λ i. family_in i.port ≡ family_of_kind (queue_of i.port).kind };
}

impl Input {
    /// An input for values of this kind, at which nothing waits and at most so many may. It takes all the memory that
    /// it will ever need.
    pub fn new(alloc: Global, kind: Kind, room: usize) -> Result<Input, NoMemory>
        ensures { IfOk result (λ input. input ≡ empty kind room) }
    {
        let port = match kind {
            Kind::Fixed(_) => AnyPort::Fixed(Port::new(alloc, kind, room)?),
            Kind::Bits(_) => AnyPort::Bits(Port::new(alloc, kind, room)?),
            Kind::Chars(_) => AnyPort::Chars(Port::new(alloc, kind, room)?),
            Kind::Clock => AnyPort::Clock(Port::new(alloc, kind, room)?),
            Kind::Span => AnyPort::Span(Port::new(alloc, kind, room)?),
        };
        Ok(Input { port })
    }

    /// The kind of its values.
    pub fn kind(&self) -> Kind
        ensures { result ≡ self.now.kind }
    {
        match &self.port {
            AnyPort::Fixed(port) => port.kind(),
            AnyPort::Bits(port) => port.kind(),
            AnyPort::Chars(port) => port.kind(),
            AnyPort::Clock(port) => port.kind(),
            AnyPort::Span(port) => port.kind(),
        }
    }

    /// How many wait.
    pub fn len(&self) -> usize
        ensures len { result ≡ length self.now.items }
        ensures within { result ≤ self.now.room }
    {
        match &self.port {
            AnyPort::Fixed(port) => port.len(),
            AnyPort::Bits(port) => port.len(),
            AnyPort::Chars(port) => port.len(),
            AnyPort::Clock(port) => port.len(),
            AnyPort::Span(port) => port.len(),
        }
    }

    /// One of those that wait; the oldest one has the number 0.
    pub fn item(&self, at: usize) -> Cell
        requires { at < length self.now.items }
        ensures { slice_get self.now.items at ≡ Some result }
    {
        match &self.port {
            AnyPort::Fixed(port) => item_cell(port, at),
            AnyPort::Bits(port) => item_cell(port, at),
            AnyPort::Chars(port) => item_cell(port, at),
            AnyPort::Clock(port) => item_cell(port, at),
            AnyPort::Span(port) => item_cell(port, at),
        }
    }

    /// A value of the input's family comes in: it waits behind all others, or, where the input is full, it is dropped
    /// and nothing changes. The answer tells whether it waits.
    pub fn offer(&mut self, value: &Cell) -> bool
        requires { family_of value.now ≡ Some (family_of_kind self.old.kind) }
        ensures full { IsFalse result ↔ IsFull self.old }
        ensures queue { self.new ≡ (if result then joined self.old value.now else self.old) }
    {
        match &mut self.port {
            AnyPort::Fixed(port) => offer_cell(port, value),
            AnyPort::Bits(port) => offer_cell(port, value),
            AnyPort::Chars(port) => offer_cell(port, value),
            AnyPort::Clock(port) => offer_cell(port, value),
            AnyPort::Span(port) => offer_cell(port, value),
        }
    }

    /// Takes the oldest value; none exactly where nothing waits.
    pub fn next(&mut self) -> Option<Cell>
        ensures oldest { result ≡ slice_get self.old.items 0 }
        ensures queue { self.new ≡ served self.old }
    {
        match &mut self.port {
            AnyPort::Fixed(port) => next_cell(port),
            AnyPort::Bits(port) => next_cell(port),
            AnyPort::Chars(port) => next_cell(port),
            AnyPort::Clock(port) => next_cell(port),
            AnyPort::Span(port) => next_cell(port),
        }
    }
}

// A value of the port's family comes in as a cell.
fn offer_cell<T: Carried + Drop>(port: &mut Port<T>, value: &Cell) -> bool
    requires { family_of value.now ≡ Some T.FAMILY }
    ensures full { IsFalse result ↔ IsFull (as_cells T.cell_of port.old) }
    ensures queue { as_cells T.cell_of port.new ≡
        (if result then joined (as_cells T.cell_of port.old) value.now else as_cells T.cell_of port.old) }
{
    match T::from_cell(value) {
        Some(item) => port.offer(item),
        None => unreachable!(),
    }
}

// One of the values that wait, as a cell.
fn item_cell<T: Carried + Drop>(port: &Port<T>, at: usize) -> Cell
    requires { at < length (as_cells T.cell_of port.now).items }
    ensures { slice_get (as_cells T.cell_of port.now).items at ≡ Some result }
{
    port.item(at).to_cell()
}

// The oldest value is taken, as a cell.
fn next_cell<T: Carried + Drop>(port: &mut Port<T>) -> Option<Cell>
    ensures oldest { result ≡ slice_get (as_cells T.cell_of port.old).items 0 }
    ensures queue { as_cells T.cell_of port.new ≡ served (as_cells T.cell_of port.old) }
{
    let item = port.next()?;
    Some(item.to_cell())
}

#[cfg(test)]
mod tests {
    use super::*;
    use std::test::Fail;

    #[test]
    fn values_wait_as_cells(rt: HostRuntime) -> Result<(), Fail> {
        let mut input = Input::new(rt.alloc(), Kind::Span, 2)?;
        assert!(rt; input.offer(&Cell::Span(-5)));
        assert!(rt; input.offer(&Cell::Span(8)));
        assert!(rt; !input.offer(&Cell::Span(9)));
        assert_eq!(rt; input.len(), 2);
        assert!(rt; matches!(input.item(1), Cell::Span(8)));
        assert!(rt; matches!(input.next(), Some(Cell::Span(-5))));
        assert!(rt; matches!(input.next(), Some(Cell::Span(8))));
        assert!(rt; input.next().is_none());
        Ok(())
    }
}
