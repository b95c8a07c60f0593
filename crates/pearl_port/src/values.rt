// A type for the values of each family of kinds.

ghost use Rattle.std.specs.Prelude.{◌≡◌};

use crate::carried::Carried;
use arrayvec::ArrayVec;
use pearl_value::cell::Cell;

/// A FIXED number from -2^len to 2^len - 1.
#[derive(Clone, Copy, PartialEq, Eq, Debug)]
pub struct FixedValue {
    pub len: u8,
    pub value: i64,
}

/// A BIT string: the number that `len` bits spell, the first bit highest.
#[derive(Clone, Copy, PartialEq, Eq, Debug)]
pub struct BitsValue {
    pub len: u8,
    pub value: u64,
}

/// A CHAR string: bytes from 32 to 126.
#[derive(Drop)]
pub struct CharsValue {
    pub text: ArrayVec<u8, 255>,
}

/// A CLOCK: milliseconds since midnight.
#[derive(Clone, Copy, PartialEq, Eq, Debug)]
pub struct ClockValue {
    pub time: u32,
}

/// A DURATION: milliseconds.
#[derive(Clone, Copy, PartialEq, Eq, Debug)]
pub struct SpanValue {
    pub time: i64,
}

impl Carried for FixedValue {
    ghost use Rattle.pearl_port.specs.Values.{fixed_cell, fixed_read};
    ghost use Rattle.pearl_port.specs.ValueLaws.{fixed_carries};

    const FAMILY: u8 = 0;

    ghost FAMILY = { 0 };

    ghost cell_of = { fixed_cell };

    ghost read = { fixed_read };

    fn to_cell(&self) -> Cell {
        Cell::Fixed {
            len: self.len,
            value: self.value,
        }
    }

    fn from_cell(cell: &Cell) -> Option<FixedValue> {
        match cell {
            Cell::Fixed { len, value } => Some(FixedValue {
                len: *len,
                value: *value,
            }),
            _ => None,
        }
    }

    ghost carries = { fixed_carries };
}

impl Carried for BitsValue {
    ghost use Rattle.pearl_port.specs.Values.{bits_cell, bits_read};
    ghost use Rattle.pearl_port.specs.ValueLaws.{bits_carries};

    const FAMILY: u8 = 1;

    ghost FAMILY = { 1 };

    ghost cell_of = { bits_cell };

    ghost read = { bits_read };

    fn to_cell(&self) -> Cell {
        Cell::Bits {
            len: self.len,
            value: self.value,
        }
    }

    fn from_cell(cell: &Cell) -> Option<BitsValue> {
        match cell {
            Cell::Bits { len, value } => Some(BitsValue {
                len: *len,
                value: *value,
            }),
            _ => None,
        }
    }

    ghost carries = { bits_carries };
}

impl Carried for CharsValue {
    ghost use Rattle.pearl_port.specs.Values.{chars_cell, chars_read};
    ghost use Rattle.pearl_port.specs.ValueLaws.{chars_carries};

    const FAMILY: u8 = 2;

    ghost FAMILY = { 2 };

    ghost cell_of = { chars_cell };

    ghost read = { chars_read };

    fn to_cell(&self) -> Cell {
        Cell::Chars(self.text.clone().unwrap())
    }

    fn from_cell(cell: &Cell) -> Option<CharsValue> {
        match cell {
            Cell::Chars(text) => Some(CharsValue {
                text: text.clone().unwrap(),
            }),
            _ => None,
        }
    }

    ghost carries = { chars_carries };
}

impl Carried for ClockValue {
    ghost use Rattle.pearl_port.specs.Values.{clock_cell, clock_read};
    ghost use Rattle.pearl_port.specs.ValueLaws.{clock_carries};

    const FAMILY: u8 = 3;

    ghost FAMILY = { 3 };

    ghost cell_of = { clock_cell };

    ghost read = { clock_read };

    fn to_cell(&self) -> Cell {
        Cell::Clock(self.time)
    }

    fn from_cell(cell: &Cell) -> Option<ClockValue> {
        match cell {
            Cell::Clock(time) => Some(ClockValue { time: *time }),
            _ => None,
        }
    }

    ghost carries = { clock_carries };
}

impl Carried for SpanValue {
    ghost use Rattle.pearl_port.specs.Values.{span_cell, span_read};
    ghost use Rattle.pearl_port.specs.ValueLaws.{span_carries};

    const FAMILY: u8 = 4;

    ghost FAMILY = { 4 };

    ghost cell_of = { span_cell };

    ghost read = { span_read };

    fn to_cell(&self) -> Cell {
        Cell::Span(self.time)
    }

    fn from_cell(cell: &Cell) -> Option<SpanValue> {
        match cell {
            Cell::Span(time) => Some(SpanValue { time: *time }),
            _ => None,
        }
    }

    ghost carries = { span_carries };
}

#[cfg(test)]
mod tests {
    use super::*;
    use std::test::Fail;

    #[test]
    fn cells_are_read_by_their_own_family(rt: HostRuntime) -> Result<(), Fail> {
        let value = FixedValue {
            len: 7,
            value: -128,
        };
        let cell = value.to_cell();
        assert_eq!(rt; FixedValue::from_cell(&cell), Some(value));
        assert_eq!(rt; SpanValue::from_cell(&cell), None);
        assert_eq!(rt; ClockValue::from_cell(&Cell::Span(3)), None);
        Ok(())
    }
}
