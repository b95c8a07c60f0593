// The operators on two FIXED numbers, and a FIXED number in another length.

ghost use Rattle.std.specs.Prelude.{◌≡◌, ◌≢◌, ◌≤◌, ◌-◌, ◌^◌, pos, ◌+ℤ◌, ◌-ℤ◌, ◌*ℤ◌, int_div};
ghost use Rattle.pearl_value.specs.Kinds.{IsKind};
ghost use Rattle.pearl_value.specs.WellFormed.{IsValue};
ghost use Rattle.pearl_value.specs.Conversions.{fits_fixed, fixed_of, converted};
ghost use Rattle.pearl_value.specs.Applied.{applied2};
ghost use Rattle.pearl_value.specs.declared.cell.Cell.{Cell};
ghost use Rattle.pearl_value.specs.declared.kind.Kind.{Kind};
ghost use Rattle.pearl_cells.specs.Made.{result_of};

use pearl_value::apply::apply2;
use pearl_value::cell::Cell;
use pearl_value::operator::Dyad;
use pearl_value::trap::Trap;

/// What an operator makes of two numbers.
#[derive(Clone, Copy, PartialEq, Eq, Debug)]
pub enum Made {
    /// A FIXED number.
    Number { len: u8, value: i64 },
    /// A BIT(1).
    Truth(bool),
    Trapped(Trap),
}

fn power_of_two(len: u8) -> i128
    requires { len ≤ 63 }
    ensures { result ≡ pos (2 ^ len) }
{
    (1u64 << len) as i128
}

// Whether a number lies from -2^len to 2^len - 1.
fn is_in_range(value: i128, len: u8) -> bool
    requires { len ≤ 63 }
    ensures { result ≡ fits_fixed len value }
{
    let end = power_of_two(len);
    -end <= value && value <= end - 1
}

// The FIXED number of this length, or the trap where it is outside the range.
fn fixed(len: u8, value: i128) -> Made
    requires { len ≤ 63 }
    ensures { result_of result ≡ fixed_of len value }
{
    if is_in_range(value, len) {
        Made::Number {
            len,
            value: value as i64,
        }
    } else {
        Made::Trapped(Trap::Overflow)
    }
}

fn sum(a: i64, b: i64) -> i128
    ensures { result ≡ a +ℤ b }
{
    a as i128 + b as i128
}

fn difference(a: i64, b: i64) -> i128
    ensures { result ≡ a -ℤ b }
{
    a as i128 - b as i128
}

fn product(a: i64, b: i64) -> i128
    ensures { result ≡ a *ℤ b }
{
    a as i128 * b as i128
}

// The quotient that is cut towards zero. Only that of the least number can have 65 digits.
fn quotient(a: i64, b: i64) -> i128
    requires { b ≢ pos 0 }
    ensures { result ≡ int_div a b }
{
    if a == i64::MIN {
        a as i128 / b as i128
    } else {
        (a / b) as i128
    }
}

// What it leaves.
fn remainder(a: i64, b: i64) -> i128
    requires { b ≢ pos 0 }
    ensures { result ≡ a -ℤ (b *ℤ int_div a b) }
{
    if a == i64::MIN {
        a as i128 % b as i128
    } else {
        (a % b) as i128
    }
}

// An operator for which there is no shorter way.
fn applied(op: Dyad, len: u8, a: i64, other: u8, b: i64) -> Made
    requires left { IsValue (Cell.Fixed len a) }
    requires right { IsValue (Cell.Fixed other b) }
    requires power { op ≡ Dyad.Pow }
    ensures { result_of result ≡ applied2 op (Cell.Fixed len a) (Cell.Fixed other b) }
{
    let left = Cell::Fixed { len, value: a };
    let right = Cell::Fixed {
        len: other,
        value: b,
    };
    match apply2(op, &left, &right) {
        Ok(Cell::Fixed { len, value }) => Made::Number { len, value },
        Ok(_) => Made::Trapped(Trap::Range),
        Err(trap) => Made::Trapped(trap),
    }
}

/// What the operator makes of two FIXED numbers, in the order in which they are written.
pub fn of_two(op: Dyad, len: u8, a: i64, other: u8, b: i64) -> Made
    requires left { IsValue (Cell.Fixed len a) }
    requires right { IsValue (Cell.Fixed other b) }
    ensures { result_of result ≡ applied2 op (Cell.Fixed len a) (Cell.Fixed other b) }
{
    match op {
        Dyad::Add => fixed(len.max(other), sum(a, b)),
        Dyad::Sub => fixed(len.max(other), difference(a, b)),
        Dyad::Mul => fixed(len.max(other), product(a, b)),
        Dyad::Div => {
            if b == 0 {
                Made::Trapped(Trap::ZeroDivide)
            } else {
                fixed(len.max(other), quotient(a, b))
            }
        }
        Dyad::Rem => {
            if b == 0 {
                Made::Trapped(Trap::ZeroDivide)
            } else {
                fixed(len.max(other), remainder(a, b))
            }
        }
        Dyad::Lt => Made::Truth(a < b),
        Dyad::Gt => Made::Truth(a > b),
        Dyad::Le => Made::Truth(a <= b),
        Dyad::Ge => Made::Truth(a >= b),
        Dyad::Eq => Made::Truth(a == b),
        Dyad::Ne => Made::Truth(a != b),
        Dyad::Pow => applied(op, len, a, other, b),
        _ => Made::Trapped(Trap::Range),
    }
}

/// The FIXED number in another length.
pub fn in_length(value: i64, len: u8, to: u8) -> Made
    requires { IsKind (Kind.Fixed to) }
    ensures { result_of result ≡ converted (Cell.Fixed len value) (Kind.Fixed to) }
{
    fixed(to, value as i128)
}
