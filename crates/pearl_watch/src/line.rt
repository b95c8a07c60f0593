// The pieces of a line.

ghost use Rattle.std.specs.Prelude.{◌≡◌, ◌+◌, ◌≤◌, ◌++◌, length};
ghost use Rattle.std.specs.Fmt.{decimal};
ghost use Rattle.pearl_value.specs.WellFormed.{IsValue};
ghost use Rattle.pearl_watch.specs.Changes.{last_line as line_at_end};
ghost use Rattle.pearl_watch.specs.Lines.{value_line};

use arrayvec::ArrayVec;
use itoa::Buffer;
use pearl_script::literal::push_literal;
use pearl_value::cell::Cell;

fn push_bytes(bytes: &[u8], into: &mut ArrayVec<u8, 2304>)
    requires { length into.old.items + length bytes.now ≤ 2304 }
    ensures text { into.new.items ≡ into.old.items ++ bytes.now }
    ensures len { length into.new.items ≡ length into.old.items + length bytes.now }
{
    into.try_extend_from_slice(bytes).unwrap();
}

fn push_number(number: u64, into: &mut ArrayVec<u8, 2304>)
    requires { length into.old.items + 20 ≤ 2304 }
    ensures text { into.new.items ≡ into.old.items ++ decimal number }
    ensures len { length into.new.items ≤ length into.old.items + 20 }
{
    let mut buffer = Buffer::new();
    push_bytes(buffer.format(number).as_bytes(), into);
}

/// Makes `into` the line of a value, whatever it held before.
pub(crate) fn value_line(
    marks: u64,
    now: u64,
    name: &[u8],
    number: u32,
    value: &Cell,
    into: &mut ArrayVec<u8, 2304>,
)
    requires short { length name.now ≤ 1024 }
    requires value { IsValue value.now }
    ensures { into.new.items ≡ value_line marks now name.now number value.now }
{
    into.clear();
    push_number(marks, into);
    push_bytes(b" ", into);
    push_number(now, into);
    push_bytes(b" value ", into);
    push_bytes(name, into);
    push_bytes(b" ", into);
    push_number(u64::from(number), into);
    push_bytes(b" ", into);
    push_literal(value, into);
    push_bytes(b"\n", into);
}

/// Makes `into` the last line, whatever it held before.
pub(crate) fn last_line(marks: u64, now: u64, into: &mut ArrayVec<u8, 2304>)
    ensures { into.new.items ≡ line_at_end marks now }
{
    into.clear();
    push_number(marks, into);
    push_bytes(b" ", into);
    push_number(now, into);
    push_bytes(b" close\n", into);
}
