// The values that came in at an input and wait there.

ghost use Rattle.std.specs.Prelude.{◌≡◌, ◌↔◌, ◌<◌, ◌≤◌, Some, IsFalse, IfOk, if◌then◌else◌, length, slice_get};
ghost use Rattle.pearl_port.specs.Pending.{empty, IsFull, joined, served};

use circular_buffer::HeapCircularBuffer;
use pearl_value::kind::Kind;
use std::alloc::{AllocError as NoMemory, Global};
use std::marker::Model;

/// What waits at one input, from the oldest value on. It is taken in the order in which it came in.
#[derive(Drop)]
pub struct Port<T> {
    kind: Kind,
    waiting: HeapCircularBuffer<T>,
}

impl<T> Model for Port<T> {
    ghost use Rattle.std.specs.Prelude.{◌≤◌, length};
    ghost use Rattle.pearl_port.specs.Pending.{Queue};

    ghost Value = { Queue T };

    ghost view = { λ p. record { kind = p.kind; room = p.waiting.capacity; items = p.waiting.items } };

    ghost invariant = { λ p. length p.waiting.items ≤ p.waiting.capacity };
}

impl<T: Drop> Port<T> {
    /// An input for values of this kind, at which nothing waits and at most so many may. It takes all the memory that
    /// it will ever need.
    pub fn new(alloc: Global, kind: Kind, room: usize) -> Result<Port<T>, NoMemory>
        ensures { IfOk result (λ port. port ≡ empty kind room) }
    {
        let waiting = HeapCircularBuffer::with_capacity(alloc, room)?;
        Ok(Port { kind, waiting })
    }

    /// The kind of its values.
    pub fn kind(&self) -> Kind
        ensures { result ≡ self.now.kind }
    {
        self.kind
    }

    /// How many wait.
    pub fn len(&self) -> usize
        ensures len { result ≡ length self.now.items }
        ensures within { result ≤ self.now.room }
    {
        self.waiting.len()
    }

    /// One of those that wait; the oldest one has the number 0.
    pub fn item(&self, at: usize) -> &T
        requires { at < length self.now.items }
        ensures { slice_get self.now.items at ≡ Some result.now }
    {
        self.waiting.get(at).unwrap()
    }

    /// A value comes in: it waits behind all others, or, where the input is full, it is dropped and nothing changes.
    /// The answer tells whether it waits.
    pub fn offer(&mut self, item: T) -> bool
        ensures full { IsFalse result ↔ IsFull self.old }
        ensures queue { self.new ≡ (if result then joined self.old item else self.old) }
    {
        self.waiting.try_push_back(item).is_ok()
    }

    /// Takes the oldest value; none exactly where nothing waits.
    pub fn next(&mut self) -> Option<T>
        ensures oldest { result ≡ slice_get self.old.items 0 }
        ensures queue { self.new ≡ served self.old }
    {
        self.waiting.pop_front()
    }
}

#[cfg(test)]
mod tests {
    use super::*;
    use std::test::Fail;

    #[test]
    fn values_come_out_in_order(rt: HostRuntime) -> Result<(), Fail> {
        let mut port = Port::new(rt.alloc(), Kind::Clock, 2)?;
        assert_eq!(rt; port.next(), None);
        assert!(rt; port.offer(7_u32));
        assert!(rt; port.offer(8));
        assert!(rt; !port.offer(9));
        assert_eq!(rt; port.next(), Some(7));
        assert!(rt; port.offer(10));
        assert_eq!(rt; port.next(), Some(8));
        assert_eq!(rt; port.next(), Some(10));
        assert_eq!(rt; port.next(), None);
        assert_eq!(rt; port.len(), 0);
        Ok(())
    }
}
