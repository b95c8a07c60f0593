// What was told and not taken yet.

ghost use Rattle.std.specs.Prelude.{◌≡◌, ◌<◌, ◌==◌, [], ◌∷◌, ◌++◌, List, IfOk, MatchOption, drop, length};
ghost use Rattle.pearl_rules.specs.declared.event.Event.{Event as Happening};
ghost use Rattle.pearl_rules.specs.declared.event.Event.TheVariants.{Out};

use arrayvec::ArrayVec;
use circular_buffer::HeapCircularBuffer;
use pearl_rules::event::Event;
use std::alloc::{AllocError, Global};
use std::marker::Model;
use std::mem;

// How many events may wait to be taken.
const ROOM: usize = 200;

/// What was told and not taken yet. Each event is written at a place that was made at the start, since one with a text
/// is large.
#[derive(Drop)]
pub struct Told {
    events: HeapCircularBuffer<Box<Event>>,
    // The places at which no event waits.
    free: HeapCircularBuffer<Box<Event>>,
}

impl Model for Told {
    ghost use Rattle.std.specs.Prelude.{◌≡◌, ◌+◌, List, length, map, box_value};
    ghost use Rattle.pearl_rules.specs.declared.event.Event.{Event};

    ghost Value = { List Event };

    ghost view = { λ t. map box_value t.events.items };

    ghost invariant = { λ t. (t.events.capacity ≡ 200) × (t.free.capacity ≡ 200)
        × (length t.events.items + length t.free.items ≡ 200) };
}

impl Told {
    /// Nothing was told. It takes all the memory that it will ever need.
    pub fn new(alloc: Global) -> Result<Told, AllocError>
        ensures { IfOk result (λ told. told ≡ []) }
    {
        let events = HeapCircularBuffer::with_capacity(alloc, ROOM)?;
        let mut free = HeapCircularBuffer::with_capacity(alloc, ROOM)?;
        for _ in 0..ROOM {
            free.push_back(Box::new(alloc, Event::End(0))?);
        }
        Ok(Told { events, free })
    }

    /// Whether each event was taken.
    pub fn is_empty(&self) -> bool
        ensures { result ≡ (length self.now == 0) }
    {
        self.events.is_empty()
    }

    /// One more event.
    pub fn note(&mut self, event: Event)
        requires { length self.old < 200 }
        ensures { self.new ≡ self.old ++ event ∷ [] }
    {
        let Some(mut place) = self.free.pop_back() else {
            unreachable!()
        };
        put_event(&mut place, event);
        self.events.push_back(place);
    }

    /// One more event: a text was written to a terminal.
    pub fn note_text(&mut self, device: u32, text: &ArrayVec<u8, 1024>)
        requires { length self.old < 200 }
        ensures { self.new ≡ self.old ++ Out device text.now ∷ [] }
    {
        let Some(mut place) = self.free.pop_back() else {
            unreachable!()
        };
        put_text(&mut place, device, text);
        self.events.push_back(place);
    }

    /// The first event.
    pub fn first(&self) -> Option<&Event>
        ensures { MatchOption result (self.now ≡ []) (λ event. (later : List Happening) × (self.now ≡ event.now ∷ later)) }
    {
        match self.events.front() {
            None => None,
            Some(place) => Some(place),
        }
    }

    /// The first event is taken, if there is one.
    pub fn drop_first(&mut self)
        ensures { self.new ≡ drop 1 self.old }
    {
        if let Some(place) = self.events.pop_front() {
            self.free.push_back(place);
        }
    }

    /// Takes the first event.
    pub fn take_first(&mut self) -> Option<Event>
        ensures { MatchOption result ((self.old ≡ []) × (self.new ≡ self.old)) (λ event. self.old ≡ event ∷ self.new) }
    {
        let mut place = self.events.pop_front()?;
        let event = take_event(&mut place);
        self.free.push_back(place);
        Some(event)
    }
}

fn put_event(place: &mut Event, event: Event)
    ensures { place.new ≡ event }
{
    *place = event;
}

// The event that stands at a place. What stands there then doesn't matter.
fn take_event(place: &mut Event) -> Event
    ensures { result ≡ place.old }
{
    mem::replace(place, Event::End(0))
}

// Puts there that a text was written to a terminal. Where another text stood only the bytes are copied.
fn put_text(place: &mut Event, device: u32, text: &ArrayVec<u8, 1024>)
    ensures { place.new ≡ Out device text.now }
{
    match place {
        Event::Out {
            device: to,
            text: old,
        } => {
            *to = device;
            copy_text(old, text);
        }
        _ => {
            let text = text.clone().unwrap();
            put_event(place, Event::Out { device, text });
        }
    }
}

fn copy_text(into: &mut ArrayVec<u8, 1024>, text: &ArrayVec<u8, 1024>)
    ensures { into.new ≡ text.now }
{
    into.clear();
    into.try_extend_from_slice(text.as_slice()).unwrap();
}
