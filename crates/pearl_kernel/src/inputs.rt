// What comes in from outside.

ghost use Rattle.std.specs.Prelude.{◌≡◌, ◌≤◌, ◌++◌, [], ◌∷◌, All, length};
ghost use Rattle.pearl_value.specs.WellFormed.{IsTyped};
ghost use Rattle.pearl_rules.specs.Devices.{arrived, channel_of, with_bytes, with_value};
ghost use Rattle.pearl_kernel.specs.Channels.{HasBytes, HasValuesFor, ComesIn};
ghost use Rattle.pearl_kernel.specs.Changes.{Stirs};
ghost use Rattle.pearl_kernel.specs.Timing.{IsTimely};

use crate::changes::Changed;
use crate::state::State;
use arrayvec::ArrayVec;
use pearl_rules::entry::Entry;
use pearl_rules::event::Event;
use pearl_value::cell::Cell;

impl State {
    /// What an entry of a journal does by itself, whoever could act. The answer tells what may have changed of all that
    /// offers wait for: none where no task and no offer is touched.
    pub fn arrive(&mut self, entry: &Entry) -> Option<Changed>
        requires few { length self.old.core.tasks ≤ 200 }
        requires told { self.old.core.told ≡ [] }
        requires timely { IsTimely self.old.core }
        requires comes { ComesIn self.old.core entry.now }
        ensures arrived { self.new ≡ record self.old { core = arrived self.old.core entry.now } }
        ensures stirs { Stirs self.old.core self.new.core result }
    {
        match entry {
            Entry::Clock(time) => {
                self.set_clock(*time);
                None
            }
            Entry::Irpt(device) => self.interrupted(*device),
            Entry::Chars { device, text } => self.add_text(*device, text.as_slice()),
            Entry::Line { device, text } => self.add_line(*device, text),
            Entry::Value { device, value } => self.come_in(*device, value),
            _ => None,
        }
    }

    // Bytes come in at a terminal; that there isn't room for all of them is told.
    fn add_text(&mut self, device: u32, text: &[u8]) -> Option<Changed>
        requires told { self.old.core.told ≡ [] }
        requires terminal { HasBytes (channel_of self.old.core device) }
        requires typed { All IsTyped text.now }
        ensures waiting { self.new ≡ record self.old { core = with_bytes self.old.core device text.now } }
        ensures stirs { Stirs self.old.core self.new.core result }
    {
        if self.add_bytes(device, text) {
            return Some(Changed::Device(device));
        }
        self.note(Event::Lost(device));
        None
    }

    // Likewise, with byte 10 after them.
    fn add_line(&mut self, device: u32, text: &ArrayVec<u8, 1024>) -> Option<Changed>
        requires told { self.old.core.told ≡ [] }
        requires terminal { HasBytes (channel_of self.old.core device) }
        requires typed { All IsTyped text.now.items }
        ensures waiting { self.new ≡ record self.old { core = with_bytes self.old.core device (text.now.items ++ 10 ∷ []) } }
        ensures stirs { Stirs self.old.core self.new.core result }
    {
        let mut line: ArrayVec<u8, 1025> = ArrayVec::new();
        line.try_extend_from_slice(text.as_slice()).unwrap();
        line.push(10);
        self.add_text(device, line.as_slice())
    }

    // A value comes in at an input; that there isn't room for it is told.
    fn come_in(&mut self, device: u32, value: &Cell) -> Option<Changed>
        requires told { self.old.core.told ≡ [] }
        requires input { HasValuesFor value.now (channel_of self.old.core device) }
        ensures waiting { self.new ≡ record self.old { core = with_value self.old.core device value.now } }
        ensures stirs { Stirs self.old.core self.new.core result }
    {
        if self.take_in(device, value) {
            return Some(Changed::Device(device));
        }
        self.note(Event::Lost(device));
        None
    }
}
