// How a device stands.

ghost use Rattle.std.specs.Prelude.{◌≡◌, ◌≤◌, [], ◌∷◌, ◌++◌, All, Some, IfOk, IsTrue, MatchOption, drop, length, nat_le, nat_lt, slice_get, if◌then◌else◌};
ghost use Rattle.pearl_value.specs.WellFormed.{IsTyped};
ghost use Rattle.pearl_records.specs.Records.{switch_in, bytes_in as bytes_recorded, values_in as values_recorded};
ghost use Rattle.pearl_records.specs.States.{WaitsTyped, WaitsOf};
ghost use Rattle.pearl_rules.specs.Core.{Switch, Bytes, Values, Outward, first_channel};
ghost use Rattle.pearl_rules.specs.Devices.{is_on, bytes_in, values_in, terminal_room, input_room};
ghost use Rattle.pearl_rules.specs.Pick.{is_some_value};
ghost use Rattle.pearl_kernel.specs.Channels.{HasBytes, HasValuesFor, IsFor, behind, taken_in, without_oldest};
ghost use Rattle.pearl_value.specs.Conversions.{converted};

use pearl_port::input::Input;
use pearl_port::terminal::Terminal;
use pearl_value::cell::Cell;
use pearl_value::conversion::convert;
use pearl_value::device::Device;
use pearl_value::kind::Kind;
use pearl_value::listing::Listing;
use std::alloc::{AllocError, Global};
use std::marker::Model;

// How many bytes may wait at a terminal.
const BYTES: usize = 4096;

// How many values may wait at an input.
const ROOM: usize = 256;

#[derive(Drop)]
enum Waiting {
    Switch(bool),
    Bytes(Terminal),
    Values(Input),
    Outward,
}

/// How a device stands: an interrupt is let through or masked, and what came in waits at a terminal or an input.
#[derive(Drop)]
pub struct Channel {
    waiting: Waiting,
}

impl Model for Channel {
    ghost use Rattle.pearl_rules.specs.Core as rules;
    ghost use Rattle.pearl_kernel.specs.Channels.{standing, HasOwnRoom};

    ghost Value = { rules.Channel };

    ghost view = { λ c. standing c.waiting };

    ghost invariant = { λ c. HasOwnRoom c.waiting };
}

impl Channel {
    /// How a device stands at the start. It takes all the memory that it will ever need.
    pub fn new(alloc: Global, device: &Device) -> Result<Channel, AllocError>
        ensures { IfOk result (λ channel. channel ≡ first_channel device.now) }
    {
        let waiting = match device {
            Device::Interrupt { .. } => Waiting::Switch(false),
            Device::Terminal { .. } => Waiting::Bytes(Terminal::new(alloc)?),
            Device::Input { kind, .. } => Waiting::Values(Input::new(alloc, *kind, ROOM)?),
            Device::Output { .. } => Waiting::Outward,
        };
        Ok(Channel { waiting })
    }

    /// A terminal at which these bytes wait. It takes all the memory that it will ever need.
    pub fn terminal(alloc: Global, pending: &[u8]) -> Result<Channel, AllocError>
        requires { WaitsTyped pending.now }
        ensures { IfOk result (λ channel. channel ≡ Bytes pending.now) }
    {
        let mut terminal = Terminal::new(alloc)?;
        terminal.add(pending);
        let waiting = Waiting::Bytes(terminal);
        Ok(Channel { waiting })
    }

    /// An input at which these values wait. It takes all the memory that it will ever need.
    pub fn input(alloc: Global, kind: Kind, pending: &[Cell]) -> Result<Channel, AllocError>
        requires { WaitsOf kind pending.now }
        ensures { IfOk result (λ channel. channel ≡ Values kind pending.now) }
    {
        let mut input = Input::new(alloc, kind, ROOM)?;
        for value in pending {
            input.offer(value);
        }
        let waiting = Waiting::Values(input);
        Ok(Channel { waiting })
    }

    /// A device from which nothing comes in.
    pub fn outward() -> Channel
        ensures { result ≡ Outward }
    {
        let waiting = Waiting::Outward;
        Channel { waiting }
    }

    /// Whether an interrupt is let through, and nothing of another device.
    pub fn switched(&self) -> Option<bool>
        ensures { MatchOption result (switch_in self.now ≡ []) (λ enabled. switch_in self.now ≡ enabled ∷ []) }
    {
        match &self.waiting {
            Waiting::Switch(enabled) => Some(*enabled),
            _ => None,
        }
    }

    /// The bytes that wait at a terminal, and nothing of another device.
    pub fn typed(&self) -> Option<&[u8]>
        ensures { MatchOption result (bytes_recorded self.now ≡ []) (λ pending. bytes_recorded self.now ≡ pending.now ∷ []) }
    {
        match &self.waiting {
            Waiting::Bytes(terminal) => Some(terminal.waiting()),
            _ => None,
        }
    }

    /// Copies of the values that wait at an input, and nothing of another device.
    pub fn values(&self, alloc: Global) -> Result<Option<Listing<Cell>>, AllocError>
        ensures { IfOk result (λ copied. MatchOption copied (values_recorded self.now ≡ [])
            (λ pending. values_recorded self.now ≡ pending ∷ [])) }
    {
        match &self.waiting {
            Waiting::Values(input) => Ok(Some(copied(alloc, input)?)),
            _ => Ok(None),
        }
    }

    /// An interrupt that is let through or masked.
    pub fn switch(enabled: bool) -> Channel
        ensures { result ≡ Switch enabled }
    {
        let waiting = Waiting::Switch(enabled);
        Channel { waiting }
    }

    /// Whether an interrupt is let through.
    pub fn is_on(&self) -> bool
        ensures { result ≡ is_on (Some self.now) }
    {
        match &self.waiting {
            Waiting::Switch(enabled) => *enabled,
            _ => false,
        }
    }

    /// The bytes that wait; none where it isn't a terminal.
    pub fn bytes(&self) -> &[u8]
        ensures bytes { result.now ≡ bytes_in (Some self.now) }
        ensures within { length result.now ≤ 4096 }
    {
        match &self.waiting {
            Waiting::Bytes(terminal) => terminal.waiting(),
            _ => &[],
        }
    }

    /// Bytes come in at a terminal, where there is room for all of them. The answer tells whether there is.
    pub fn add(&mut self, text: &[u8]) -> bool
        requires terminal { HasBytes (Some self.old) }
        requires typed { All IsTyped text.now }
        ensures room { result ≡ nat_le (length (bytes_in (Some self.old) ++ text.now)) terminal_room }
        ensures waiting { self.new ≡ (if result then Bytes (bytes_in (Some self.old) ++ text.now) else self.old) }
    {
        match &mut self.waiting {
            Waiting::Bytes(terminal) => {
                if text.len() > BYTES - terminal.len() {
                    return false;
                }
                terminal.add(text)
            }
            _ => unreachable!(),
        }
    }

    /// The oldest bytes of a terminal, so many of them, are gone.
    pub fn drop_bytes(&mut self, used: usize)
        requires { HasBytes (Some self.old) }
        ensures { self.new ≡ Bytes (drop used (bytes_in (Some self.old))) }
    {
        match &mut self.waiting {
            Waiting::Bytes(terminal) => {
                let used = used.min(terminal.len());
                terminal.drop_front(used);
            }
            _ => unreachable!(),
        }
    }

    /// Whether a value waits.
    pub fn has_value(&self) -> bool
        ensures { result ≡ is_some_value (values_in (Some self.now)) }
    {
        match &self.waiting {
            Waiting::Values(input) => input.len() > 0,
            _ => false,
        }
    }

    /// A value comes in at an input, where there is room. The answer tells whether there is.
    pub fn take_in(&mut self, value: &Cell) -> bool
        requires { HasValuesFor value.now (Some self.old) }
        ensures room { result ≡ nat_lt (length (values_in (Some self.old))) input_room }
        ensures waiting { self.new ≡ (if result then taken_in self.old value.now else self.old) }
    {
        match &mut self.waiting {
            Waiting::Values(input) => take_in(input, value),
            _ => unreachable!(),
        }
    }

    /// Takes the oldest value; none exactly where nothing waits.
    pub fn next(&mut self) -> Option<Cell>
        ensures oldest { result ≡ slice_get (values_in (Some self.old)) 0 }
        ensures waiting { self.new ≡ without_oldest self.old }
    {
        match &mut self.waiting {
            Waiting::Values(input) => input.next(),
            _ => None,
        }
    }
}

// The values that wait at an input.
fn copied(alloc: Global, input: &Input) -> Result<Listing<Cell>, AllocError>
    ensures { IfOk result (λ values. values ≡ input.now.items) }
{
    let mut values = Vec::with_capacity(alloc, input.len())?;
    for at in 0..input.len() {
        values.push(input.item(at))?;
    }
    Ok(Listing::new(values))
}

// A value comes in, converted to the input's kind, where there is room.
fn take_in(input: &mut Input, value: &Cell) -> bool
    requires room { input.old.room ≡ input_room }
    requires suits { IsFor value.now input.old.kind }
    ensures room { result ≡ nat_lt (length input.old.items) input_room }
    ensures items { input.new ≡ (if result then record input.old {
      items = behind input.old.kind input.old.items (converted value.now input.old.kind);
    } else input.old) }
{
    if input.len() >= ROOM {
        return false;
    }
    if let Ok(value) = convert(value, input.kind()) {
        input.offer(&value);
    }
    true
}
