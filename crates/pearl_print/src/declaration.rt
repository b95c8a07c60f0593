// Devices, and declarations other than those that have a body.
#![tactic(auto, using(crate::proofs::Texts::text_steps, std::proofs::lemmas::Grind::common_steps))]

ghost use Rattle.std.specs.Prelude.{◌≡◌, ◌++◌, OnOk};
ghost use Rattle.pearl_tree.specs.Declarations.{direction_word};
ghost use Rattle.pearl_print.specs.Spelled.{text_of_tokens};
ghost use Rattle.pearl_print.specs.Declarations.{device_word_tokens, device_tokens, prio_tokens, item_tokens, sema_tokens, declared_tokens, class_tokens, spec_tokens, param_tokens};

use crate::lists::{Part, put_bracketed_number, put_flag, put_maybe_headed};
use crate::put::{put_symbol, put_word};
use crate::typing::{put_basic, put_bounds, put_names, put_typing};
use pearl_tree::declaration::{Class, Declared, Device, DeviceWord, Item, Param, Prio, Sema, Spec};
use pearl_tree::symbol::{COLON, SEMICOLON};
use pearl_tree::word_code::{
    ALPHIC, BASIC, DATION, IDENT, IN, INIT, INOUT, INTERRUPT, INV, OUT, PRESET, PRIO, SEMA,
};
use pearl_value::device::Direction;
use std::alloc::AllocError as NoMemory;

fn put_device_word(into: &mut Vec<u8>, word: &DeviceWord) -> Result<(), NoMemory>
    ensures { OnOk result (into.new.items ≡ into.old.items ++ text_of_tokens (device_word_tokens word.now)) }
{
    match word {
        DeviceWord::Id(name) => name.put(into),
        DeviceWord::Interrupt { .. } => put_word(into, INTERRUPT),
    }
}

impl Part for Device {
    ghost tokens = { device_tokens };

    fn put(&self, into: &mut Vec<u8>) -> Result<(), NoMemory> {
        self.name.put(into)?;
        put_symbol(into, COLON)?;
        put_device_word(into, &self.word)?;
        put_bracketed_number(into, &self.number)?;
        put_symbol(into, SEMICOLON)?;
        Ok(())
    }
}

impl Part for Prio {
    ghost tokens = { prio_tokens };

    fn put(&self, into: &mut Vec<u8>) -> Result<(), NoMemory> {
        put_word(into, PRIO)?;
        self.number.put(into)?;
        Ok(())
    }
}

impl Part for Item {
    ghost tokens = { item_tokens };

    fn put(&self, into: &mut Vec<u8>) -> Result<(), NoMemory> {
        put_names(into, &self.names)?;
        put_bounds(into, self.bounds.as_slice())?;
        put_flag(into, INV, self.inv)?;
        put_typing(into, &self.typing)?;
        put_maybe_headed(into, INIT, self.init.as_slice())?;
        Ok(())
    }
}

fn put_sema(into: &mut Vec<u8>, sema: &Sema) -> Result<(), NoMemory>
    ensures { OnOk result (into.new.items ≡ into.old.items ++ text_of_tokens (sema_tokens sema.now)) }
{
    put_names(into, &sema.names)?;
    put_word(into, SEMA)?;
    put_maybe_headed(into, PRESET, sema.preset.as_slice())?;
    Ok(())
}

impl Part for Declared {
    ghost tokens = { declared_tokens };

    fn put(&self, into: &mut Vec<u8>) -> Result<(), NoMemory> {
        match self {
            Declared::Item(item) => item.put(into),
            Declared::Sema(sema) => put_sema(into, sema),
        }
    }
}

fn direction_word(direction: Direction) -> u8
    ensures { result ≡ direction_word direction }
{
    match direction {
        Direction::In => IN,
        Direction::Out => OUT,
        Direction::InOut => INOUT,
    }
}

fn put_class(into: &mut Vec<u8>, class: &Class) -> Result<(), NoMemory>
    ensures { OnOk result (into.new.items ≡ into.old.items ++ text_of_tokens (class_tokens class.now)) }
{
    match class {
        Class::Alphic { .. } => put_word(into, ALPHIC),
        Class::Basic { basic, .. } => {
            put_word(into, BASIC)?;
            put_basic(into, basic)?;
            Ok(())
        }
    }
}

impl Part for Spec {
    ghost tokens = { spec_tokens };

    fn put(&self, into: &mut Vec<u8>) -> Result<(), NoMemory> {
        match self {
            Spec::Interrupt { names, .. } => {
                put_names(into, names)?;
                put_word(into, INTERRUPT)?;
                Ok(())
            }
            Spec::Dation {
                names,
                direction,
                class,
                ..
            } => {
                put_names(into, names)?;
                put_word(into, DATION)?;
                put_word(into, direction_word(*direction))?;
                put_class(into, class)?;
                Ok(())
            }
        }
    }
}

impl Part for Param {
    ghost tokens = { param_tokens };

    fn put(&self, into: &mut Vec<u8>) -> Result<(), NoMemory> {
        put_names(into, &self.names)?;
        put_basic(into, &self.basic)?;
        put_flag(into, IDENT, self.ident)?;
        Ok(())
    }
}
