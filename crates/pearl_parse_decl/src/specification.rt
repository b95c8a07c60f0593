// Specifications of interrupts and dations, and devices.

ghost use Rattle.std.specs.Prelude.{◌≡◌, ◌≢◌, ◌+◌, ◌<◌, ◌≤◌, None, Ok, true, false, codes, length, IfErr, IfSome, refl};
ghost use Rattle.pearl_tree.specs.Standing.{what_at, HasWord, HasId};
ghost use Rattle.pearl_tree.specs.Types as types;
ghost use Rattle.pearl_tree.specs.Declarations as grammar;
ghost use Rattle.pearl_value.specs.declared.device.Direction.{Direction};
ghost use Rattle.pearl_tree.specs.declared.word_code.TheConstants as w;
ghost use Rattle.pearl_parse_expr.specs.declared.reading.Halt.{Halt};
ghost use Rattle.pearl_parse_expr.specs.Stops as stops;
ghost use Rattle.pearl_parse_expr.specs.Reads.{Reads, ReadsOnly};
ghost use Rattle.pearl_parse_expr.proofs.Offered as parts;
ghost use Rattle.pearl_parse_decl.specs.Readings as spec;

use crate::list::{Readable, behind};
use crate::name::{bracketed_number, names};
use crate::typing::basic;
use pearl_parse_expr::reading::{Halt, Reading};
use pearl_parse_expr::standing::{is_symbol, is_word, name_at, place_at};
use pearl_tree::declaration::{Class, Device, DeviceWord, Spec};
use pearl_tree::name::Names;
use pearl_tree::symbol::{COLON, LEFT_ROUND, RIGHT_ROUND, SEMICOLON};
use pearl_tree::token::{Token, What};
use pearl_tree::word_code::{ALL, ALPHIC, BASIC, DATION, IN, INOUT, INTERRUPT, OUT};
use pearl_value::device::Direction;
use std::alloc::Global;

fn direction_at(tokens: &[Token], at: usize) -> Option<Direction>
    ensures some { IfSome result (λ direction. HasWord tokens.now at (grammar.direction_word direction)) }
    ensures none { result ≡ None → (direction : Direction) → HasWord tokens.now at (grammar.direction_word direction) → ⊥ }
    ensures within { IfSome result (λ _. at < length tokens.now) }
{
    if is_word(tokens, at, IN) {
        return Some(Direction::In);
    }
    if is_word(tokens, at, OUT) {
        return Some(Direction::Out);
    }
    if is_word(tokens, at, INOUT) {
        return Some(Direction::InOut);
    }
    None
}

/// `ALPHIC | BASIC basic`
fn class(tokens: &[Token], from: usize) -> Result<Reading<Class>, Halt>
    requires { from ≤ length tokens.now }
    ensures reads { Reads 16 grammar.SpellsClass spec.by_bracket tokens.now from result }
    ensures memory { IfErr result (λ halt. halt ≢ Halt.NoMemory) }
{
    if is_word(tokens, from, ALPHIC) {
        return Ok(Reading {
            part: Class::Alphic {
                place: place_at(tokens, from),
            },
            end: from + 1,
            stop: from + 1,
        });
    }
    if !is_word(tokens, from, BASIC) {
        return Err(Halt::Refused(from));
    }
    match basic(tokens, from + 1) {
        Ok(basic) => Ok(Reading {
            part: Class::Basic {
                basic: basic.part,
                place: place_at(tokens, from),
            },
            end: basic.end,
            stop: basic.stop,
        }),
        Err(halt) => Err(halt),
    }
}

fn is_control_text(text: &[u8]) -> bool
    ensures stands { result ≡ true → text.now ≡ codes "CONTROL" }
    ensures none { result ≡ false → text.now ≡ codes "CONTROL" → ⊥ }
{
    match text {
        b"CONTROL" => true,
        _ => false,
    }
}

fn is_control(tokens: &[Token], at: usize) -> bool
    ensures stands { result ≡ true → HasId tokens.now at (codes "CONTROL") }
    ensures none { result ≡ false → HasId tokens.now at (codes "CONTROL") → ⊥ }
    ensures within { result ≡ true → at < length tokens.now }
{
    match tokens.get(at) {
        Some(token) => match &token.what {
            What::Id(text) => is_control_text(text),
            _ => false,
        },
        None => false,
    }
}

/// `[ "CONTROL" "(" ALL ")" ]`
fn control(tokens: &[Token], from: usize) -> Reading<bool>
    requires { from ≤ length tokens.now }
    ensures { spec.ReadsMaybePart 16 grammar.SpellsControl stops.is_name tokens.now from (Ok result) }
{
    if !is_control(tokens, from) {
        return Reading {
            part: false,
            end: from,
            stop: from,
        };
    }
    if !is_symbol(tokens, from + 1, LEFT_ROUND) {
        return Reading {
            part: false,
            end: from,
            stop: from + 1,
        };
    }
    if !is_word(tokens, from + 2, ALL) {
        return Reading {
            part: false,
            end: from,
            stop: from + 2,
        };
    }
    if !is_symbol(tokens, from + 3, RIGHT_ROUND) {
        return Reading {
            part: false,
            end: from,
            stop: from + 3,
        };
    }
    Reading {
        part: true,
        end: from + 4,
        stop: from + 4,
    }
}

// A dation whose names were read.
fn dation_behind(
    tokens: &[Token],
    from: usize,
    names: Reading<Names>,
) -> Result<Reading<Spec>, Halt>
    requires within { from ≤ length tokens.now }
    requires names { ReadsOnly 9 types.SpellsNames tokens.now from (Ok names) }
    requires word { HasWord tokens.now names.end w.DATION }
    ensures reads { Reads 16 grammar.SpellsSpec spec.extends_spec tokens.now from result }
    ensures memory { IfErr result (λ halt. halt ≢ Halt.NoMemory) }
{
    let direction = match direction_at(tokens, names.end + 1) {
        Some(direction) => direction,
        None => return Err(Halt::Refused(names.stop.max(names.end + 1))),
    };
    let before = names.stop.max(names.end + 1);
    let class = match class(tokens, names.end + 2) {
        Ok(class) => class,
        Err(halt) => return Err(behind(halt, before)),
    };
    let control = control(tokens, class.end);
    Ok(Reading {
        part: Spec::Dation {
            names: names.part,
            direction,
            class: class.part,
            control: control.part,
            place: place_at(tokens, from),
        },
        end: control.end,
        stop: control.stop.max(class.stop.max(before)),
    })
}

/// What is specified here: an interrupt or a dation.
pub fn specified(alloc: Global, tokens: &[Token], from: usize) -> Result<Reading<Spec>, Halt>
    requires { from ≤ length tokens.now }
    ensures { Reads 16 grammar.SpellsSpec spec.extends_spec tokens.now from result }
{
    let names = names(alloc, tokens, from)?;
    if is_word(tokens, names.end, INTERRUPT) {
        let names = names.past(1);
        return Ok(Reading {
            part: Spec::Interrupt {
                names: names.part,
                place: place_at(tokens, from),
            },
            end: names.end,
            stop: names.stop,
        });
    }
    if is_word(tokens, names.end, DATION) {
        return dation_behind(tokens, from, names);
    }
    Err(Halt::Refused(names.stop))
}

impl Readable for Spec {
    ghost spelling = { grammar.SpellsSpec };

    ghost extends = { spec.extends_spec };

    fn read(alloc: Global, tokens: &[Token], from: usize) -> Result<Reading<Spec>, Halt> {
        specified(alloc, tokens, from)
    }

    ghost begins = { parts.specs_begin };

    ghost stops_at_comma = { refl };

    ghost stops_at_bracket = { refl };
}

fn device_word(tokens: &[Token], at: usize) -> Option<DeviceWord>
    ensures some { IfSome result (λ word. grammar.IsDeviceWord tokens.now at word) }
    ensures none { result ≡ None → spec.is_device_word (what_at tokens.now at) ≡ false }
    ensures within { IfSome result (λ _. at < length tokens.now) }
{
    if is_word(tokens, at, INTERRUPT) {
        return Some(DeviceWord::Interrupt {
            place: place_at(tokens, at),
        });
    }
    match name_at(tokens, at) {
        Some(name) => Some(DeviceWord::Id(name)),
        None => None,
    }
}

/// `id ":" ( id | INTERRUPT ) "(" number ")" ";"`
pub fn device(tokens: &[Token], from: usize) -> Result<Reading<Device>, Halt>
    requires { from ≤ length tokens.now }
    ensures reads { ReadsOnly 16 grammar.SpellsDevice tokens.now from result }
    ensures memory { IfErr result (λ halt. halt ≢ Halt.NoMemory) }
{
    let name = match name_at(tokens, from) {
        Some(name) => name,
        None => return Err(Halt::Refused(from)),
    };
    if !is_symbol(tokens, from + 1, COLON) {
        return Err(Halt::Refused(from + 1));
    }
    let word = match device_word(tokens, from + 2) {
        Some(word) => word,
        None => return Err(Halt::Refused(from + 2)),
    };
    let number = bracketed_number(tokens, from + 3)?;
    if !is_symbol(tokens, from + 6, SEMICOLON) {
        return Err(Halt::Refused(from + 6));
    }
    Ok(Reading {
        part: Device {
            name,
            word,
            number: number.part,
            place: place_at(tokens, from),
        },
        end: from + 7,
        stop: from + 7,
    })
}
