// Words and parts that may be missing.

ghost use Rattle.std.specs.Prelude.{◌≡◌, ◌≢◌, ◌+◌, ◌≤◌, Ok, length, IfErr};
ghost use Rattle.pearl_tree.specs.Standing.{SpellsFlag};
ghost use Rattle.pearl_parse_expr.specs.declared.reading.Halt.{Halt};
ghost use Rattle.pearl_parse_expr.specs.Stops as stops;
ghost use Rattle.pearl_parse_decl.specs.Readings as spec;

use pearl_parse_expr::reading::{Halt, Reading};
use pearl_parse_expr::standing::is_word;
use pearl_tree::token::Token;

/// `[ word ]`
pub fn flag(tokens: &[Token], from: usize, word: u8) -> Reading<bool>
    requires { from ≤ length tokens.now }
    ensures reads { spec.ReadsMaybePart 16 (λ tokens. SpellsFlag tokens word) (stops.is_word word) tokens.now from (Ok result) }
    ensures once { result.stop ≡ result.end }
{
    if is_word(tokens, from, word) {
        Reading {
            part: true,
            end: from + 1,
            stop: from + 1,
        }
    } else {
        Reading {
            part: false,
            end: from,
            stop: from,
        }
    }
}

/// A part that may be missing, from the reader of one that may not: where it is refused, nothing is read.
pub(crate) fn optional<T: Drop>(read: Result<Reading<T>, Halt>, from: usize) -> Reading<Option<T>>
    requires { IfErr read (λ halt. halt ≢ Halt.NoMemory) }
    ensures { spec.IsOptional from read result }
{
    match read {
        Ok(reading) => Reading {
            part: Some(reading.part),
            end: reading.end,
            stop: reading.stop,
        },
        Err(halt) => match halt {
            Halt::Refused(stop) => Reading {
                part: None,
                end: from,
                stop,
            },
            Halt::NoMemory => unreachable!(),
        },
    }
}
