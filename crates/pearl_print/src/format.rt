// Items of formats.
#![tactic(auto, using(crate::proofs::Texts::text_steps, std::proofs::lemmas::Grind::common_steps))]

ghost use Rattle.std.specs.Prelude.{◌≡◌, ◌++◌, OnOk};
ghost use Rattle.pearl_tree.specs.Formats.{free_text, wide_text};
ghost use Rattle.pearl_print.specs.Formats.{fmt_tokens};

use crate::lists::{Part, put_bracketed_number};
use crate::put::put_id;
use pearl_tree::format::{Fmt, FreeCode, WideCode};
use std::alloc::AllocError as NoMemory;

fn free_text(code: FreeCode) -> &'static [u8]
    ensures { result.now ≡ free_text code }
{
    match code {
        FreeCode::A => b"A",
        FreeCode::B => b"B",
        FreeCode::B1 => b"B1",
        FreeCode::B2 => b"B2",
        FreeCode::B3 => b"B3",
        FreeCode::B4 => b"B4",
        FreeCode::X => b"X",
        FreeCode::Skip => b"SKIP",
    }
}

fn wide_text(code: WideCode) -> &'static [u8]
    ensures { result.now ≡ wide_text code }
{
    match code {
        WideCode::F => b"F",
        WideCode::T => b"T",
        WideCode::D => b"D",
    }
}

impl Part for Fmt {
    ghost tokens = { fmt_tokens };

    fn put(&self, into: &mut Vec<u8>) -> Result<(), NoMemory> {
        match self {
            Fmt::Free { code, width, .. } => {
                put_id(into, free_text(*code))?;
                if let Some(width) = width {
                    put_bracketed_number(into, width)?;
                }
                Ok(())
            }
            Fmt::Wide { code, width, .. } => {
                put_id(into, wide_text(*code))?;
                put_bracketed_number(into, width)?;
                Ok(())
            }
        }
    }
}
