// Schedules, and an expression behind a word.
#![tactic(auto, using(crate::proofs::Texts::text_steps, std::proofs::lemmas::Grind::common_steps))]

ghost use Rattle.std.specs.Prelude.{◌≡◌, ◌<◌, ◌++◌, OnOk};
ghost use Rattle.pearl_tree.specs.Words.{code_count};
ghost use Rattle.pearl_print.specs.Lists.{maybe};
ghost use Rattle.pearl_print.specs.Spelled.{text_of_tokens};
ghost use Rattle.pearl_print.specs.Schedules.{after_tokens, period_end_tokens, period_tokens, start_tokens, once_tokens};

use crate::expression::put_expr;
use crate::lists::{Part, put_maybe};
use crate::put::put_word;
use pearl_tree::expression::Expr;
use pearl_tree::statement::{Once, Period, PeriodEnd, Start};
use pearl_tree::word_code::{AFTER, ALL, AT, DURING, UNTIL, WHEN};
use std::alloc::AllocError as NoMemory;

pub(crate) fn put_after(into: &mut Vec<u8>, code: u8, expr: &Expr) -> Result<(), NoMemory>
    requires { code < code_count }
    ensures { OnOk result (into.new.items ≡ into.old.items ++ text_of_tokens (after_tokens code expr.now)) }
{
    put_word(into, code)?;
    put_expr(into, expr)?;
    Ok(())
}

pub(crate) fn put_maybe_after(
    into: &mut Vec<u8>,
    code: u8,
    expr: &Option<Expr>,
) -> Result<(), NoMemory>
    requires { code < code_count }
    ensures { OnOk result
        (into.new.items ≡ into.old.items ++ text_of_tokens (maybe (after_tokens code) expr.now)) }
{
    if let Some(expr) = expr {
        put_after(into, code, expr)?;
    }
    Ok(())
}

impl Part for PeriodEnd {
    ghost tokens = { period_end_tokens };

    fn put(&self, into: &mut Vec<u8>) -> Result<(), NoMemory> {
        match self {
            PeriodEnd::Until { time, .. } => put_after(into, UNTIL, time),
            PeriodEnd::During { duration, .. } => put_after(into, DURING, duration),
        }
    }
}

impl Part for Period {
    ghost tokens = { period_tokens };

    fn put(&self, into: &mut Vec<u8>) -> Result<(), NoMemory> {
        put_after(into, ALL, &self.duration)?;
        put_maybe(into, &self.end)?;
        Ok(())
    }
}

impl Part for Start {
    ghost tokens = { start_tokens };

    fn put(&self, into: &mut Vec<u8>) -> Result<(), NoMemory> {
        match self {
            Start::At { time, period, .. } => {
                put_after(into, AT, time)?;
                put_maybe(into, period)?;
                Ok(())
            }
            Start::After {
                duration,
                period,
                ..
            } => {
                put_after(into, AFTER, duration)?;
                put_maybe(into, period)?;
                Ok(())
            }
            Start::When {
                interrupt,
                after,
                period,
                ..
            } => {
                put_word(into, WHEN)?;
                interrupt.put(into)?;
                put_maybe_after(into, AFTER, after)?;
                put_maybe(into, period)?;
                Ok(())
            }
            Start::All(period) => period.put(into),
        }
    }
}

impl Part for Once {
    ghost tokens = { once_tokens };

    fn put(&self, into: &mut Vec<u8>) -> Result<(), NoMemory> {
        match self {
            Once::At { time, .. } => put_after(into, AT, time),
            Once::After { duration, .. } => put_after(into, AFTER, duration),
            Once::When { interrupt, .. } => {
                put_word(into, WHEN)?;
                interrupt.put(into)?;
                Ok(())
            }
        }
    }
}
