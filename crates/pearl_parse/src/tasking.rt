// Statements that schedule tasks, or name tasks, semaphores or interrupts.

ghost use Rattle.std.specs.Prelude.{◌+◌, ◌<◌, ◌≤◌, length, ◌≡◌, ℕ, List, false};
ghost use Rattle.pearl_tree.specs.Standing.{what_at, HasWord, IsName, SpellsMaybe, IsAt};
ghost use Rattle.pearl_tree.specs.Statements.{SpellsPeriod, SpellsAfter, SpellsStart, SpellsOnce, task_word, interrupt_word, sema_word};
ghost use Rattle.pearl_parse_expr.specs.declared.reading.Halt.{Halt};
ghost use Rattle.pearl_grammar.specs.Rules.{Spells};
ghost use Rattle.pearl_grammar.specs.Statements.{activation_rule, begun_rule};
ghost use Rattle.pearl_parse.specs.Reads.{ReadsOnlyBehind, ReadsStatement};
ghost use Rattle.pearl_tree.specs.declared.token.Token.{Token};
ghost use Rattle.pearl_parse_decl.specs.Readings.{by_comma, never};
ghost use Rattle.pearl_parse_expr.specs.Stops.{is_word};
ghost use Rattle.pearl_parse_expr.specs.Reads.{ReadsList};
ghost use Rattle.pearl_tree.specs.declared.word_code.TheConstants as w;
ghost use Rattle.pearl_parse.specs.Stops as spec;
ghost use Rattle.pearl_parse.specs.Schedules as schedules;

use crate::name::{maybe_name, name};
use crate::schedule::{after, maybe_after, maybe_period, period};
use crate::token::{symbol, word};
use pearl_parse_decl::list::list;
use pearl_parse_expr::reading::{Halt, Reading, boxed};
use pearl_parse_expr::standing::{is_word, place_at};
use pearl_tree::expression::Expr;
use pearl_tree::name::Name;
use pearl_tree::parts::Parts;
use pearl_tree::statement::{
    Activate, Continue, InterruptWord, OnInterrupt, OnSemas, OnTask, Once, Period, Resume,
    SemaWord, Start, Stmt, TaskWord,
};
use pearl_tree::symbol::SEMICOLON;
use pearl_tree::token::Token;
use pearl_tree::word_code::*;
use std::alloc::Global;

/// What an activation names.
#[derive(Drop)]
pub struct Activation {
    pub task: Name,
    pub priority: Option<Expr>,
}

/// `ACTIVATE id [ PRIO expr ] ";"`
fn activate(
    alloc: Global,
    tokens: &[Token],
    from: usize,
    least_stop: usize,
) -> Result<Reading<Activation>, Halt>
    requires from { from ≤ length tokens.now }
    requires least_stop { (from ≤ least_stop) × (least_stop ≤ length tokens.now) }
    ensures { ReadsOnlyBehind 16 schedules.SpellsActivated (Spells activation_rule) (Spells activation_rule) tokens.now from (from + 1) least_stop result }
{
    word(tokens, from, least_stop, ACTIVATE)?;
    let task = name(tokens, from + 1, least_stop)?;
    let priority = maybe_after(alloc, tokens, from + 2, least_stop, PRIO)?;
    symbol(tokens, priority.end, priority.stop, SEMICOLON)?;
    Ok(
        priority
            .past(1)
            .map(|priority| Activation { task, priority }),
    )
}

/// An activation with the period before it.
#[derive(Drop)]
pub struct Begun {
    pub period: Option<Period>,
    pub activation: Activation,
}

/// `[ ALL expr [ UNTIL expr | DURING expr ] ] ACTIVATE id [ PRIO expr ] ";"`
fn maybe_periodic(
    alloc: Global,
    tokens: &[Token],
    from: usize,
    least_stop: usize,
) -> Result<Reading<Begun>, Halt>
    requires from { from ≤ length tokens.now }
    requires least_stop { (from ≤ least_stop) × (least_stop ≤ length tokens.now) }
    ensures { ReadsOnlyBehind 24 schedules.SpellsBeginning (Spells begun_rule) (Spells begun_rule) tokens.now from (from + 1) least_stop result }
{
    let period = maybe_period(alloc, tokens, from, least_stop)?;
    let activation = activate(alloc, tokens, period.end, period.stop)?;
    Ok(activation.map(|activation| Begun {
        period: period.part,
        activation,
    }))
}

/// `ACTIVATE id [ PRIO expr ] ";"` with no start before it
pub fn immediate_activation(
    alloc: Global,
    tokens: &[Token],
    from: usize,
) -> Result<Reading<Stmt>, Halt>
    requires within { from < length tokens.now }
    requires word { HasWord tokens.now from w.ACTIVATE }
    ensures { ReadsStatement tokens.now from result }
{
    let activation = activate(alloc, tokens, from, from)?;
    let place = place_at(tokens, from);
    let activate = activation.map(|activation| Activate {
        start: None,
        task: activation.task,
        priority: activation.priority,
        place,
    });
    Ok(activate.boxed(alloc)?.map(Stmt::Activate))
}

/// `CONTINUE id ";"` with no time before it
pub fn immediate_continuation(
    alloc: Global,
    tokens: &[Token],
    from: usize,
) -> Result<Reading<Stmt>, Halt>
    requires within { from < length tokens.now }
    requires word { HasWord tokens.now from w.CONTINUE }
    ensures { ReadsStatement tokens.now from result }
{
    let task = name(tokens, from + 1, from)?;
    symbol(tokens, from + 2, from, SEMICOLON)?;
    let continuation = Continue {
        once: None,
        task,
        place: place_at(tokens, from),
    };
    Ok(Reading {
        part: Stmt::Continue(boxed(alloc, continuation)?),
        end: from + 3,
        stop: from + 3,
    })
}

/// `ALL expr [ UNTIL expr | DURING expr ] ACTIVATE id [ PRIO expr ] ";"`
pub fn periodic(alloc: Global, tokens: &[Token], from: usize) -> Result<Reading<Stmt>, Halt>
    requires within { from < length tokens.now }
    requires word { HasWord tokens.now from w.ALL }
    ensures { ReadsStatement tokens.now from result }
{
    let period = period(alloc, tokens, from, from)?;
    let activation = activate(alloc, tokens, period.end, period.stop)?;
    let place = place_at(tokens, from);
    let activate = activation.map(|activation| Activate {
        start: Some(Start::All(period.part)),
        task: activation.task,
        priority: activation.priority,
        place,
    });
    Ok(activate.boxed(alloc)?.map(Stmt::Activate))
}

fn time_word(later: bool) -> u8
    ensures { result ≡ schedules.time_word later }
{
    if later { AFTER } else { AT }
}

fn start_of(later: bool, time: Expr, period: Option<Period>, place: u32) -> Start
    ensures { (tokens : List Token) (from m to : ℕ) → IsAt tokens from place → SpellsAfter tokens (schedules.time_word later) from time m → SpellsMaybe (SpellsPeriod tokens) m period to → SpellsStart tokens from result to }
{
    if later {
        Start::After {
            duration: time,
            period,
            place,
        }
    } else {
        Start::At {
            time,
            period,
            place,
        }
    }
}

fn once_of(later: bool, time: Expr, place: u32) -> Once
    ensures { (tokens : List Token) (from to : ℕ) → IsAt tokens from place → SpellsAfter tokens (schedules.time_word later) from time to → SpellsOnce tokens from result to }
{
    if later {
        Once::After {
            duration: time,
            place,
        }
    } else {
        Once::At { time, place }
    }
}

/// `( AT | AFTER ) expr`, and behind it `[ all ] ACTIVATE id [ PRIO expr ] ";"`, `CONTINUE id ";"` or `RESUME ";"`
pub fn timed(
    alloc: Global,
    tokens: &[Token],
    from: usize,
    later: bool,
) -> Result<Reading<Stmt>, Halt>
    requires within { from < length tokens.now }
    requires word { HasWord tokens.now from (schedules.time_word later) }
    ensures { ReadsStatement tokens.now from result }
{
    let time = after(alloc, tokens, from, from, time_word(later))?;
    let place = place_at(tokens, from);
    if is_word(tokens, time.end, CONTINUE) {
        let task = name(tokens, time.end + 1, time.stop)?;
        symbol(tokens, time.end + 2, time.stop, SEMICOLON)?;
        let once = time.past(3).map(|time| once_of(later, time, place));
        let continuation = once.map(|once| Continue {
            once: Some(once),
            task,
            place,
        });
        return Ok(continuation.boxed(alloc)?.map(Stmt::Continue));
    }
    if is_word(tokens, time.end, RESUME) {
        symbol(tokens, time.end + 1, time.stop, SEMICOLON)?;
        let once = time.past(2).map(|time| once_of(later, time, place));
        let resume = once.map(|once| Resume { once, place });
        return Ok(resume.boxed(alloc)?.map(Stmt::Resume));
    }
    let begun = maybe_periodic(alloc, tokens, time.end, time.stop)?;
    let activate = begun.map(|begun| Activate {
        start: Some(start_of(later, time.part, begun.period, place)),
        task: begun.activation.task,
        priority: begun.activation.priority,
        place,
    });
    Ok(activate.boxed(alloc)?.map(Stmt::Activate))
}

/// `WHEN id`, which stands here, and behind it `[ AFTER expr ] [ all ] ACTIVATE id [ PRIO expr ] ";"`
fn activation_by_interrupt(
    alloc: Global,
    tokens: &[Token],
    from: usize,
    interrupt: Name,
) -> Result<Reading<Stmt>, Halt>
    requires within { from + 1 < length tokens.now }
    requires word { HasWord tokens.now from w.WHEN }
    requires name { IsName tokens.now (from + 1) interrupt }
    requires no_continue { is_word w.CONTINUE (what_at tokens.now (from + 2)) ≡ false }
    requires no_resume { is_word w.RESUME (what_at tokens.now (from + 2)) ≡ false }
    ensures { ReadsStatement tokens.now from result }
{
    let place = place_at(tokens, from);
    let after = maybe_after(alloc, tokens, from + 2, from + 2, AFTER)?;
    let begun = maybe_periodic(alloc, tokens, after.end, after.stop)?;
    let activate = begun.map(|begun| Activate {
        start: Some(Start::When {
            interrupt,
            after: after.part,
            period: begun.period,
            place,
        }),
        task: begun.activation.task,
        priority: begun.activation.priority,
        place,
    });
    Ok(activate.boxed(alloc)?.map(Stmt::Activate))
}

/// `WHEN id`, and behind it `[ AFTER expr ] [ all ] ACTIVATE id [ PRIO expr ] ";"`, `CONTINUE id ";"` or `RESUME ";"`
pub fn when(alloc: Global, tokens: &[Token], from: usize) -> Result<Reading<Stmt>, Halt>
    requires within { from < length tokens.now }
    requires word { HasWord tokens.now from w.WHEN }
    ensures { ReadsStatement tokens.now from result }
{
    let interrupt = name(tokens, from + 1, from)?;
    let place = place_at(tokens, from);
    if is_word(tokens, from + 2, CONTINUE) {
        let task = name(tokens, from + 3, from + 2)?;
        symbol(tokens, from + 4, from + 2, SEMICOLON)?;
        let continuation = Continue {
            once: Some(Once::When { interrupt, place }),
            task,
            place,
        };
        return Ok(Reading {
            part: Stmt::Continue(boxed(alloc, continuation)?),
            end: from + 5,
            stop: from + 5,
        });
    }
    if is_word(tokens, from + 2, RESUME) {
        symbol(tokens, from + 3, from + 2, SEMICOLON)?;
        let resume = Resume {
            once: Once::When { interrupt, place },
            place,
        };
        return Ok(Reading {
            part: Stmt::Resume(boxed(alloc, resume)?),
            end: from + 4,
            stop: from + 4,
        });
    }
    activation_by_interrupt(alloc, tokens, from, interrupt)
}

/// `( SUSPEND | TERMINATE | PREVENT ) [ id ] ";"`
pub fn on_task(
    alloc: Global,
    tokens: &[Token],
    from: usize,
    word: TaskWord,
) -> Result<Reading<Stmt>, Halt>
    requires within { from < length tokens.now }
    requires word { HasWord tokens.now from (task_word word) }
    ensures { ReadsStatement tokens.now from result }
{
    let task = maybe_name(tokens, from + 1);
    symbol(tokens, task.end, task.stop, SEMICOLON)?;
    let place = place_at(tokens, from);
    let on_task = task.past(1).map(|task| OnTask { word, task, place });
    Ok(on_task.boxed(alloc)?.map(Stmt::OnTask))
}

/// `id { "," id }`
fn name_list(alloc: Global, tokens: &[Token], from: usize) -> Result<Reading<Vec<Name>>, Halt>
    requires { from ≤ length tokens.now }
    ensures { ReadsList 16 spec.SpellsNameList (by_comma never) tokens.now from result }
{
    list(alloc, tokens, from)
}

/// `( REQUEST | RELEASE ) id { "," id } ";"`
pub fn on_semas(
    alloc: Global,
    tokens: &[Token],
    from: usize,
    word: SemaWord,
) -> Result<Reading<Stmt>, Halt>
    requires within { from < length tokens.now }
    requires word { HasWord tokens.now from (sema_word word) }
    ensures { ReadsStatement tokens.now from result }
{
    let names = name_list(alloc, tokens, from + 1)?;
    symbol(tokens, names.end, names.stop, SEMICOLON)?;
    let place = place_at(tokens, from);
    let names = names.past(1).map(Parts::new);
    let on_semas = names.map(|names| OnSemas { word, names, place });
    Ok(on_semas.boxed(alloc)?.map(Stmt::OnSemas))
}

/// `( ENABLE | DISABLE | TRIGGER ) id ";"`
pub fn on_interrupt(
    alloc: Global,
    tokens: &[Token],
    from: usize,
    word: InterruptWord,
) -> Result<Reading<Stmt>, Halt>
    requires within { from < length tokens.now }
    requires word { HasWord tokens.now from (interrupt_word word) }
    ensures { ReadsStatement tokens.now from result }
{
    let interrupt = name(tokens, from + 1, from)?;
    symbol(tokens, from + 2, from, SEMICOLON)?;
    let on_interrupt = OnInterrupt {
        word,
        name: interrupt,
        place: place_at(tokens, from),
    };
    Ok(Reading {
        part: Stmt::OnInterrupt(boxed(alloc, on_interrupt)?),
        end: from + 3,
        stop: from + 3,
    })
}
