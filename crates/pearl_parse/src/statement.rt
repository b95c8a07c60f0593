// Statements, by their first tokens. Only IF, CASE, REPEAT and BEGIN begin another level of them.

ghost use Rattle.std.specs.Prelude.{◌≡◌, ◌<◌, None, false, length, IfSome, Ok, ◌≢◌, ◌+◌, IfErr, ◌≤◌, true};
ghost use Rattle.pearl_tree.specs.Standing.{what_at, HasSymbol, HasWord, SpellsMaybe, SpellsSome};
ghost use Rattle.pearl_parse.specs.Stops.{begins_statement};
ghost use Rattle.pearl_parse.specs.FirstWords.{first_words};
ghost use Rattle.pearl_parse.specs.Firsts.{BeginsSimple};
ghost use Rattle.pearl_parse.specs.Reads.{ReadsBehind, ReadsClosing, ReadsListBehind, ReadsNested, ReadsStatement};
ghost use Rattle.pearl_tree.specs.Statements.{SpellsBranch, SpellsBody};
ghost use Rattle.pearl_parse_expr.specs.declared.reading.Halt.{Halt};
ghost use Rattle.pearl_parse_expr.specs.Reads.{ReadsOnly};
ghost use Rattle.pearl_parse.specs.Firsts as firsts;
ghost use Rattle.pearl_tree.specs.declared.symbol.TheConstants as s;
ghost use Rattle.pearl_tree.specs.declared.word_code.TheConstants as w;
ghost use Rattle.pearl_parse.specs.Bodies as bodies;

use crate::call::{call, named, return_};
use crate::lists::each;
use crate::loops::loop_heads;
use crate::schedule::after;
use crate::tasking::{
    immediate_activation, immediate_continuation, on_interrupt, on_semas, on_task, periodic, timed,
    when,
};
use crate::token::{symbol, word as word_here};
use crate::transfer::{get, put, send, take};
use pearl_parse_expr::reading::{Halt, Reading, boxed};
use pearl_parse_expr::standing::{is_word, place_at};
use pearl_tree::expression::Expr;
use pearl_tree::parts::Parts;
use pearl_tree::statement::{
    Begin, Body, BodyDecl, Branch, Case, If, InterruptWord, Repeat, SemaWord, Stmt, TaskWord,
};
use pearl_tree::symbol::SEMICOLON;
use pearl_tree::token::{Token, What};
use pearl_tree::word_code::*;
use std::alloc::Global;

/// A statement that holds no others.
#[derive(Clone, Copy)]
pub enum Simple {
    Empty,
    /// An assignment, or a call without CALL.
    Named,
    Call,
    Exit,
    Return,
    /// AT, or AFTER.
    Timed { later: bool },
    When,
    All,
    Activate,
    Continue,
    OnTask(TaskWord),
    OnSemas(SemaWord),
    OnInterrupt(InterruptWord),
    Put,
    Get,
    Send,
    Take,
}

/// A statement, by its first token.
#[derive(Clone, Copy)]
pub enum First {
    Simple(Simple),
    If,
    Case,
    Repeat,
    Begin,
}

fn first_of_word(word: u8) -> Option<First>
    ensures { result ≡ firsts.first_in first_words word }
{
    match word {
        IF => Some(First::If),
        CASE => Some(First::Case),
        FOR | FROM | BY | TO | WHILE | REPEAT => Some(First::Repeat),
        BEGIN => Some(First::Begin),
        CALL => Some(First::Simple(Simple::Call)),
        EXIT => Some(First::Simple(Simple::Exit)),
        RETURN => Some(First::Simple(Simple::Return)),
        AT => Some(First::Simple(Simple::Timed { later: false })),
        AFTER => Some(First::Simple(Simple::Timed { later: true })),
        WHEN => Some(First::Simple(Simple::When)),
        ALL => Some(First::Simple(Simple::All)),
        ACTIVATE => Some(First::Simple(Simple::Activate)),
        CONTINUE => Some(First::Simple(Simple::Continue)),
        SUSPEND => Some(First::Simple(Simple::OnTask(TaskWord::Suspend))),
        TERMINATE => Some(First::Simple(Simple::OnTask(TaskWord::Terminate))),
        PREVENT => Some(First::Simple(Simple::OnTask(TaskWord::Prevent))),
        REQUEST => Some(First::Simple(Simple::OnSemas(SemaWord::Request))),
        RELEASE => Some(First::Simple(Simple::OnSemas(SemaWord::Release))),
        ENABLE => Some(First::Simple(Simple::OnInterrupt(InterruptWord::Enable))),
        DISABLE => Some(First::Simple(Simple::OnInterrupt(InterruptWord::Disable))),
        TRIGGER => Some(First::Simple(Simple::OnInterrupt(InterruptWord::Trigger))),
        PUT => Some(First::Simple(Simple::Put)),
        GET => Some(First::Simple(Simple::Get)),
        SEND => Some(First::Simple(Simple::Send)),
        TAKE => Some(First::Simple(Simple::Take)),
        _ => None,
    }
}

fn first_of(what: &What) -> Option<First>
    ensures { result ≡ firsts.first_of what.now }
{
    match *what {
        What::Symbol(SEMICOLON) => Some(First::Simple(Simple::Empty)),
        What::Id(_) => Some(First::Simple(Simple::Named)),
        What::Word(word) => first_of_word(word),
        _ => None,
    }
}

/// The statement that the token begins.
fn first_at(tokens: &[Token], at: usize) -> Option<First>
    ensures some { IfSome result (λ first. firsts.BeginsAs tokens.now at first) }
    ensures within { IfSome result (λ _. at < length tokens.now) }
    ensures none { result ≡ None → begins_statement (what_at tokens.now at) ≡ false }
{
    match tokens.get(at) {
        Some(token) => first_of(&token.what),
        None => None,
    }
}

/// `";"`
fn empty(tokens: &[Token], from: usize) -> Reading<Stmt>
    requires within { from < length tokens.now }
    requires symbol { HasSymbol tokens.now from s.SEMICOLON }
    ensures { ReadsStatement tokens.now from (Ok result) }
{
    Reading {
        part: Stmt::Empty {
            place: place_at(tokens, from),
        },
        end: from + 1,
        stop: from + 1,
    }
}

/// `EXIT ";"`
fn exit(tokens: &[Token], from: usize) -> Result<Reading<Stmt>, Halt>
    requires within { from < length tokens.now }
    requires word { HasWord tokens.now from w.EXIT }
    ensures reads { ReadsStatement tokens.now from result }
    ensures memory { IfErr result (λ halt. halt ≢ Halt.NoMemory) }
{
    symbol(tokens, from + 1, from, SEMICOLON)?;
    Ok(Reading {
        part: Stmt::Exit {
            place: place_at(tokens, from),
        },
        end: from + 2,
        stop: from + 2,
    })
}

/// The statement that begins here.
fn simple_statement(
    alloc: Global,
    tokens: &[Token],
    from: usize,
    first: Simple,
) -> Result<Reading<Stmt>, Halt>
    requires within { from < length tokens.now }
    requires first { BeginsSimple tokens.now from first }
    ensures { ReadsStatement tokens.now from result }
{
    match first {
        Simple::Empty => Ok(empty(tokens, from)),
        Simple::Named => named(alloc, tokens, from),
        Simple::Call => call(alloc, tokens, from),
        Simple::Exit => exit(tokens, from),
        Simple::Return => return_(alloc, tokens, from),
        Simple::Timed { later } => timed(alloc, tokens, from, later),
        Simple::When => when(alloc, tokens, from),
        Simple::All => periodic(alloc, tokens, from),
        Simple::Activate => immediate_activation(alloc, tokens, from),
        Simple::Continue => immediate_continuation(alloc, tokens, from),
        Simple::OnTask(word) => on_task(alloc, tokens, from, word),
        Simple::OnSemas(word) => on_semas(alloc, tokens, from, word),
        Simple::OnInterrupt(word) => on_interrupt(alloc, tokens, from, word),
        Simple::Put => put(alloc, tokens, from),
        Simple::Get => get(alloc, tokens, from),
        Simple::Send => send(alloc, tokens, from),
        Simple::Take => take(alloc, tokens, from),
    }
}

/// `IF expr THEN`
fn condition(alloc: Global, tokens: &[Token], from: usize) -> Result<Reading<Expr>, Halt>
    requires within { from < length tokens.now }
    requires word { HasWord tokens.now from w.IF }
    ensures { ReadsOnly 16 bodies.SpellsCondition tokens.now from result }
{
    let condition = after(alloc, tokens, from, from, IF)?;
    word_here(tokens, condition.end, condition.stop, THEN)?;
    Ok(condition.past(1))
}

/// A word that closes statements, and a semicolon.
fn closing(tokens: &[Token], from: usize, least_stop: usize, word: u8) -> Result<(), Halt>
    requires { (from ≤ least_stop) × (least_stop ≤ length tokens.now) }
    ensures { ReadsClosing word tokens.now from least_stop result }
{
    word_here(tokens, from, least_stop, word)?;
    symbol(tokens, from + 1, least_stop, SEMICOLON)
}

/// `{ stmt }`
#[cycle(statement)]
fn statements(
    alloc: Global,
    tokens: &[Token],
    from: usize,
    least_stop: usize,
    depth: u8,
) -> Result<Reading<Vec<Stmt>>, Halt>
    requires { (from ≤ least_stop) × (least_stop ≤ length tokens.now) }
    ensures reads { ReadsListBehind 24 (bodies.SpellsStatements depth) (bodies.SpellsStatements depth) begins_statement tokens.now from from least_stop result }
    ensures memory { IfErr result (λ halt. halt ≡ Halt.NoMemory) }
{
    let mut list = Reading::none(alloc, from, least_stop);
    'each: loop {
        match statement(alloc, tokens, list.end, depth) {
            Ok(next) => list.add(next)?,
            Err(halt) => return list.ended(halt),
        }
    }
}

/// A word that stands here, and `{ stmt }`.
#[cycle(statement)]
fn branch(
    alloc: Global,
    tokens: &[Token],
    from: usize,
    least_stop: usize,
    depth: u8,
    word: u8,
) -> Result<Reading<Branch>, Halt>
    requires within { from < length tokens.now }
    requires least_stop { least_stop ≤ length tokens.now }
    requires word { HasWord tokens.now from word }
    ensures reads { ReadsBehind 24 (λ tokens. SpellsBranch tokens depth word) (bodies.SpellsHeaded depth word) (λ tokens. SpellsBranch tokens depth word) begins_statement tokens.now from (from + 1) least_stop result }
    ensures memory { IfErr result (λ halt. halt ≡ Halt.NoMemory) }
{
    match statements(alloc, tokens, from + 1, least_stop.max(from + 1), depth) {
        Ok(statements) => Ok(Reading {
            part: Branch {
                statements: Parts::new(statements.part),
                place: place_at(tokens, from),
            },
            end: statements.end,
            stop: statements.stop,
        }),
        Err(halt) => Err(halt),
    }
}

/// `[ word { stmt } ]`
#[cycle(statement)]
fn maybe_branch(
    alloc: Global,
    tokens: &[Token],
    from: usize,
    least_stop: usize,
    depth: u8,
    word: u8,
) -> Result<Reading<Option<Branch>>, Halt>
    requires { (from ≤ least_stop) × (least_stop ≤ length tokens.now) }
    ensures reads { ReadsBehind 24 (λ tokens. SpellsMaybe (SpellsBranch tokens depth word)) (bodies.SpellsOptionalHeaded depth word) (λ tokens. SpellsMaybe (SpellsBranch tokens depth word)) begins_statement tokens.now from from least_stop result }
    ensures memory { IfErr result (λ halt. halt ≡ Halt.NoMemory) }
{
    if !is_word(tokens, from, word) {
        return Ok(Reading {
            part: None,
            end: from,
            stop: least_stop,
        });
    }
    match branch(alloc, tokens, from, least_stop, depth, word) {
        Ok(branch) => Ok(Reading {
            part: Some(branch.part),
            end: branch.end,
            stop: branch.stop,
        }),
        Err(halt) => Err(halt),
    }
}

/// `ALT { stmt } { ALT { stmt } }`
#[cycle(statement)]
fn alternatives(
    alloc: Global,
    tokens: &[Token],
    from: usize,
    least_stop: usize,
    depth: u8,
) -> Result<Reading<Vec<Branch>>, Halt>
    requires { (from ≤ least_stop) × (least_stop ≤ length tokens.now) }
    ensures { ReadsListBehind 24 (λ tokens. SpellsSome (SpellsBranch tokens depth w.ALT)) (bodies.SpellsChoices depth) bodies.extends_alternatives tokens.now from from least_stop result }
{
    if !is_word(tokens, from, ALT) {
        return Err(Halt::Refused(least_stop));
    }
    let mut list = Reading::none(alloc, from, least_stop);
    'each: while is_word(tokens, list.end, ALT) {
        match branch(alloc, tokens, list.end, list.stop, depth, ALT) {
            Ok(next) => list.add(next)?,
            Err(halt) => return Err(halt),
        }
    }
    Ok(list)
}

/// `IF expr THEN { stmt } [ ELSE { stmt } ] FIN ";"`
#[cycle(statement)]
fn if_(alloc: Global, tokens: &[Token], from: usize, depth: u8) -> Result<Reading<Stmt>, Halt>
    requires within { from < length tokens.now }
    requires word { HasWord tokens.now from w.IF }
    ensures { ReadsNested depth tokens.now from result }
{
    if depth == 0 {
        return Err(Halt::Refused(from));
    }
    let condition = condition(alloc, tokens, from)?;
    let statements = statements(alloc, tokens, condition.end, condition.stop, depth - 1)?;
    let otherwise = maybe_branch(
        alloc,
        tokens,
        statements.end,
        statements.stop,
        depth - 1,
        ELSE,
    )?;
    closing(tokens, otherwise.end, otherwise.stop, FIN)?;
    let if_ = If {
        condition: condition.part,
        statements: Parts::new(statements.part),
        otherwise: otherwise.part,
        place: place_at(tokens, from),
    };
    Ok(Reading {
        part: Stmt::If(boxed(alloc, if_)?),
        end: otherwise.end + 2,
        stop: otherwise.stop.max(otherwise.end + 2),
    })
}

/// `CASE expr ALT { stmt } { ALT { stmt } } [ OUT { stmt } ] FIN ";"`
#[cycle(statement)]
fn case(alloc: Global, tokens: &[Token], from: usize, depth: u8) -> Result<Reading<Stmt>, Halt>
    requires within { from < length tokens.now }
    requires word { HasWord tokens.now from w.CASE }
    ensures { ReadsNested depth tokens.now from result }
{
    if depth == 0 {
        return Err(Halt::Refused(from));
    }
    let selector = after(alloc, tokens, from, from, CASE)?;
    let alternatives = alternatives(alloc, tokens, selector.end, selector.stop, depth - 1)?;
    let otherwise = maybe_branch(
        alloc,
        tokens,
        alternatives.end,
        alternatives.stop,
        depth - 1,
        OUT,
    )?;
    closing(tokens, otherwise.end, otherwise.stop, FIN)?;
    let case = Case {
        selector: selector.part,
        alternatives: Parts::new(alternatives.part),
        otherwise: otherwise.part,
        place: place_at(tokens, from),
    };
    Ok(Reading {
        part: Stmt::Case(boxed(alloc, case)?),
        end: otherwise.end + 2,
        stop: otherwise.stop.max(otherwise.end + 2),
    })
}

/// `{ DCL item { "," item } ";" } { stmt }`: the longest body that begins here, behind what was stopped at
/// `least_stop`.
#[cycle(statement)]
pub fn body(
    alloc: Global,
    tokens: &[Token],
    from: usize,
    least_stop: usize,
    depth: u8,
) -> Result<Reading<Body>, Halt>
    requires { (from ≤ least_stop) × (least_stop ≤ length tokens.now) }
    ensures { ReadsBehind 24 (λ tokens. SpellsBody tokens depth) (bodies.SpellsBlock depth) (bodies.SpellsInner depth) bodies.extends_body tokens.now from from least_stop result }
{
    if from == tokens.len() {
        return Err(Halt::Refused(least_stop));
    }
    let declarations = each::<BodyDecl>(alloc, tokens, from)?;
    let least_stop = declarations.stop.max(least_stop);
    let statements = statements(alloc, tokens, declarations.end, least_stop, depth)?;
    Ok(Reading {
        part: Body {
            declarations: Parts::new(declarations.part),
            statements: Parts::new(statements.part),
            place: place_at(tokens, from),
        },
        end: statements.end,
        stop: statements.stop,
    })
}

/// `[ FOR id ] [ FROM expr ] [ BY expr ] [ TO expr ] [ WHILE expr ] REPEAT body END ";"`
#[cycle(statement)]
fn repeat(alloc: Global, tokens: &[Token], from: usize, depth: u8) -> Result<Reading<Stmt>, Halt>
    requires within { from < length tokens.now }
    requires word { bodies.is_one bodies.loop_words (what_at tokens.now from) ≡ true }
    ensures { ReadsNested depth tokens.now from result }
{
    if depth == 0 {
        return Err(Halt::Refused(from));
    }
    let heads = loop_heads(alloc, tokens, from)?;
    let body = body(alloc, tokens, heads.end, heads.stop, depth - 1)?;
    closing(tokens, body.end, body.stop, END)?;
    let repeat = Repeat {
        control: heads.part.control,
        begin: heads.part.begin,
        step: heads.part.step,
        end: heads.part.end,
        condition: heads.part.condition,
        body: body.part,
        place: place_at(tokens, from),
    };
    Ok(Reading {
        part: Stmt::Repeat(boxed(alloc, repeat)?),
        end: body.end + 2,
        stop: body.stop.max(body.end + 2),
    })
}

/// `BEGIN body END ";"`
#[cycle(statement)]
fn begin(alloc: Global, tokens: &[Token], from: usize, depth: u8) -> Result<Reading<Stmt>, Halt>
    requires within { from < length tokens.now }
    requires word { HasWord tokens.now from w.BEGIN }
    ensures { ReadsNested depth tokens.now from result }
{
    if depth == 0 {
        return Err(Halt::Refused(from));
    }
    let body = body(alloc, tokens, from + 1, from + 1, depth - 1)?;
    closing(tokens, body.end, body.stop, END)?;
    let begin = Begin {
        body: body.part,
        place: place_at(tokens, from),
    };
    Ok(Reading {
        part: Stmt::Begin(boxed(alloc, begin)?),
        end: body.end + 2,
        stop: body.stop.max(body.end + 2),
    })
}

/// The statement that begins here, with at most `depth` of IF, CASE, REPEAT and BEGIN within one another.
#[cycle(statement)]
pub fn statement(
    alloc: Global,
    tokens: &[Token],
    from: usize,
    depth: u8,
) -> Result<Reading<Stmt>, Halt>
    requires { from ≤ length tokens.now }
    ensures { ReadsNested depth tokens.now from result }
{
    let first = match first_at(tokens, from) {
        Some(first) => first,
        None => return Err(Halt::Refused(from)),
    };
    match first {
        First::Simple(first) => simple_statement(alloc, tokens, from, first),
        First::If => if_(alloc, tokens, from, depth),
        First::Case => case(alloc, tokens, from, depth),
        First::Repeat => repeat(alloc, tokens, from, depth),
        First::Begin => begin(alloc, tokens, from, depth),
    }
}
