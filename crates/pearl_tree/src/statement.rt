// Statements and bodies.

use crate::declaration::Item;
use crate::expression::{Expr, Ref};
use crate::format::Fmt;
use crate::name::Name;
use crate::parts::Parts;

/// `UNTIL expr | DURING expr`
#[derive(Drop)]
pub enum PeriodEnd {
    Until { time: Expr, place: u32 },
    During { duration: Expr, place: u32 },
}

/// The rule `all`: `ALL expr [ UNTIL expr | DURING expr ]`
#[derive(Drop)]
pub struct Period {
    pub duration: Expr,
    pub end: Option<PeriodEnd>,
    pub place: u32,
}

/// The rule `start`.
#[derive(Drop)]
pub enum Start {
    /// `AT expr [ all ]`
    At {
        time: Expr,
        period: Option<Period>,
        place: u32,
    },
    /// `AFTER expr [ all ]`
    After {
        duration: Expr,
        period: Option<Period>,
        place: u32,
    },
    /// `WHEN id [ AFTER expr ] [ all ]`
    When {
        interrupt: Name,
        after: Option<Expr>,
        period: Option<Period>,
        place: u32,
    },
    /// `all`
    All(Period),
}

/// The rule `once`.
#[derive(Drop)]
pub enum Once {
    /// `AT expr`
    At { time: Expr, place: u32 },
    /// `AFTER expr`
    After { duration: Expr, place: u32 },
    /// `WHEN id`
    When { interrupt: Name, place: u32 },
}

/// `SUSPEND | TERMINATE | PREVENT`
#[derive(Clone, Copy, PartialEq, Eq, Debug)]
pub enum TaskWord {
    Suspend,
    Terminate,
    Prevent,
}

/// `REQUEST | RELEASE`
#[derive(Clone, Copy, PartialEq, Eq, Debug)]
pub enum SemaWord {
    Request,
    Release,
}

/// `ENABLE | DISABLE | TRIGGER`
#[derive(Clone, Copy, PartialEq, Eq, Debug)]
pub enum InterruptWord {
    Enable,
    Disable,
    Trigger,
}

/// `DCL item { "," item } ";"` in a body
#[derive(Drop)]
pub struct BodyDecl {
    pub items: Parts<Item>,
    pub place: u32,
}

/// The rule `body`: `{ DCL item { "," item } ";" } { stmt }`. Its place is that of its first token, or of the token
/// after it where it has none.
#[cycle(statement)]
#[derive(Drop)]
pub struct Body {
    pub declarations: Parts<BodyDecl>,
    pub statements: Parts<Stmt>,
    pub place: u32,
}

/// The rule `stmt`. The parts of each statement but the shortest stand in a box, so that a list of statements takes
/// little room.
#[cycle(statement)]
#[derive(Drop)]
pub enum Stmt {
    /// `";"`
    Empty { place: u32 },
    Assign(Box<Assign>),
    Call(Box<Call>),
    If(Box<If>),
    Case(Box<Case>),
    Repeat(Box<Repeat>),
    /// `EXIT ";"`
    Exit { place: u32 },
    Begin(Box<Begin>),
    Return(Box<Return>),
    Activate(Box<Activate>),
    Continue(Box<Continue>),
    Resume(Box<Resume>),
    OnTask(Box<OnTask>),
    OnSemas(Box<OnSemas>),
    OnInterrupt(Box<OnInterrupt>),
    Put(Box<Put>),
    Get(Box<Get>),
    Send(Box<Send>),
    Take(Box<Take>),
}

/// `ref ":=" expr ";"`
#[derive(Drop)]
pub struct Assign {
    pub target: Ref,
    pub value: Expr,
    pub place: u32,
}

/// `[ CALL ] id [ "(" expr { "," expr } ")" ] ";"`. Without brackets the list is empty.
#[derive(Drop)]
pub struct Call {
    pub call: bool,
    pub name: Name,
    pub arguments: Parts<Expr>,
    pub place: u32,
}

/// `IF expr THEN { stmt } [ ELSE { stmt } ] FIN ";"`
#[cycle(statement)]
#[derive(Drop)]
pub struct If {
    pub condition: Expr,
    pub statements: Parts<Stmt>,
    pub otherwise: Option<Branch>,
    pub place: u32,
}

/// `CASE expr ALT { stmt } { ALT { stmt } } [ OUT { stmt } ] FIN ";"`
#[cycle(statement)]
#[derive(Drop)]
pub struct Case {
    pub selector: Expr,
    pub alternatives: Parts<Branch>,
    pub otherwise: Option<Branch>,
    pub place: u32,
}

/// `[ FOR id ] [ FROM expr ] [ BY expr ] [ TO expr ] [ WHILE expr ] REPEAT body END ";"`
#[cycle(statement)]
#[derive(Drop)]
pub struct Repeat {
    pub control: Option<Name>,
    pub begin: Option<Expr>,
    pub step: Option<Expr>,
    pub end: Option<Expr>,
    pub condition: Option<Expr>,
    pub body: Body,
    pub place: u32,
}

/// `BEGIN body END ";"`
#[cycle(statement)]
#[derive(Drop)]
pub struct Begin {
    pub body: Body,
    pub place: u32,
}

/// `RETURN [ "(" expr ")" ] ";"`
#[derive(Drop)]
pub struct Return {
    pub value: Option<Expr>,
    pub place: u32,
}

/// `[ start ] ACTIVATE id [ PRIO expr ] ";"`
#[derive(Drop)]
pub struct Activate {
    pub start: Option<Start>,
    pub task: Name,
    pub priority: Option<Expr>,
    pub place: u32,
}

/// `[ once ] CONTINUE id ";"`
#[derive(Drop)]
pub struct Continue {
    pub once: Option<Once>,
    pub task: Name,
    pub place: u32,
}

/// `once RESUME ";"`
#[derive(Drop)]
pub struct Resume {
    pub once: Once,
    pub place: u32,
}

/// `( SUSPEND | TERMINATE | PREVENT ) [ id ] ";"`
#[derive(Drop)]
pub struct OnTask {
    pub word: TaskWord,
    pub task: Option<Name>,
    pub place: u32,
}

/// `( REQUEST | RELEASE ) id { "," id } ";"`
#[derive(Drop)]
pub struct OnSemas {
    pub word: SemaWord,
    pub names: Parts<Name>,
    pub place: u32,
}

/// `( ENABLE | DISABLE | TRIGGER ) id ";"`
#[derive(Drop)]
pub struct OnInterrupt {
    pub word: InterruptWord,
    pub name: Name,
    pub place: u32,
}

/// `PUT [ expr { "," expr } ] TO id BY fmt { "," fmt } ";"`
#[derive(Drop)]
pub struct Put {
    pub values: Parts<Expr>,
    pub dation: Name,
    pub formats: Parts<Fmt>,
    pub place: u32,
}

/// `GET [ ref { "," ref } ] FROM id BY fmt { "," fmt } ";"`
#[derive(Drop)]
pub struct Get {
    pub targets: Parts<Ref>,
    pub dation: Name,
    pub formats: Parts<Fmt>,
    pub place: u32,
}

/// `SEND expr TO id ";"`
#[derive(Drop)]
pub struct Send {
    pub value: Expr,
    pub dation: Name,
    pub place: u32,
}

/// `TAKE ref FROM id ";"`
#[derive(Drop)]
pub struct Take {
    pub target: Ref,
    pub dation: Name,
    pub place: u32,
}

/// One of the words ALT, ELSE and OUT with the statements after it.
#[cycle(statement)]
#[derive(Drop)]
pub struct Branch {
    pub statements: Parts<Stmt>,
    pub place: u32,
}
