// What statements ask for: expressions in their roles, targets, calls and names.
#![tactic(auto, using(crate::proofs::AskedLists::asked_steps, std::proofs::lemmas::Grind::common_steps))]

ghost use Rattle.std.specs.Prelude.{◌≡◌, ◌++◌, ◌∷◌, [], map, option_map, OnOk};
ghost use Rattle.pearl_tree.specs.ShownExpressions.{shown_expr, shown_ref};
ghost use Rattle.pearl_tree.specs.ShownStatements.{shown_period_end, shown_period, shown_start, shown_once};
ghost use Rattle.pearl_scope.specs.Placed.{placed_at};
ghost use Rattle.pearl_check_expr.specs.Subjects as subjects;
ghost use Rattle.pearl_check.specs.declared.asked.Role.TheVariants as role;
ghost use Rattle.pearl_check.specs.declared.asked.NameRole.TheVariants as name_role;
ghost use Rattle.pearl_check.specs.Asked as spec;
ghost use Rattle.pearl_check.specs.Asked.{asked_in};

use pearl_check_expr::subject::Subject;
use pearl_scope::places::Place;
use pearl_tree::expression::{Expr, Ref};
use pearl_tree::name::Name;
use pearl_tree::statement::{
    Activate, Assign, Call, Continue, Get, OnTask, Once, Period, PeriodEnd, Put, Repeat, Send,
    Start, Stmt, Take,
};
use std::alloc::AllocError as NoMemory;

/// What a part of a statement is there for.
#[derive(Clone, Copy, PartialEq, Eq, Debug)]
pub enum Role {
    /// A value, a target or a call of which other rules ask the kind.
    Plain,
    /// Of IF and WHILE.
    Condition,
    /// Of CASE, FROM, BY and TO.
    Count,
    /// Of AT and UNTIL.
    Moment,
    /// Of AFTER, ALL and DURING.
    Lapse,
    /// Of PRIO.
    Priority,
}

/// What a name must be that of.
#[derive(Clone, Copy, PartialEq, Eq, Debug)]
pub enum NameRole {
    Task,
    Semaphore,
    Interrupt,
    Dation,
}

/// A part of a statement, in the scope of this number. That of a WHILE is the scope of its loop's body.
#[derive(Clone, Copy)]
pub enum Asked<'a> {
    Subject {
        role: Role,
        scope: u32,
        subject: Subject<'a>,
    },
    Named {
        role: NameRole,
        scope: u32,
        name: &'a Name,
    },
}

fn ask_value<'a>(
    asked: &mut Vec<Asked<'a>>,
    role: Role,
    scope: u32,
    expr: &'a Expr,
) -> Result<(), NoMemory>
    ensures { OnOk result
        (asked_in asked.new.items ≡ asked_in asked.old.items ++ spec.value role scope (shown_expr expr.now) ∷ []) }
{
    let subject = Subject::Value(expr);
    asked.push(Asked::Subject {
        role,
        scope,
        subject,
    })?;
    Ok(())
}

fn ask_while<'a>(asked: &mut Vec<Asked<'a>>, scope: u32, expr: &'a Expr) -> Result<(), NoMemory>
    ensures { OnOk result
        (asked_in asked.new.items ≡
        asked_in asked.old.items ++ spec.Subject role.Condition scope (subjects.OfWhile (shown_expr expr.now)) ∷ []) }
{
    asked.push(Asked::Subject {
        role: Role::Condition,
        scope,
        subject: Subject::While(expr),
    })?;
    Ok(())
}

fn ask_target<'a>(
    asked: &mut Vec<Asked<'a>>,
    scope: u32,
    reference: &'a Ref,
) -> Result<(), NoMemory>
    ensures { OnOk result
        (asked_in asked.new.items ≡ asked_in asked.old.items ++ spec.target scope (shown_ref reference.now) ∷ []) }
{
    asked.push(Asked::Subject {
        role: Role::Plain,
        scope,
        subject: Subject::Target(reference),
    })?;
    Ok(())
}

fn ask_call<'a>(asked: &mut Vec<Asked<'a>>, scope: u32, call: &'a Call) -> Result<(), NoMemory>
    ensures { OnOk result
        (asked_in asked.new.items ≡
        asked_in asked.old.items ++
        spec.Subject role.Plain scope
        (subjects.OfCallStatement call.now.name (spec.as_exprs (map shown_expr call.now.arguments.items.items))) ∷ []) }
{
    asked.push(Asked::Subject {
        role: Role::Plain,
        scope,
        subject: Subject::Call(call),
    })?;
    Ok(())
}

fn ask_name<'a>(
    asked: &mut Vec<Asked<'a>>,
    role: NameRole,
    scope: u32,
    name: &'a Name,
) -> Result<(), NoMemory>
    ensures { OnOk result
        (asked_in asked.new.items ≡ asked_in asked.old.items ++ spec.Named role scope name.now ∷ []) }
{
    asked.push(Asked::Named { role, scope, name })?;
    Ok(())
}

fn ask_value_if<'a>(
    asked: &mut Vec<Asked<'a>>,
    role: Role,
    scope: u32,
    expr: &'a Option<Expr>,
) -> Result<(), NoMemory>
    ensures { OnOk result
        (asked_in asked.new.items ≡
        asked_in asked.old.items ++ spec.value_if role scope (option_map shown_expr expr.now)) }
{
    match expr {
        Some(expr) => ask_value(asked, role, scope, expr),
        None => Ok(()),
    }
}

fn ask_values<'a>(asked: &mut Vec<Asked<'a>>, scope: u32, exprs: &'a [Expr]) -> Result<(), NoMemory>
    ensures { OnOk result
        (asked_in asked.new.items ≡
        asked_in asked.old.items ++ map (spec.value role.Plain scope) (map shown_expr exprs.now)) }
{
    for expr in exprs {
        ask_value(asked, Role::Plain, scope, expr)?;
    }
    Ok(())
}

fn ask_targets<'a>(
    asked: &mut Vec<Asked<'a>>,
    scope: u32,
    references: &'a [Ref],
) -> Result<(), NoMemory>
    ensures { OnOk result
        (asked_in asked.new.items ≡
        asked_in asked.old.items ++ map (spec.target scope) (map shown_ref references.now)) }
{
    for reference in references {
        ask_target(asked, scope, reference)?;
    }
    Ok(())
}

fn ask_semaphores<'a>(
    asked: &mut Vec<Asked<'a>>,
    scope: u32,
    names: &'a [Name],
) -> Result<(), NoMemory>
    ensures { OnOk result
        (asked_in asked.new.items ≡
        asked_in asked.old.items ++ map (spec.Named name_role.Semaphore scope) names.now) }
{
    for name in names {
        ask_name(asked, NameRole::Semaphore, scope, name)?;
    }
    Ok(())
}

fn ask_period_end<'a>(
    asked: &mut Vec<Asked<'a>>,
    scope: u32,
    end: &'a PeriodEnd,
) -> Result<(), NoMemory>
    ensures { OnOk result
        (asked_in asked.new.items ≡
        asked_in asked.old.items ++ spec.period_end_asked scope (shown_period_end end.now)) }
{
    match end {
        PeriodEnd::Until { time, .. } => ask_value(asked, Role::Moment, scope, time),
        PeriodEnd::During { duration, .. } => ask_value(asked, Role::Lapse, scope, duration),
    }
}

fn ask_end_if<'a>(
    asked: &mut Vec<Asked<'a>>,
    scope: u32,
    end: &'a Option<PeriodEnd>,
) -> Result<(), NoMemory>
    ensures { OnOk result
        (asked_in asked.new.items ≡
        asked_in asked.old.items ++ spec.if_there (spec.period_end_asked scope) (option_map shown_period_end end.now)) }
{
    match end {
        Some(end) => ask_period_end(asked, scope, end),
        None => Ok(()),
    }
}

fn ask_period<'a>(
    asked: &mut Vec<Asked<'a>>,
    scope: u32,
    period: &'a Period,
) -> Result<(), NoMemory>
    ensures { OnOk result
        (asked_in asked.new.items ≡ asked_in asked.old.items ++ spec.period_asked scope (shown_period period.now)) }
{
    ask_value(asked, Role::Lapse, scope, &period.duration)?;
    ask_end_if(asked, scope, &period.end)?;
    Ok(())
}

fn ask_period_if<'a>(
    asked: &mut Vec<Asked<'a>>,
    scope: u32,
    period: &'a Option<Period>,
) -> Result<(), NoMemory>
    ensures { OnOk result
        (asked_in asked.new.items ≡
        asked_in asked.old.items ++ spec.if_there (spec.period_asked scope) (option_map shown_period period.now)) }
{
    match period {
        Some(period) => ask_period(asked, scope, period),
        None => Ok(()),
    }
}

fn ask_start<'a>(asked: &mut Vec<Asked<'a>>, scope: u32, start: &'a Start) -> Result<(), NoMemory>
    ensures { OnOk result
        (asked_in asked.new.items ≡ asked_in asked.old.items ++ spec.start_asked scope (shown_start start.now)) }
{
    match start {
        Start::At { time, period, .. } => {
            ask_value(asked, Role::Moment, scope, time)?;
            ask_period_if(asked, scope, period)?;
            Ok(())
        }
        Start::After {
            duration,
            period,
            ..
        } => {
            ask_value(asked, Role::Lapse, scope, duration)?;
            ask_period_if(asked, scope, period)?;
            Ok(())
        }
        Start::When {
            interrupt,
            after,
            period,
            ..
        } => {
            ask_name(asked, NameRole::Interrupt, scope, interrupt)?;
            ask_value_if(asked, Role::Lapse, scope, after)?;
            ask_period_if(asked, scope, period)?;
            Ok(())
        }
        Start::All(period) => ask_period(asked, scope, period),
    }
}

fn ask_start_if<'a>(
    asked: &mut Vec<Asked<'a>>,
    scope: u32,
    start: &'a Option<Start>,
) -> Result<(), NoMemory>
    ensures { OnOk result
        (asked_in asked.new.items ≡
        asked_in asked.old.items ++ spec.if_there (spec.start_asked scope) (option_map shown_start start.now)) }
{
    match start {
        Some(start) => ask_start(asked, scope, start),
        None => Ok(()),
    }
}

fn ask_once<'a>(asked: &mut Vec<Asked<'a>>, scope: u32, once: &'a Once) -> Result<(), NoMemory>
    ensures { OnOk result
        (asked_in asked.new.items ≡ asked_in asked.old.items ++ spec.once_asked scope (shown_once once.now)) }
{
    match once {
        Once::At { time, .. } => ask_value(asked, Role::Moment, scope, time),
        Once::After { duration, .. } => ask_value(asked, Role::Lapse, scope, duration),
        Once::When { interrupt, .. } => ask_name(asked, NameRole::Interrupt, scope, interrupt),
    }
}

fn ask_once_if<'a>(
    asked: &mut Vec<Asked<'a>>,
    scope: u32,
    once: &'a Option<Once>,
) -> Result<(), NoMemory>
    ensures { OnOk result
        (asked_in asked.new.items ≡
        asked_in asked.old.items ++ spec.if_there (spec.once_asked scope) (option_map shown_once once.now)) }
{
    match once {
        Some(once) => ask_once(asked, scope, once),
        None => Ok(()),
    }
}

fn ask_assign<'a>(asked: &mut Vec<Asked<'a>>, scope: u32, part: &'a Assign) -> Result<(), NoMemory>
    ensures { OnOk result
        (asked_in asked.new.items ≡
        asked_in asked.old.items ++
        spec.target scope (shown_ref part.now.target) ∷ spec.value role.Plain scope (shown_expr part.now.value) ∷ []) }
{
    ask_target(asked, scope, &part.target)?;
    ask_value(asked, Role::Plain, scope, &part.value)?;
    Ok(())
}

fn ask_while_if<'a>(
    asked: &mut Vec<Asked<'a>>,
    scope: u32,
    condition: &'a Option<Expr>,
) -> Result<(), NoMemory>
    ensures { OnOk result
        (asked_in asked.new.items ≡
        asked_in asked.old.items ++
        spec.if_there (λ expr. spec.Subject role.Condition scope (subjects.OfWhile expr) ∷ []) (option_map shown_expr condition.now)) }
{
    match condition {
        Some(expr) => ask_while(asked, scope, expr),
        None => Ok(()),
    }
}

// The head of a loop whose body is the scope of the number `next`.
fn ask_loop<'a>(
    asked: &mut Vec<Asked<'a>>,
    scope: u32,
    next: u32,
    part: &'a Repeat,
) -> Result<(), NoMemory>
    ensures { OnOk result
        (asked_in asked.new.items ≡
        asked_in asked.old.items ++
        spec.loop_asked scope next (option_map shown_expr part.now.begin) (option_map shown_expr part.now.step)
        (option_map shown_expr part.now.end) (option_map shown_expr part.now.condition)) }
{
    ask_value_if(asked, Role::Count, scope, &part.begin)?;
    ask_value_if(asked, Role::Count, scope, &part.step)?;
    ask_value_if(asked, Role::Count, scope, &part.end)?;
    ask_while_if(asked, next, &part.condition)?;
    Ok(())
}

fn ask_activate<'a>(
    asked: &mut Vec<Asked<'a>>,
    scope: u32,
    part: &'a Activate,
) -> Result<(), NoMemory>
    ensures { OnOk result
        (asked_in asked.new.items ≡
        asked_in asked.old.items ++
        (spec.if_there (spec.start_asked scope) (option_map shown_start part.now.start) ++
        (spec.Named name_role.Task scope part.now.task ∷ spec.value_if role.Priority scope (option_map shown_expr part.now.priority)))) }
{
    ask_start_if(asked, scope, &part.start)?;
    ask_name(asked, NameRole::Task, scope, &part.task)?;
    ask_value_if(asked, Role::Priority, scope, &part.priority)?;
    Ok(())
}

fn ask_continue<'a>(
    asked: &mut Vec<Asked<'a>>,
    scope: u32,
    part: &'a Continue,
) -> Result<(), NoMemory>
    ensures { OnOk result
        (asked_in asked.new.items ≡
        asked_in asked.old.items ++
        (spec.if_there (spec.once_asked scope) (option_map shown_once part.now.once) ++
        spec.Named name_role.Task scope part.now.task ∷ [])) }
{
    ask_once_if(asked, scope, &part.once)?;
    ask_name(asked, NameRole::Task, scope, &part.task)?;
    Ok(())
}

fn ask_on_task<'a>(asked: &mut Vec<Asked<'a>>, scope: u32, part: &'a OnTask) -> Result<(), NoMemory>
    ensures { OnOk result
        (asked_in asked.new.items ≡
        asked_in asked.old.items ++ spec.if_there (λ name. spec.Named name_role.Task scope name ∷ []) part.now.task) }
{
    match &part.task {
        Some(task) => ask_name(asked, NameRole::Task, scope, task),
        None => Ok(()),
    }
}

fn ask_put<'a>(asked: &mut Vec<Asked<'a>>, scope: u32, part: &'a Put) -> Result<(), NoMemory>
    ensures { OnOk result
        (asked_in asked.new.items ≡
        asked_in asked.old.items ++
        (map (spec.value role.Plain scope) (map shown_expr part.now.values.items.items) ++
        spec.Named name_role.Dation scope part.now.dation ∷ [])) }
{
    ask_values(asked, scope, part.values.as_slice())?;
    ask_name(asked, NameRole::Dation, scope, &part.dation)?;
    Ok(())
}

fn ask_get<'a>(asked: &mut Vec<Asked<'a>>, scope: u32, part: &'a Get) -> Result<(), NoMemory>
    ensures { OnOk result
        (asked_in asked.new.items ≡
        asked_in asked.old.items ++
        (map (spec.target scope) (map shown_ref part.now.targets.items.items) ++
        spec.Named name_role.Dation scope part.now.dation ∷ [])) }
{
    ask_targets(asked, scope, part.targets.as_slice())?;
    ask_name(asked, NameRole::Dation, scope, &part.dation)?;
    Ok(())
}

fn ask_send<'a>(asked: &mut Vec<Asked<'a>>, scope: u32, part: &'a Send) -> Result<(), NoMemory>
    ensures { OnOk result
        (asked_in asked.new.items ≡
        asked_in asked.old.items ++
        spec.value role.Plain scope (shown_expr part.now.value) ∷ spec.Named name_role.Dation scope part.now.dation ∷ []) }
{
    ask_value(asked, Role::Plain, scope, &part.value)?;
    ask_name(asked, NameRole::Dation, scope, &part.dation)?;
    Ok(())
}

fn ask_take<'a>(asked: &mut Vec<Asked<'a>>, scope: u32, part: &'a Take) -> Result<(), NoMemory>
    ensures { OnOk result
        (asked_in asked.new.items ≡
        asked_in asked.old.items ++
        spec.target scope (shown_ref part.now.target) ∷ spec.Named name_role.Dation scope part.now.dation ∷ []) }
{
    ask_target(asked, scope, &part.target)?;
    ask_name(asked, NameRole::Dation, scope, &part.dation)?;
    Ok(())
}

/// Adds what a statement asks for, apart from those within it.
pub fn add_asked<'a>(asked: &mut Vec<Asked<'a>>, place: &Place<'a>) -> Result<(), NoMemory>
    ensures { OnOk result
        (asked_in asked.new.items ≡ asked_in asked.old.items ++ spec.asked_at (placed_at place.now)) }
{
    let scope = place.spot.scope;
    match place.stmt {
        Stmt::If(part) => ask_value(asked, Role::Condition, scope, &part.condition),
        Stmt::Case(part) => ask_value(asked, Role::Count, scope, &part.selector),
        Stmt::Repeat(part) => ask_loop(asked, scope, place.next, part),
        Stmt::Begin(_) => Ok(()),
        Stmt::Empty { .. } => Ok(()),
        Stmt::Exit { .. } => Ok(()),
        Stmt::Assign(part) => ask_assign(asked, scope, part),
        Stmt::Call(part) => ask_call(asked, scope, part),
        Stmt::Return(part) => ask_value_if(asked, Role::Plain, scope, &part.value),
        Stmt::Activate(part) => ask_activate(asked, scope, part),
        Stmt::Continue(part) => ask_continue(asked, scope, part),
        Stmt::Resume(part) => ask_once(asked, scope, &part.once),
        Stmt::OnTask(part) => ask_on_task(asked, scope, part),
        Stmt::OnSemas(part) => ask_semaphores(asked, scope, part.names.as_slice()),
        Stmt::OnInterrupt(part) => ask_name(asked, NameRole::Interrupt, scope, &part.name),
        Stmt::Put(part) => ask_put(asked, scope, part),
        Stmt::Get(part) => ask_get(asked, scope, part),
        Stmt::Send(part) => ask_send(asked, scope, part),
        Stmt::Take(part) => ask_take(asked, scope, part),
    }
}
