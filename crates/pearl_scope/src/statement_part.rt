// The parts of statements, apart from those of the statements within them, and of declarations.
#![tactic(auto, using(crate::proofs::PartLists::part_steps, pearl_names::proofs::Offered::list_steps, std::proofs::lemmas::Grind::common_steps))]

ghost use Rattle.std.specs.Prelude.{◌≡◌, ◌++◌, ◌∷◌, [], map, option_map, OnOk};
ghost use Rattle.std.specs.List.{flat_map};
ghost use Rattle.pearl_tree.specs.ShownExpressions.{shown_expr, shown_ref};
ghost use Rattle.pearl_tree.specs.ShownStatements.{shown_body_decl, shown_period_end, shown_period, shown_start, shown_once};
ghost use Rattle.pearl_scope.specs.Parts as spec;
ghost use Rattle.pearl_scope.specs.PartLists.{parts_in};
ghost use Rattle.pearl_scope.specs.Placed.{placed_at, parts_at};

use crate::part::{
    Part, add_body_declarations, add_expr, add_exprs, add_maybe, add_ref, add_refs, use_name,
    use_names,
};
use crate::places::Place;
use pearl_names::scope::View;
use pearl_tree::statement::{
    Activate, Assign, Call, Continue, Get, OnTask, Once, Period, PeriodEnd, Put, Repeat, Send,
    Start, Stmt, Take,
};
use std::alloc::AllocError as NoMemory;

fn add_period_end<'a>(
    parts: &mut Vec<Part<'a>>,
    view: View,
    end: &'a PeriodEnd,
) -> Result<(), NoMemory>
    ensures { OnOk result
        (parts_in parts.new.items ≡ parts_in parts.old.items ++ spec.period_end_parts view (shown_period_end end.now)) }
{
    match end {
        PeriodEnd::Until { time, .. } => add_expr(parts, view, time),
        PeriodEnd::During { duration, .. } => add_expr(parts, view, duration),
    }
}

fn add_period<'a>(parts: &mut Vec<Part<'a>>, view: View, period: &'a Period) -> Result<(), NoMemory>
    ensures { OnOk result
        (parts_in parts.new.items ≡ parts_in parts.old.items ++ spec.period_parts view (shown_period period.now)) }
{
    add_expr(parts, view, &period.duration)?;
    if let Some(end) = &period.end {
        add_period_end(parts, view, end)?;
    }
    Ok(())
}

fn add_maybe_period<'a>(
    parts: &mut Vec<Part<'a>>,
    view: View,
    period: &'a Option<Period>,
) -> Result<(), NoMemory>
    ensures { OnOk result
        (parts_in parts.new.items ≡
        parts_in parts.old.items ++ spec.parts_if (spec.period_parts view) (option_map shown_period period.now)) }
{
    match period {
        Some(period) => add_period(parts, view, period),
        None => Ok(()),
    }
}

fn add_start<'a>(parts: &mut Vec<Part<'a>>, view: View, start: &'a Start) -> Result<(), NoMemory>
    ensures { OnOk result
        (parts_in parts.new.items ≡ parts_in parts.old.items ++ spec.start_parts view (shown_start start.now)) }
{
    match start {
        Start::At { time, period, .. } => {
            add_expr(parts, view, time)?;
            add_maybe_period(parts, view, period)?;
            Ok(())
        }
        Start::After {
            duration,
            period,
            ..
        } => {
            add_expr(parts, view, duration)?;
            add_maybe_period(parts, view, period)?;
            Ok(())
        }
        Start::When {
            interrupt,
            after,
            period,
            ..
        } => {
            use_name(parts, view, interrupt)?;
            add_maybe(parts, view, after)?;
            add_maybe_period(parts, view, period)?;
            Ok(())
        }
        Start::All(period) => add_period(parts, view, period),
    }
}

fn add_once<'a>(parts: &mut Vec<Part<'a>>, view: View, once: &'a Once) -> Result<(), NoMemory>
    ensures { OnOk result
        (parts_in parts.new.items ≡ parts_in parts.old.items ++ spec.once_parts view (shown_once once.now)) }
{
    match once {
        Once::At { time, .. } => add_expr(parts, view, time),
        Once::After { duration, .. } => add_expr(parts, view, duration),
        Once::When { interrupt, .. } => use_name(parts, view, interrupt),
    }
}

fn add_assign<'a>(parts: &mut Vec<Part<'a>>, view: View, part: &'a Assign) -> Result<(), NoMemory>
    ensures { OnOk result
        (parts_in parts.new.items ≡
        parts_in parts.old.items ++
        (spec.ref_parts view (shown_ref part.now.target) ++ spec.expr_parts view (shown_expr part.now.value))) }
{
    add_ref(parts, view, &part.target)?;
    add_expr(parts, view, &part.value)?;
    Ok(())
}

fn add_call<'a>(parts: &mut Vec<Part<'a>>, view: View, part: &'a Call) -> Result<(), NoMemory>
    ensures { OnOk result
        (parts_in parts.new.items ≡
        parts_in parts.old.items ++
        (spec.Used view part.now.name ∷ flat_map (spec.expr_parts view) (map shown_expr part.now.arguments.items.items))) }
{
    use_name(parts, view, &part.name)?;
    add_exprs(parts, view, part.arguments.as_slice())?;
    Ok(())
}

fn add_activate<'a>(
    parts: &mut Vec<Part<'a>>,
    view: View,
    part: &'a Activate,
) -> Result<(), NoMemory>
    ensures { OnOk result
        (parts_in parts.new.items ≡
        parts_in parts.old.items ++
        (spec.parts_if (spec.start_parts view) (option_map shown_start part.now.start) ++
        (spec.Used view part.now.task ∷ spec.parts_if (spec.expr_parts view) (option_map shown_expr part.now.priority)))) }
{
    if let Some(start) = &part.start {
        add_start(parts, view, start)?;
    }
    use_name(parts, view, &part.task)?;
    add_maybe(parts, view, &part.priority)?;
    Ok(())
}

fn add_continue<'a>(
    parts: &mut Vec<Part<'a>>,
    view: View,
    part: &'a Continue,
) -> Result<(), NoMemory>
    ensures { OnOk result
        (parts_in parts.new.items ≡
        parts_in parts.old.items ++
        (spec.parts_if (spec.once_parts view) (option_map shown_once part.now.once) ++ spec.Used view part.now.task ∷ [])) }
{
    if let Some(once) = &part.once {
        add_once(parts, view, once)?;
    }
    use_name(parts, view, &part.task)?;
    Ok(())
}

fn add_on_task<'a>(parts: &mut Vec<Part<'a>>, view: View, part: &'a OnTask) -> Result<(), NoMemory>
    ensures { OnOk result
        (parts_in parts.new.items ≡ parts_in parts.old.items ++ spec.parts_if (spec.name_part view) part.now.task) }
{
    match &part.task {
        Some(task) => use_name(parts, view, task),
        None => Ok(()),
    }
}

fn add_put<'a>(parts: &mut Vec<Part<'a>>, view: View, part: &'a Put) -> Result<(), NoMemory>
    ensures { OnOk result
        (parts_in parts.new.items ≡
        parts_in parts.old.items ++
        (flat_map (spec.expr_parts view) (map shown_expr part.now.values.items.items) ++ spec.Used view part.now.dation ∷ [])) }
{
    add_exprs(parts, view, part.values.as_slice())?;
    use_name(parts, view, &part.dation)?;
    Ok(())
}

fn add_get<'a>(parts: &mut Vec<Part<'a>>, view: View, part: &'a Get) -> Result<(), NoMemory>
    ensures { OnOk result
        (parts_in parts.new.items ≡
        parts_in parts.old.items ++
        (flat_map (spec.ref_parts view) (map shown_ref part.now.targets.items.items) ++ spec.Used view part.now.dation ∷ [])) }
{
    add_refs(parts, view, part.targets.as_slice())?;
    use_name(parts, view, &part.dation)?;
    Ok(())
}

fn add_send<'a>(parts: &mut Vec<Part<'a>>, view: View, part: &'a Send) -> Result<(), NoMemory>
    ensures { OnOk result
        (parts_in parts.new.items ≡
        parts_in parts.old.items ++ (spec.expr_parts view (shown_expr part.now.value) ++ spec.Used view part.now.dation ∷ [])) }
{
    add_expr(parts, view, &part.value)?;
    use_name(parts, view, &part.dation)?;
    Ok(())
}

fn add_take<'a>(parts: &mut Vec<Part<'a>>, view: View, part: &'a Take) -> Result<(), NoMemory>
    ensures { OnOk result
        (parts_in parts.new.items ≡
        parts_in parts.old.items ++ (spec.ref_parts view (shown_ref part.now.target) ++ spec.Used view part.now.dation ∷ [])) }
{
    add_ref(parts, view, &part.target)?;
    use_name(parts, view, &part.dation)?;
    Ok(())
}

// The head of a loop and what its body declares, where the body is the scope of the number `next`.
fn add_loop<'a>(
    parts: &mut Vec<Part<'a>>,
    types: u32,
    scope: u32,
    next: u32,
    part: &'a Repeat,
) -> Result<(), NoMemory>
    ensures { OnOk result
        (parts_in parts.new.items ≡
        parts_in parts.old.items ++
        (spec.loop_parts scope next (option_map shown_expr part.now.begin) (option_map shown_expr part.now.step)
        (option_map shown_expr part.now.end) (option_map shown_expr part.now.condition) ++
        flat_map (spec.body_decl_parts next types) (map shown_body_decl part.now.body.declarations.items.items))) }
{
    add_maybe(parts, View::Within(scope), &part.begin)?;
    add_maybe(parts, View::Within(scope), &part.step)?;
    add_maybe(parts, View::Within(scope), &part.end)?;
    add_maybe(parts, View::WhileOf(next), &part.condition)?;
    add_body_declarations(parts, next, types, part.body.declarations.as_slice())?;
    Ok(())
}

/// Adds the parts of a statement, apart from those within it, where so many TYPEs stand before it.
pub(crate) fn add_place<'a>(
    parts: &mut Vec<Part<'a>>,
    types: u32,
    place: &Place<'a>,
) -> Result<(), NoMemory>
    ensures { OnOk result
        (parts_in parts.new.items ≡ parts_in parts.old.items ++ parts_at types (placed_at place.now)) }
{
    let scope = place.spot.scope;
    let view = View::Within(scope);
    match place.stmt {
        Stmt::If(part) => add_expr(parts, view, &part.condition),
        Stmt::Case(part) => add_expr(parts, view, &part.selector),
        Stmt::Repeat(part) => add_loop(parts, types, scope, place.next, part),
        Stmt::Begin(part) => {
            add_body_declarations(parts, place.next, types, part.body.declarations.as_slice())
        }
        Stmt::Empty { .. } => Ok(()),
        Stmt::Exit { .. } => Ok(()),
        Stmt::Assign(part) => add_assign(parts, view, part),
        Stmt::Call(part) => add_call(parts, view, part),
        Stmt::Return(part) => add_maybe(parts, view, &part.value),
        Stmt::Activate(part) => add_activate(parts, view, part),
        Stmt::Continue(part) => add_continue(parts, view, part),
        Stmt::Resume(part) => add_once(parts, view, &part.once),
        Stmt::OnTask(part) => add_on_task(parts, view, part),
        Stmt::OnSemas(part) => use_names(parts, view, part.names.as_slice()),
        Stmt::OnInterrupt(part) => use_name(parts, view, &part.name),
        Stmt::Put(part) => add_put(parts, view, part),
        Stmt::Get(part) => add_get(parts, view, part),
        Stmt::Send(part) => add_send(parts, view, part),
        Stmt::Take(part) => add_take(parts, view, part),
    }
}
