// All statements of a module, each with where it stands.
#![tactic(auto, using(crate::proofs::Placing::place_steps, std::proofs::lemmas::Grind::common_steps))]

ghost use Rattle.std.specs.Prelude.{◌≡◌, ◌+◌, ◌++◌, ◌∷◌, [], IfOk, OnErr, OnOk};
ghost use Rattle.pearl_tree.specs.ShownStatements.{shown_stmt};
ghost use Rattle.pearl_names.specs.Listed.{stmts_shown, branches_shown, otherwise_shown};
ghost use Rattle.pearl_names.specs.Scopes.{scopes_in, scopes_in_all, scopes_in_branches, scopes_in_otherwise};
ghost use Rattle.pearl_scope.specs.Placed as spec;

use pearl_tree::parts::Parts;
use pearl_tree::statement::{Body, Branch, Stmt};
use std::alloc::AllocError as NoMemory;

/// Where a statement stands: the number of its scope, and whether that is within a loop.
#[derive(Clone, Copy, PartialEq, Eq, Debug)]
pub struct Spot {
    pub scope: u32,
    pub in_loop: bool,
}

/// A statement, and where it stands.
#[derive(Clone, Copy)]
pub struct Place<'a> {
    pub spot: Spot,
    /// The number of the first scope that begins with it, if one does.
    pub next: u32,
    pub stmt: &'a Stmt,
}

fn after(number: u32) -> Result<u32, NoMemory>
    ensures { IfOk result (λ after. after ≡ number + 1) }
{
    match number.checked_add(1) {
        Some(after) => Ok(after),
        None => Err(NoMemory),
    }
}

fn put_place<'a>(
    places: &mut Vec<Place<'a>>,
    spot: Spot,
    next: u32,
    stmt: &'a Stmt,
) -> Result<(), NoMemory>
    ensures placed { OnOk result
        (spec.placed_in places.new.items ≡
        spec.placed_in places.old.items ++ record { spot = spot; next = next; statement = shown_stmt stmt.now } ∷ []) }
    ensures grows { spec.Grows places.old.items places.new.items }
{
    places.push(Place { spot, next, stmt })?;
    Ok(())
}

#[cycle(place)]
fn place_stmt<'a>(
    places: &mut Vec<Place<'a>>,
    spot: Spot,
    next: u32,
    stmt: &'a Stmt,
) -> Result<u32, NoMemory>
    ensures placed { OnOk result
        (spec.placed_in places.new.items ≡ spec.placed_in places.old.items ++ spec.placed_stmt spot next (shown_stmt stmt.now)) }
    ensures next { IfOk result (λ after. after ≡ next + scopes_in (shown_stmt stmt.now)) }
    ensures grows { spec.Grows places.old.items places.new.items }
{
    put_place(places, spot, next, stmt)?;
    match stmt {
        Stmt::If(part) => {
            let next = place_all(places, spot, next, &part.statements)?;
            let next = place_otherwise(places, spot, next, &part.otherwise)?;
            Ok(next)
        }
        Stmt::Case(part) => {
            let next = place_branches(places, spot, next, &part.alternatives)?;
            let next = place_otherwise(places, spot, next, &part.otherwise)?;
            Ok(next)
        }
        Stmt::Repeat(part) => {
            let inner = Spot {
                scope: next,
                in_loop: true,
            };
            let next = after(next)?;
            let next = place_all(places, inner, next, &part.body.statements)?;
            Ok(next)
        }
        Stmt::Begin(part) => {
            let inner = Spot {
                scope: next,
                in_loop: spot.in_loop,
            };
            let next = after(next)?;
            let next = place_all(places, inner, next, &part.body.statements)?;
            Ok(next)
        }
        Stmt::Empty { .. } => Ok(next),
        Stmt::Assign(_) => Ok(next),
        Stmt::Call(_) => Ok(next),
        Stmt::Exit { .. } => Ok(next),
        Stmt::Return(_) => Ok(next),
        Stmt::Activate(_) => Ok(next),
        Stmt::Continue(_) => Ok(next),
        Stmt::Resume(_) => Ok(next),
        Stmt::OnTask(_) => Ok(next),
        Stmt::OnSemas(_) => Ok(next),
        Stmt::OnInterrupt(_) => Ok(next),
        Stmt::Put(_) => Ok(next),
        Stmt::Get(_) => Ok(next),
        Stmt::Send(_) => Ok(next),
        Stmt::Take(_) => Ok(next),
    }
}

#[cycle(place)]
fn place_all<'a>(
    places: &mut Vec<Place<'a>>,
    spot: Spot,
    next: u32,
    stmts: &'a Parts<Stmt>,
) -> Result<u32, NoMemory>
    ensures placed { OnOk result
        (spec.placed_in places.new.items ≡
        spec.placed_in places.old.items ++ spec.placed_all spot next (stmts_shown stmts.now.items.items)) }
    ensures next { IfOk result (λ after. after ≡ next + scopes_in_all (stmts_shown stmts.now.items.items)) }
    ensures grows { spec.Grows places.old.items places.new.items }
{
    let mut number = next;
    for stmt in stmts.as_slice() {
        number = place_stmt(places, spot, number, stmt)?;
    }
    Ok(number)
}

#[cycle(place)]
fn place_branches<'a>(
    places: &mut Vec<Place<'a>>,
    spot: Spot,
    next: u32,
    branches: &'a Parts<Branch>,
) -> Result<u32, NoMemory>
    ensures placed { OnOk result
        (spec.placed_in places.new.items ≡
        spec.placed_in places.old.items ++ spec.placed_branches spot next (branches_shown branches.now.items.items)) }
    ensures next { IfOk result (λ after. after ≡ next + scopes_in_branches (branches_shown branches.now.items.items)) }
    ensures grows { spec.Grows places.old.items places.new.items }
{
    let mut number = next;
    for branch in branches.as_slice() {
        number = place_all(places, spot, number, &branch.statements)?;
    }
    Ok(number)
}

#[cycle(place)]
fn place_otherwise<'a>(
    places: &mut Vec<Place<'a>>,
    spot: Spot,
    next: u32,
    otherwise: &'a Option<Branch>,
) -> Result<u32, NoMemory>
    ensures placed { OnOk result
        (spec.placed_in places.new.items ≡
        spec.placed_in places.old.items ++ spec.placed_otherwise spot next (otherwise_shown otherwise.now)) }
    ensures next { IfOk result (λ after. after ≡ next + scopes_in_otherwise (otherwise_shown otherwise.now)) }
    ensures grows { spec.Grows places.old.items places.new.items }
{
    match otherwise {
        Some(branch) => {
            let next = place_all(places, spot, next, &branch.statements)?;
            Ok(next)
        }
        None => Ok(next),
    }
}

/// Adds the places of the statements of a body that is the scope of this number, and answers the number of the next
/// scope.
pub fn place_body<'a>(
    places: &mut Vec<Place<'a>>,
    scope: u32,
    body: &'a Body,
) -> Result<u32, NoMemory>
    ensures placed { OnOk result
        (spec.placed_in places.new.items ≡
        spec.placed_in places.old.items ++ spec.placed_body scope (stmts_shown body.now.statements.items.items)) }
    ensures next { IfOk result (λ after. after ≡ scope + 1 + scopes_in_all (stmts_shown body.now.statements.items.items)) }
    ensures err { OnErr result (places.new.items ≡ places.old.items) }
{
    let spot = Spot {
        scope,
        in_loop: false,
    };
    let next = after(scope)?;
    let before = places.len();
    match place_all(places, spot, next, &body.statements) {
        Ok(next) => Ok(next),
        Err(error) => {
            places.truncate(before);
            Err(error)
        }
    }
}
