// The scopes of a module, by what declares their names.
#![tactic(auto, using(crate::proofs::Collecting::group_steps, crate::proofs::Lists::list_steps, std::proofs::lemmas::Grind::common_steps))]

ghost use Rattle.std.specs.Prelude.{◌≡◌, ◌+◌, ◌++◌, ◌∷◌, [], length, map, None, IfOk, OnOk};
ghost use Rattle.std.specs.List.{flat_map};
ghost use Rattle.pearl_tree.specs.ShownDeclarations.{shown_names, shown_item, shown_declared, shown_spec, shown_param};
ghost use Rattle.pearl_tree.specs.ShownStatements.{shown_body_decl, shown_stmt};
ghost use Rattle.pearl_tree.specs.ShownModules.{shown_decl, shown_tree};
ghost use Rattle.pearl_tree.specs.Names.{names_of};
ghost use Rattle.pearl_names.specs.Groups.{shown_meaning, entries_in, scopes_in_list, body_scopes};
ghost use Rattle.pearl_names.specs.Listed.{stmts_shown, branches_shown, otherwise_shown};
ghost use Rattle.pearl_names.specs.Scopes as spec;

use crate::group::{Group, Meaning, ScopeGroups};
use crate::names::next_number;
use pearl_tree::declaration::{Declared, Item, Param, Spec};
use pearl_tree::name::{Name, Names};
use pearl_tree::parts::Parts;
use pearl_tree::statement::{Body, BodyDecl, Branch, Repeat, Stmt};
use pearl_tree::tree::{Decl, Tree};
use std::alloc::{AllocError as NoMemory, Global};
use std::slice::from_ref;

fn declare<'a>(
    into: &mut Vec<Group<'a>>,
    names: &'a [Name],
    meaning: Meaning<'a>,
) -> Result<(), NoMemory>
    ensures { OnOk result
        (entries_in into.new.items ≡ entries_in into.old.items ++ spec.entries_as (shown_meaning meaning.entry) names.now) }
{
    into.push(Group { names, meaning })?;
    Ok(())
}

fn declare_one<'a>(
    into: &mut Vec<Group<'a>>,
    name: &'a Name,
    meaning: Meaning<'a>,
) -> Result<(), NoMemory>
    ensures { OnOk result
        (entries_in into.new.items ≡ entries_in into.old.items ++ spec.entries_as (shown_meaning meaning.entry) (name.now ∷ [])) }
{
    let one = from_ref(name);
    declare(into, one, meaning)
}

fn declare_names<'a>(
    into: &mut Vec<Group<'a>>,
    names: &'a Names,
    meaning: Meaning<'a>,
) -> Result<(), NoMemory>
    ensures { OnOk result
        (entries_in into.new.items ≡
        entries_in into.old.items ++ spec.entries_as (shown_meaning meaning.entry) (names_of (shown_names names.now))) }
{
    declare(into, names.as_slice(), meaning)
}

fn declare_items<'a>(
    into: &mut Vec<Group<'a>>,
    types: u32,
    items: &'a [Item],
) -> Result<(), NoMemory>
    ensures { OnOk result
        (entries_in into.new.items ≡
        entries_in into.old.items ++ flat_map (spec.item_entries types) (map shown_item items.now)) }
{
    for item in items {
        declare_names(into, &item.names, Meaning::Variable { item, types })?;
    }
    Ok(())
}

fn declare_body<'a>(
    into: &mut Vec<Group<'a>>,
    types: u32,
    declarations: &'a [BodyDecl],
) -> Result<(), NoMemory>
    ensures { OnOk result
        (entries_in into.new.items ≡
        entries_in into.old.items ++ spec.body_entries types (map shown_body_decl declarations.now)) }
{
    for declaration in declarations {
        declare_items(into, types, declaration.items.as_slice())?;
    }
    Ok(())
}

fn declare_params<'a>(into: &mut Vec<Group<'a>>, params: &'a [Param]) -> Result<(), NoMemory>
    ensures { OnOk result
        (entries_in into.new.items ≡
        entries_in into.old.items ++ flat_map spec.param_entries (map shown_param params.now)) }
{
    for param in params {
        let meaning = Meaning::Parameter {
            basic: param.basic,
            ident: param.ident,
        };
        declare_names(into, &param.names, meaning)?;
    }
    Ok(())
}

fn declare_control<'a>(
    into: &mut Vec<Group<'a>>,
    loop_place: u32,
    control: &'a Option<Name>,
) -> Result<(), NoMemory>
    ensures { OnOk result
        (entries_in into.new.items ≡ entries_in into.old.items ++ spec.control_entries loop_place control.now) }
{
    if let Some(name) = control {
        declare_one(into, name, Meaning::Control(loop_place))?;
    }
    Ok(())
}

/// Adds a scope, and answers its number.
fn begin_scope<'a>(
    scopes: &mut Vec<ScopeGroups<'a>>,
    outer: Option<u32>,
    groups: Vec<Group<'a>>,
) -> Result<u32, NoMemory>
    ensures scope { OnOk result
        (scopes_in_list scopes.new.items ≡
        scopes_in_list scopes.old.items ++ record { outer = outer; entries = entries_in groups.entry.items } ∷ []) }
    ensures number { IfOk result (λ number. number ≡ length (scopes_in_list scopes.old.items)) }
{
    let number = next_number(scopes.as_slice())?;
    scopes.push(ScopeGroups { outer, groups })?;
    Ok(number)
}

#[cycle(statement)]
fn collect_stmt<'a>(
    alloc: Global,
    scopes: &mut Vec<ScopeGroups<'a>>,
    types: u32,
    scope: u32,
    stmt: &'a Stmt,
) -> Result<(), NoMemory>
    ensures { OnOk result
        (scopes_in_list scopes.new.items ≡
        scopes_in_list scopes.old.items ++
        spec.stmt_scopes types scope (length (scopes_in_list scopes.old.items)) (shown_stmt stmt.now)) }
{
    match stmt {
        Stmt::If(part) => {
            collect_stmts(alloc, scopes, types, scope, &part.statements)?;
            collect_otherwise(alloc, scopes, types, scope, &part.otherwise)?;
            Ok(())
        }
        Stmt::Case(part) => {
            collect_branches(alloc, scopes, types, scope, &part.alternatives)?;
            collect_otherwise(alloc, scopes, types, scope, &part.otherwise)?;
            Ok(())
        }
        Stmt::Repeat(part) => collect_loop(alloc, scopes, types, scope, part),
        Stmt::Begin(part) => collect_body(alloc, scopes, types, scope, Vec::new(alloc), &part.body),
        Stmt::Empty { .. } => Ok(()),
        Stmt::Assign(_) => Ok(()),
        Stmt::Call(_) => Ok(()),
        Stmt::Exit { .. } => Ok(()),
        Stmt::Return(_) => Ok(()),
        Stmt::Activate(_) => Ok(()),
        Stmt::Continue(_) => Ok(()),
        Stmt::Resume(_) => Ok(()),
        Stmt::OnTask(_) => Ok(()),
        Stmt::OnSemas(_) => Ok(()),
        Stmt::OnInterrupt(_) => Ok(()),
        Stmt::Put(_) => Ok(()),
        Stmt::Get(_) => Ok(()),
        Stmt::Send(_) => Ok(()),
        Stmt::Take(_) => Ok(()),
    }
}

#[cycle(statement)]
fn collect_stmts<'a>(
    alloc: Global,
    scopes: &mut Vec<ScopeGroups<'a>>,
    types: u32,
    scope: u32,
    stmts: &'a Parts<Stmt>,
) -> Result<(), NoMemory>
    ensures { OnOk result
        (scopes_in_list scopes.new.items ≡
        scopes_in_list scopes.old.items ++
        spec.all_scopes types scope (length (scopes_in_list scopes.old.items)) (stmts_shown stmts.now.items.items)) }
{
    for stmt in stmts.as_slice() {
        collect_stmt(alloc, scopes, types, scope, stmt)?;
    }
    Ok(())
}

#[cycle(statement)]
fn collect_branches<'a>(
    alloc: Global,
    scopes: &mut Vec<ScopeGroups<'a>>,
    types: u32,
    scope: u32,
    branches: &'a Parts<Branch>,
) -> Result<(), NoMemory>
    ensures { OnOk result
        (scopes_in_list scopes.new.items ≡
        scopes_in_list scopes.old.items ++
        spec.branch_scopes types scope (length (scopes_in_list scopes.old.items)) (branches_shown branches.now.items.items)) }
{
    for branch in branches.as_slice() {
        collect_stmts(alloc, scopes, types, scope, &branch.statements)?;
    }
    Ok(())
}

#[cycle(statement)]
fn collect_otherwise<'a>(
    alloc: Global,
    scopes: &mut Vec<ScopeGroups<'a>>,
    types: u32,
    scope: u32,
    otherwise: &'a Option<Branch>,
) -> Result<(), NoMemory>
    ensures { OnOk result
        (scopes_in_list scopes.new.items ≡
        scopes_in_list scopes.old.items ++
        spec.otherwise_scopes types scope (length (scopes_in_list scopes.old.items)) (otherwise_shown otherwise.now)) }
{
    if let Some(branch) = otherwise {
        collect_stmts(alloc, scopes, types, scope, &branch.statements)?;
    }
    Ok(())
}

// The body of a loop, with its control variable.
#[cycle(statement)]
fn collect_loop<'a>(
    alloc: Global,
    scopes: &mut Vec<ScopeGroups<'a>>,
    types: u32,
    scope: u32,
    part: &'a Repeat,
) -> Result<(), NoMemory>
    ensures { OnOk result
        (let body = part.now.body in
        scopes_in_list scopes.new.items ≡
        scopes_in_list scopes.old.items ++
        body_scopes types scope (length (scopes_in_list scopes.old.items)) (spec.control_entries part.now.place part.now.control)
        (map shown_body_decl body.declarations.items.items) (stmts_shown body.statements.items.items)) }
{
    let mut groups = Vec::new(alloc);
    declare_control(&mut groups, part.place, &part.control)?;
    collect_body(alloc, scopes, types, scope, groups, &part.body)
}

// A body that declares these names before its own.
#[cycle(statement)]
fn collect_body<'a>(
    alloc: Global,
    scopes: &mut Vec<ScopeGroups<'a>>,
    types: u32,
    outer: u32,
    groups: Vec<Group<'a>>,
    body: &'a Body,
) -> Result<(), NoMemory>
    ensures { OnOk result
        (scopes_in_list scopes.new.items ≡
        scopes_in_list scopes.old.items ++
        body_scopes types outer (length (scopes_in_list scopes.old.items)) (entries_in groups.entry.items)
        (map shown_body_decl body.now.declarations.items.items) (stmts_shown body.now.statements.items.items)) }
{
    let mut groups = groups;
    declare_body(&mut groups, types, body.declarations.as_slice())?;
    let scope = begin_scope(scopes, Some(outer), groups)?;
    collect_stmts(alloc, scopes, types, scope, &body.statements)?;
    Ok(())
}

fn declare_part<'a>(
    into: &mut Vec<Group<'a>>,
    types: u32,
    part: &'a Declared,
) -> Result<(), NoMemory>
    ensures { OnOk result
        (entries_in into.new.items ≡
        entries_in into.old.items ++ spec.declared_entries types (shown_declared part.now)) }
{
    match part {
        Declared::Item(item) => declare_names(into, &item.names, Meaning::Variable { item, types }),
        Declared::Sema(sema) => declare_names(into, &sema.names, Meaning::Semaphore),
    }
}

fn declare_parts<'a>(
    into: &mut Vec<Group<'a>>,
    types: u32,
    parts: &'a [Declared],
) -> Result<(), NoMemory>
    ensures { OnOk result
        (entries_in into.new.items ≡
        entries_in into.old.items ++ flat_map (spec.declared_entries types) (map shown_declared parts.now)) }
{
    for part in parts {
        declare_part(into, types, part)?;
    }
    Ok(())
}

fn specify<'a>(into: &mut Vec<Group<'a>>, part: &'a Spec) -> Result<(), NoMemory>
    ensures { OnOk result
        (entries_in into.new.items ≡ entries_in into.old.items ++ spec.spec_entries (shown_spec part.now)) }
{
    match part {
        Spec::Interrupt { names, .. } => declare_names(into, names, Meaning::Interrupt),
        Spec::Dation {
            names,
            direction,
            class,
            ..
        } => {
            let meaning = Meaning::Dation {
                direction: *direction,
                class: *class,
            };
            declare_names(into, names, meaning)
        }
    }
}

fn specify_all<'a>(into: &mut Vec<Group<'a>>, parts: &'a [Spec]) -> Result<(), NoMemory>
    ensures { OnOk result
        (entries_in into.new.items ≡
        entries_in into.old.items ++ flat_map spec.spec_entries (map shown_spec parts.now)) }
{
    for part in parts {
        specify(into, part)?;
    }
    Ok(())
}

// The names that a declaration of the module declares.
fn declare_decl<'a>(into: &mut Vec<Group<'a>>, types: u32, decl: &'a Decl) -> Result<(), NoMemory>
    ensures { OnOk result
        (entries_in into.new.items ≡
        entries_in into.old.items ++ spec.decl_entries types (shown_decl decl.now)) }
{
    match decl {
        Decl::Length { .. } => Ok(()),
        Decl::Type { name, .. } => declare_one(into, name, Meaning::NewType(types)),
        Decl::Declare { declared, .. } => declare_parts(into, types, declared.as_slice()),
        Decl::Specify { specs, .. } => specify_all(into, specs.as_slice()),
        Decl::Task { name, .. } => declare_one(into, name, Meaning::Task),
        Decl::Proc {
            name,
            params,
            returns,
            ..
        } => {
            let meaning = Meaning::Procedure {
                params,
                returns: *returns,
            };
            declare_one(into, name, meaning)
        }
    }
}

/// How many TYPEs there are after a declaration.
pub fn types_after(types: u32, decl: &Decl) -> Result<u32, NoMemory>
    ensures { IfOk result (λ after. after ≡ types + spec.types_in (shown_decl decl.now)) }
{
    match decl {
        Decl::Type { .. } => match types.checked_add(1) {
            Some(after) => Ok(after),
            None => Err(NoMemory),
        },
        Decl::Length { .. } => Ok(types),
        Decl::Declare { .. } => Ok(types),
        Decl::Specify { .. } => Ok(types),
        Decl::Task { .. } => Ok(types),
        Decl::Proc { .. } => Ok(types),
    }
}

fn declare_decls<'a>(into: &mut Vec<Group<'a>>, decls: &'a [Decl]) -> Result<(), NoMemory>
    ensures { OnOk result
        (entries_in into.new.items ≡
        entries_in into.old.items ++ spec.decls_entries 0 (map shown_decl decls.now)) }
{
    let mut types = 0;
    for decl in decls {
        declare_decl(into, types, decl)?;
        types = types_after(types, decl)?;
    }
    Ok(())
}

// The scopes of a task or a procedure.
fn collect_decl<'a>(
    alloc: Global,
    scopes: &mut Vec<ScopeGroups<'a>>,
    types: u32,
    decl: &'a Decl,
) -> Result<(), NoMemory>
    ensures { OnOk result
        (scopes_in_list scopes.new.items ≡
        scopes_in_list scopes.old.items ++
        spec.decl_scopes types (length (scopes_in_list scopes.old.items)) (shown_decl decl.now)) }
{
    match decl {
        Decl::Length { .. } => Ok(()),
        Decl::Type { .. } => Ok(()),
        Decl::Declare { .. } => Ok(()),
        Decl::Specify { .. } => Ok(()),
        Decl::Task { body, .. } => collect_body(alloc, scopes, types, 0, Vec::new(alloc), body),
        Decl::Proc { params, body, .. } => {
            let mut groups = Vec::new(alloc);
            declare_params(&mut groups, params.as_slice())?;
            collect_body(alloc, scopes, types, 0, groups, body)
        }
    }
}

fn collect_decls<'a>(
    alloc: Global,
    scopes: &mut Vec<ScopeGroups<'a>>,
    decls: &'a [Decl],
) -> Result<(), NoMemory>
    ensures { OnOk result
        (scopes_in_list scopes.new.items ≡
        scopes_in_list scopes.old.items ++
        spec.decls_scopes 0 (length (scopes_in_list scopes.old.items)) (map shown_decl decls.now)) }
{
    let mut types = 0;
    for decl in decls {
        collect_decl(alloc, scopes, types, decl)?;
        types = types_after(types, decl)?;
    }
    Ok(())
}

/// All scopes of a module, by their numbers, with what declares their names in order, also where a rule is broken.
pub fn scopes_of_module<'a>(alloc: Global, tree: &'a Tree) -> Result<Vec<ScopeGroups<'a>>, NoMemory>
    ensures { IfOk result (λ scopes. scopes_in_list scopes.items ≡ spec.scopes_of (shown_tree tree.now)) }
{
    let decls = tree.declarations.as_slice();
    let mut groups = Vec::new(alloc);
    declare_decls(&mut groups, decls)?;
    let mut scopes = Vec::new(alloc);
    begin_scope(&mut scopes, None, groups)?;
    collect_decls(alloc, &mut scopes, decls)?;
    Ok(scopes)
}
