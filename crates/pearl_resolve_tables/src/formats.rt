// The formats of a module, one for each PUT and GET.

ghost use Rattle.std.specs.Prelude.{◌≡◌, ◌++◌, ◌∷◌, [], map, IfOk, OnOk};
ghost use Rattle.std.specs.List.{flat_map};
ghost use Rattle.pearl_names.specs.Listed.{branches_shown, otherwise_shown, stmts_shown};
ghost use Rattle.pearl_tree.specs.ShownModules.{shown_decl, shown_tree};
ghost use Rattle.pearl_tree.specs.ShownStatements.{shown_stmt};
ghost use Rattle.pearl_resolve_tables.specs.Formats as spec;

use pearl_format::item::{Item, ItemCode};
use pearl_tree::format::{Fmt, FreeCode, WideCode};
use pearl_tree::name::Number;
use pearl_tree::parts::Parts;
use pearl_tree::statement::{Branch, Stmt};
use pearl_tree::tree::{Decl, Tree};
use pearl_value::listing::Listing;
use std::alloc::{AllocError, Global};

fn free_code(code: FreeCode) -> ItemCode
    ensures { result ≡ spec.free_code code }
{
    match code {
        FreeCode::A => ItemCode::A,
        FreeCode::B => ItemCode::B1,
        FreeCode::B1 => ItemCode::B1,
        FreeCode::B2 => ItemCode::B2,
        FreeCode::B3 => ItemCode::B3,
        FreeCode::B4 => ItemCode::B4,
        FreeCode::X => ItemCode::X,
        FreeCode::Skip => ItemCode::Skip,
    }
}

fn wide_code(code: WideCode) -> ItemCode
    ensures { result ≡ spec.wide_code code }
{
    match code {
        WideCode::F => ItemCode::F,
        WideCode::T => ItemCode::T,
        WideCode::D => ItemCode::D,
    }
}

fn short_width(value: u64) -> Result<u8, AllocError>
    ensures { IfOk result (λ width. width ≡ value) }
{
    match u8::try_from(value) {
        Ok(width) => Ok(width),
        Err(_) => Err(AllocError),
    }
}

fn width_of(width: Option<Number>) -> u64
    ensures { result ≡ spec.width_of width }
{
    match width {
        Some(number) => number.value,
        None => 0,
    }
}

fn item_of(fmt: &Fmt) -> Result<Item, AllocError>
    ensures { IfOk result (λ item. item ≡ spec.item_of fmt.now) }
{
    match fmt {
        Fmt::Free { code, width, .. } => {
            let width = short_width(width_of(*width))?;
            Ok(Item {
                code: free_code(*code),
                width,
            })
        }
        Fmt::Wide { code, width, .. } => {
            let width = short_width(width.value)?;
            Ok(Item {
                code: wide_code(*code),
                width,
            })
        }
    }
}

fn items_of(alloc: Global, formats: &[Fmt]) -> Result<Listing<Item>, AllocError>
    ensures { IfOk result (λ made. made ≡ map spec.item_of formats.now) }
{
    let mut made = Vec::new(alloc);
    made.reserve_exact(formats.len())?;
    for fmt in formats {
        made.push(item_of(fmt)?)?;
    }
    Ok(Listing::new(made))
}

fn add_format(
    alloc: Global,
    formats: &[Fmt],
    into: &mut Vec<Listing<Item>>,
) -> Result<(), AllocError>
    ensures { OnOk result (into.new.items ≡ into.old.items ++ map spec.item_of formats.now ∷ []) }
{
    let items = items_of(alloc, formats)?;
    into.push(items)?;
    Ok(())
}

#[cycle(statement)]
fn add_stmt(alloc: Global, stmt: &Stmt, into: &mut Vec<Listing<Item>>) -> Result<(), AllocError>
    ensures { OnOk result (into.new.items ≡ into.old.items ++ spec.formats_in (shown_stmt stmt.now)) }
{
    match stmt {
        Stmt::If(part) => {
            add_stmts(alloc, &part.statements, into)?;
            add_otherwise(alloc, &part.otherwise, into)?;
            Ok(())
        }
        Stmt::Case(part) => {
            add_branches(alloc, &part.alternatives, into)?;
            add_otherwise(alloc, &part.otherwise, into)?;
            Ok(())
        }
        Stmt::Repeat(part) => {
            add_stmts(alloc, &part.body.statements, into)?;
            Ok(())
        }
        Stmt::Begin(part) => {
            add_stmts(alloc, &part.body.statements, into)?;
            Ok(())
        }
        Stmt::Put(part) => add_format(alloc, part.formats.as_slice(), into),
        Stmt::Get(part) => add_format(alloc, part.formats.as_slice(), into),
        Stmt::Empty { .. } => Ok(()),
        Stmt::Assign(_) => Ok(()),
        Stmt::Call(_) => Ok(()),
        Stmt::Exit { .. } => Ok(()),
        Stmt::Return(_) => Ok(()),
        Stmt::Activate(_) => Ok(()),
        Stmt::Continue(_) => Ok(()),
        Stmt::Resume(_) => Ok(()),
        Stmt::OnTask(_) => Ok(()),
        Stmt::OnSemas(_) => Ok(()),
        Stmt::OnInterrupt(_) => Ok(()),
        Stmt::Send(_) => Ok(()),
        Stmt::Take(_) => Ok(()),
    }
}

#[cycle(statement)]
fn add_stmts(
    alloc: Global,
    stmts: &Parts<Stmt>,
    into: &mut Vec<Listing<Item>>,
) -> Result<(), AllocError>
    ensures { OnOk result (into.new.items ≡ into.old.items ++ spec.formats_in_all (stmts_shown stmts.now.items.items)) }
{
    for stmt in stmts.as_slice() {
        add_stmt(alloc, stmt, into)?;
    }
    Ok(())
}

#[cycle(statement)]
fn add_branches(
    alloc: Global,
    branches: &Parts<Branch>,
    into: &mut Vec<Listing<Item>>,
) -> Result<(), AllocError>
    ensures { OnOk result (into.new.items ≡ into.old.items ++ spec.formats_in_branches (branches_shown branches.now.items.items)) }
{
    for branch in branches.as_slice() {
        add_stmts(alloc, &branch.statements, into)?;
    }
    Ok(())
}

#[cycle(statement)]
fn add_otherwise(
    alloc: Global,
    otherwise: &Option<Branch>,
    into: &mut Vec<Listing<Item>>,
) -> Result<(), AllocError>
    ensures { OnOk result (into.new.items ≡ into.old.items ++ spec.formats_in_otherwise (otherwise_shown otherwise.now)) }
{
    match otherwise {
        Some(branch) => {
            add_stmts(alloc, &branch.statements, into)?;
            Ok(())
        }
        None => Ok(()),
    }
}

fn add_decl(alloc: Global, decl: &Decl, into: &mut Vec<Listing<Item>>) -> Result<(), AllocError>
    ensures { OnOk result (into.new.items ≡ into.old.items ++ spec.decl_formats (shown_decl decl.now)) }
{
    match decl {
        Decl::Task { body, .. } => add_stmts(alloc, &body.statements, into),
        Decl::Proc { body, .. } => add_stmts(alloc, &body.statements, into),
        Decl::Length { .. } => Ok(()),
        Decl::Type { .. } => Ok(()),
        Decl::Declare { .. } => Ok(()),
        Decl::Specify { .. } => Ok(()),
    }
}

/// The formats of a module, in the order of the text. A width beyond 255 counts as want of memory.
pub fn module_formats(alloc: Global, tree: &Tree) -> Result<Listing<Listing<Item>>, AllocError>
    ensures { IfOk result (λ made. made ≡ flat_map spec.decl_formats (shown_tree tree.now).declarations) }
{
    let mut made = Vec::new(alloc);
    for decl in tree.declarations.as_slice() {
        add_decl(alloc, decl, &mut made)?;
    }
    Ok(Listing::new(made))
}
