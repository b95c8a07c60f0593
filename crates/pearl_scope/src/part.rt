// The parts of a module in which a rule on names, types and declarations may be broken, in the order of the text: those of
// expressions, types and declarations.
#![tactic(auto, using(crate::proofs::PartLists::part_steps, pearl_names::proofs::Offered::list_steps, std::proofs::lemmas::Grind::common_steps))]

ghost use Rattle.std.specs.Prelude.{◌≡◌, ◌++◌, ◌∷◌, [], map, option_map, OnOk};
ghost use Rattle.std.specs.List.{flat_map};
ghost use Rattle.pearl_tree.specs.ShownLiterals.{shown_literal, shown_const};
ghost use Rattle.pearl_tree.specs.ShownExpressions.{shown_expr, shown_primary, shown_selector, shown_ref};
ghost use Rattle.pearl_tree.specs.ShownDeclarations.{shown_typing, shown_item, shown_sema, shown_declared, shown_spec, shown_param};
ghost use Rattle.pearl_tree.specs.ShownStatements.{shown_body_decl};
ghost use Rattle.pearl_scope.specs.Parts as spec;
ghost use Rattle.pearl_scope.specs.PartLists.{parts_in, selector_list_parts, field_list_parts};

use pearl_names::scope::View;
use pearl_tree::declaration::{Class, Declared, Item, Param, Sema, Spec};
use pearl_tree::expression::{Expr, Primary, Ref, Selector};
use pearl_tree::literal::{Const, Duration, Literal};
use pearl_tree::name::{Name, Number};
use pearl_tree::parts::Parts;
use pearl_tree::statement::BodyDecl;
use pearl_tree::typing::{Basic, Bound, Field, Sort, Typing};
use std::alloc::AllocError as NoMemory;

/// A part in which one of the rules S2 to S9 may be broken.
#[derive(Clone, Copy)]
pub enum Part<'a> {
    /// A name that is used.
    Used {
        view: View,
        name: &'a Name,
    },
    /// A name that is used as a type, where so many TYPEs stand before it.
    UsedAsType {
        scope: u32,
        types: u32,
        name: &'a Name,
    },
    /// A written length.
    Length {
        sort: Sort,
        number: Number,
    },
    /// A duration literal.
    Lasts(&'a Duration),
    Bounds(&'a Bound),
    /// The fields of a STRUCT.
    Struct(&'a Parts<Field>),
    Item {
        scope: u32,
        types: u32,
        item: &'a Item,
    },
    Sema(&'a Sema),
}

pub(crate) fn use_name<'a>(
    parts: &mut Vec<Part<'a>>,
    view: View,
    name: &'a Name,
) -> Result<(), NoMemory>
    ensures { OnOk result (parts_in parts.new.items ≡ parts_in parts.old.items ++ spec.name_part view name.now) }
{
    parts.push(Part::Used { view, name })?;
    Ok(())
}

pub(crate) fn use_names<'a>(
    parts: &mut Vec<Part<'a>>,
    view: View,
    names: &'a [Name],
) -> Result<(), NoMemory>
    ensures { OnOk result (parts_in parts.new.items ≡ parts_in parts.old.items ++ map (spec.Used view) names.now) }
{
    for name in names {
        use_name(parts, view, name)?;
    }
    Ok(())
}

fn add_literal<'a>(parts: &mut Vec<Part<'a>>, literal: &'a Literal) -> Result<(), NoMemory>
    ensures { OnOk result
        (parts_in parts.new.items ≡ parts_in parts.old.items ++ spec.literal_parts (shown_literal literal.now)) }
{
    match literal {
        Literal::Duration(duration) => {
            parts.push(Part::Lasts(duration))?;
            Ok(())
        }
        Literal::Number(_) => Ok(()),
        Literal::Bits { .. } => Ok(()),
        Literal::Text { .. } => Ok(()),
        Literal::Clock { .. } => Ok(()),
    }
}

#[cycle(expression)]
pub(crate) fn add_expr<'a>(
    parts: &mut Vec<Part<'a>>,
    view: View,
    expr: &'a Expr,
) -> Result<(), NoMemory>
    ensures { OnOk result
        (parts_in parts.new.items ≡ parts_in parts.old.items ++ spec.expr_parts view (shown_expr expr.now)) }
{
    match expr {
        Expr::Operand(operand) => add_primary(parts, view, &operand.primary),
        Expr::Dyadic { left, right, .. } => {
            add_expr(parts, view, left)?;
            add_expr(parts, view, right)?;
            Ok(())
        }
    }
}

#[cycle(expression)]
fn add_primary<'a>(
    parts: &mut Vec<Part<'a>>,
    view: View,
    primary: &'a Primary,
) -> Result<(), NoMemory>
    ensures { OnOk result
        (parts_in parts.new.items ≡ parts_in parts.old.items ++ spec.primary_parts view (shown_primary primary.now)) }
{
    match primary {
        Primary::Literal(literal) => add_literal(parts, literal),
        Primary::Ref(reference) => add_ref(parts, view, reference),
        Primary::Group { inner, .. } => add_expr(parts, view, inner),
        Primary::Now { .. } => Ok(()),
        Primary::Try { name, .. } => use_name(parts, view, name),
        Primary::Limit { array, .. } => add_ref(parts, view, array),
    }
}

#[cycle(expression)]
pub(crate) fn add_ref<'a>(
    parts: &mut Vec<Part<'a>>,
    view: View,
    reference: &'a Ref,
) -> Result<(), NoMemory>
    ensures { OnOk result
        (parts_in parts.new.items ≡ parts_in parts.old.items ++ spec.ref_parts view (shown_ref reference.now)) }
{
    use_name(parts, view, &reference.name)?;
    add_selectors(parts, view, reference.selectors.as_slice())?;
    Ok(())
}

#[cycle(expression)]
fn add_selectors<'a>(
    parts: &mut Vec<Part<'a>>,
    view: View,
    selectors: &'a [Selector],
) -> Result<(), NoMemory>
    ensures { OnOk result
        (parts_in parts.new.items ≡ parts_in parts.old.items ++ selector_list_parts view selectors.now) }
{
    for selector in selectors {
        add_selector(parts, view, selector)?;
    }
    Ok(())
}

#[cycle(expression)]
fn add_selector<'a>(
    parts: &mut Vec<Part<'a>>,
    view: View,
    selector: &'a Selector,
) -> Result<(), NoMemory>
    ensures { OnOk result
        (parts_in parts.new.items ≡ parts_in parts.old.items ++ spec.selector_parts view (shown_selector selector.now)) }
{
    match selector {
        Selector::Subscripts { subscripts, .. } => add_exprs(parts, view, subscripts.as_slice()),
        Selector::Component { .. } => Ok(()),
    }
}

#[cycle(expression)]
pub(crate) fn add_exprs<'a>(
    parts: &mut Vec<Part<'a>>,
    view: View,
    exprs: &'a [Expr],
) -> Result<(), NoMemory>
    ensures { OnOk result
        (parts_in parts.new.items ≡ parts_in parts.old.items ++ flat_map (spec.expr_parts view) (map shown_expr exprs.now)) }
{
    for expr in exprs {
        add_expr(parts, view, expr)?;
    }
    Ok(())
}

pub(crate) fn add_refs<'a>(
    parts: &mut Vec<Part<'a>>,
    view: View,
    references: &'a [Ref],
) -> Result<(), NoMemory>
    ensures { OnOk result
        (parts_in parts.new.items ≡ parts_in parts.old.items ++ flat_map (spec.ref_parts view) (map shown_ref references.now)) }
{
    for reference in references {
        add_ref(parts, view, reference)?;
    }
    Ok(())
}

pub(crate) fn add_maybe<'a>(
    parts: &mut Vec<Part<'a>>,
    view: View,
    expr: &'a Option<Expr>,
) -> Result<(), NoMemory>
    ensures { OnOk result
        (parts_in parts.new.items ≡
        parts_in parts.old.items ++ spec.parts_if (spec.expr_parts view) (option_map shown_expr expr.now)) }
{
    match expr {
        Some(expr) => add_expr(parts, view, expr),
        None => Ok(()),
    }
}

pub(crate) fn add_basic(parts: &mut Vec<Part<'_>>, basic: &Basic) -> Result<(), NoMemory>
    ensures { OnOk result (parts_in parts.new.items ≡ parts_in parts.old.items ++ spec.basic_parts basic.now) }
{
    match *basic {
        Basic::Sized {
            sort,
            number: Some(number),
            ..
        } => {
            parts.push(Part::Length { sort, number })?;
            Ok(())
        }
        Basic::Sized { number: None, .. } => Ok(()),
        Basic::Clock { .. } => Ok(()),
        Basic::Duration { .. } => Ok(()),
    }
}

fn add_bounds<'a>(parts: &mut Vec<Part<'a>>, bounds: &'a [Bound]) -> Result<(), NoMemory>
    ensures { OnOk result (parts_in parts.new.items ≡ parts_in parts.old.items ++ map spec.Bounds bounds.now) }
{
    for bound in bounds {
        parts.push(Part::Bounds(bound))?;
    }
    Ok(())
}

#[cycle(typing)]
pub(crate) fn add_typing<'a>(
    parts: &mut Vec<Part<'a>>,
    scope: u32,
    types: u32,
    typing: &'a Typing,
) -> Result<(), NoMemory>
    ensures { OnOk result
        (parts_in parts.new.items ≡ parts_in parts.old.items ++ spec.typing_parts scope types (shown_typing typing.now)) }
{
    match typing {
        Typing::Basic(basic) => add_basic(parts, basic),
        Typing::Struct { fields, .. } => {
            parts.push(Part::Struct(fields))?;
            add_fields(parts, scope, types, fields.as_slice())?;
            Ok(())
        }
        Typing::Named(name) => {
            use_name(parts, View::Within(scope), name)?;
            parts.push(Part::UsedAsType { scope, types, name })?;
            Ok(())
        }
    }
}

#[cycle(typing)]
fn add_fields<'a>(
    parts: &mut Vec<Part<'a>>,
    scope: u32,
    types: u32,
    fields: &'a [Field],
) -> Result<(), NoMemory>
    ensures { OnOk result
        (parts_in parts.new.items ≡ parts_in parts.old.items ++ field_list_parts scope types fields.now) }
{
    for field in fields {
        add_bounds(parts, field.bounds.as_slice())?;
        add_typing(parts, scope, types, &field.typing)?;
    }
    Ok(())
}

fn add_constants<'a>(parts: &mut Vec<Part<'a>>, constants: &'a [Const]) -> Result<(), NoMemory>
    ensures { OnOk result
        (parts_in parts.new.items ≡ parts_in parts.old.items ++ flat_map spec.const_parts (map shown_const constants.now)) }
{
    for constant in constants {
        add_literal(parts, &constant.literal)?;
    }
    Ok(())
}

pub(crate) fn add_item<'a>(
    parts: &mut Vec<Part<'a>>,
    scope: u32,
    types: u32,
    item: &'a Item,
) -> Result<(), NoMemory>
    ensures { OnOk result
        (parts_in parts.new.items ≡ parts_in parts.old.items ++ spec.item_parts scope types (shown_item item.now)) }
{
    parts.push(Part::Item { scope, types, item })?;
    add_bounds(parts, item.bounds.as_slice())?;
    add_typing(parts, scope, types, &item.typing)?;
    add_constants(parts, item.init.as_slice())?;
    Ok(())
}

fn add_items<'a>(
    parts: &mut Vec<Part<'a>>,
    scope: u32,
    types: u32,
    items: &'a [Item],
) -> Result<(), NoMemory>
    ensures { OnOk result
        (parts_in parts.new.items ≡
        parts_in parts.old.items ++ flat_map (spec.item_parts scope types) (map shown_item items.now)) }
{
    for item in items {
        add_item(parts, scope, types, item)?;
    }
    Ok(())
}

pub(crate) fn add_body_declarations<'a>(
    parts: &mut Vec<Part<'a>>,
    scope: u32,
    types: u32,
    declarations: &'a [BodyDecl],
) -> Result<(), NoMemory>
    ensures { OnOk result
        (parts_in parts.new.items ≡
        parts_in parts.old.items ++ flat_map (spec.body_decl_parts scope types) (map shown_body_decl declarations.now)) }
{
    for declaration in declarations {
        add_items(parts, scope, types, declaration.items.as_slice())?;
    }
    Ok(())
}

fn add_declared<'a>(
    parts: &mut Vec<Part<'a>>,
    types: u32,
    declared: &'a Declared,
) -> Result<(), NoMemory>
    ensures { OnOk result
        (parts_in parts.new.items ≡ parts_in parts.old.items ++ spec.declared_parts types (shown_declared declared.now)) }
{
    match declared {
        Declared::Item(item) => add_item(parts, 0, types, item),
        Declared::Sema(sema) => {
            parts.push(Part::Sema(sema))?;
            Ok(())
        }
    }
}

pub(crate) fn add_all_declared<'a>(
    parts: &mut Vec<Part<'a>>,
    types: u32,
    declared: &'a [Declared],
) -> Result<(), NoMemory>
    ensures { OnOk result
        (parts_in parts.new.items ≡
        parts_in parts.old.items ++ flat_map (spec.declared_parts types) (map shown_declared declared.now)) }
{
    for part in declared {
        add_declared(parts, types, part)?;
    }
    Ok(())
}

fn add_class(parts: &mut Vec<Part<'_>>, class: &Class) -> Result<(), NoMemory>
    ensures { OnOk result (parts_in parts.new.items ≡ parts_in parts.old.items ++ spec.class_parts class.now) }
{
    match class {
        Class::Alphic { .. } => Ok(()),
        Class::Basic { basic, .. } => add_basic(parts, basic),
    }
}

fn add_spec(parts: &mut Vec<Part<'_>>, part: &Spec) -> Result<(), NoMemory>
    ensures { OnOk result (parts_in parts.new.items ≡ parts_in parts.old.items ++ spec.spec_parts (shown_spec part.now)) }
{
    match part {
        Spec::Interrupt { .. } => Ok(()),
        Spec::Dation { class, .. } => add_class(parts, class),
    }
}

pub(crate) fn add_specs(parts: &mut Vec<Part<'_>>, specs: &[Spec]) -> Result<(), NoMemory>
    ensures { OnOk result
        (parts_in parts.new.items ≡ parts_in parts.old.items ++ flat_map spec.spec_parts (map shown_spec specs.now)) }
{
    for part in specs {
        add_spec(parts, part)?;
    }
    Ok(())
}

pub(crate) fn add_params(parts: &mut Vec<Part<'_>>, params: &[Param]) -> Result<(), NoMemory>
    ensures { OnOk result
        (parts_in parts.new.items ≡ parts_in parts.old.items ++ flat_map spec.param_parts (map shown_param params.now)) }
{
    for param in params {
        add_basic(parts, &param.basic)?;
    }
    Ok(())
}

pub(crate) fn add_returns(
    parts: &mut Vec<Part<'_>>,
    returns: &Option<Basic>,
) -> Result<(), NoMemory>
    ensures { OnOk result
        (parts_in parts.new.items ≡ parts_in parts.old.items ++ spec.parts_if spec.basic_parts returns.now) }
{
    match returns {
        Some(basic) => add_basic(parts, basic),
        None => Ok(()),
    }
}
