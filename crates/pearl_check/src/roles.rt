// The rules on each part that a statement asks for: S15 to S22, S23, S25 and S29.

ghost use Rattle.std.specs.Prelude.{◌≡◌, ◌++◌, List, Option, Some, option_copied, IfOk, OnOk};
ghost use Rattle.pearl_tree.specs.ShownExpressions.{shown_expr};
ghost use Rattle.pearl_names.specs.declared.types.StructForm.{StructForm as StructFormOf};
ghost use Rattle.pearl_names.specs.Holding.{HoldsSense, HoldsFound, HoldsTable};
ghost use Rattle.pearl_names.specs.Tables as tables;
ghost use Rattle.pearl_check_expr.specs.Judged.{expr_place};
ghost use Rattle.pearl_check_expr.specs.Senses as senses;
ghost use Rattle.pearl_check_expr.specs.Subjects.{shown_subject};
ghost use Rattle.pearl_check.specs.Asked as asked_spec;
ghost use Rattle.pearl_check.specs.Findings as findings_spec;
ghost use Rattle.pearl_check.specs.Roles as spec;
ghost use Rattle.pearl_check.specs.Views.{subject_kind, subject_place};

use crate::asked::{Asked, NameRole, Role};
use crate::findings::{Findings, sense_of};
use crate::tell::tell_if;
use pearl_check_expr::subject::{Subject, kind_of};
use pearl_names::meaning::Found;
use pearl_names::scope::View;
use pearl_names::sense::Sense;
use pearl_names::table::SenseTable;
use pearl_tree::expression::Expr;
use pearl_tree::fault::RuleFault;
use pearl_tree::name::Name;
use pearl_tree::rule;
use pearl_value::kind::Kind;
use std::alloc::{AllocError as NoMemory, Global};

fn is_for_role(role: Role, kind: Kind) -> bool
    ensures { result ≡ spec.is_for_role role kind }
{
    match (role, kind) {
        (Role::Plain, _) => true,
        (Role::Condition, Kind::Bits(len)) => len == 1,
        (Role::Count, Kind::Fixed(_)) => true,
        (Role::Moment, Kind::Clock) => true,
        (Role::Lapse, Kind::Span) => true,
        (Role::Priority, Kind::Fixed(_)) => true,
        _ => false,
    }
}

fn is_unfit(role: Role, kind: Option<Kind>) -> bool
    ensures { result ≡ spec.is_unfit role kind }
{
    match kind {
        Some(kind) => !is_for_role(role, kind),
        None => false,
    }
}

fn role_of(sense: &Sense) -> Option<NameRole>
    ensures { (forms : List StructFormOf) (of : tables.Sense) → HoldsSense forms sense.now of → result ≡ spec.role_of of }
{
    match sense {
        Sense::Task => Some(NameRole::Task),
        Sense::Semaphore => Some(NameRole::Semaphore),
        Sense::Interrupt => Some(NameRole::Interrupt),
        Sense::AlphicDation(_) => Some(NameRole::Dation),
        Sense::BasicDation { .. } => Some(NameRole::Dation),
        Sense::Variable { .. } => None,
        Sense::Control(_) => None,
        Sense::Parameter(_) => None,
        Sense::NewType => None,
        Sense::Procedure(_) => None,
    }
}

fn is_role(role: NameRole, other: Option<NameRole>) -> bool
    ensures { result ≡ spec.is_role role other }
{
    match (role, other) {
        (NameRole::Task, Some(NameRole::Task)) => true,
        (NameRole::Semaphore, Some(NameRole::Semaphore)) => true,
        (NameRole::Interrupt, Some(NameRole::Interrupt)) => true,
        (NameRole::Dation, Some(NameRole::Dation)) => true,
        _ => false,
    }
}

fn is_misnamed(role: NameRole, sense: Option<&Sense>) -> bool
    ensures { (forms : List StructFormOf) (of : Option tables.Sense) → HoldsFound forms (option_copied sense.entry) of →
        result ≡ spec.is_misnamed role of }
{
    match sense {
        Some(sense) => !is_role(role, role_of(sense)),
        None => false,
    }
}

fn is_fixed_sense(sense: &Sense) -> bool
    ensures { (forms : List StructFormOf) (of : tables.Sense) → HoldsSense forms sense.now of →
        result ≡ senses.is_fixed (Some of) }
{
    match sense {
        Sense::Variable { inv, .. } => *inv,
        Sense::Control(_) => true,
        Sense::Parameter(_) => false,
        Sense::NewType => false,
        Sense::Semaphore => false,
        Sense::Interrupt => false,
        Sense::AlphicDation(_) => false,
        Sense::BasicDation { .. } => false,
        Sense::Task => false,
        Sense::Procedure(_) => false,
    }
}

fn is_fixed(sense: Option<&Sense>) -> bool
    ensures { (forms : List StructFormOf) (of : Option tables.Sense) → HoldsFound forms (option_copied sense.entry) of →
        result ≡ senses.is_fixed of }
{
    match sense {
        Some(sense) => is_fixed_sense(sense),
        None => false,
    }
}

fn place_of_expr(expr: &Expr) -> u32
    ensures { result ≡ expr_place (shown_expr expr.now) }
{
    match expr {
        Expr::Operand(operand) => operand.place,
        Expr::Dyadic { place, .. } => *place,
    }
}

fn place_of(subject: Subject<'_>) -> u32
    ensures { result ≡ subject_place (shown_subject subject.entry) }
{
    match subject {
        Subject::Value(expr) => place_of_expr(expr),
        Subject::While(expr) => place_of_expr(expr),
        Subject::Target(target) => target.place,
        Subject::Call(call) => call.name.place,
    }
}

fn s23_in(
    faults: &mut Vec<RuleFault>,
    role: Role,
    kind: Option<Kind>,
    place: u32,
) -> Result<(), NoMemory>
    ensures { OnOk result (faults.new.items ≡ faults.old.items ++ spec.s23_in role kind place) }
{
    let unfit = is_unfit(role, kind);
    match role {
        Role::Condition => tell_if(faults, unfit, place, rule::S23),
        Role::Count => tell_if(faults, unfit, place, rule::S23),
        Role::Plain => Ok(()),
        Role::Moment => Ok(()),
        Role::Lapse => Ok(()),
        Role::Priority => Ok(()),
    }
}

fn s25_in(
    table: &SenseTable,
    faults: &mut Vec<RuleFault>,
    scope: u32,
    subject: Subject<'_>,
) -> Result<(), NoMemory>
    ensures { OnOk result ((t : tables.Table) → HoldsTable table.now t →
        faults.new.items ≡ faults.old.items ++ spec.s25_in t scope (shown_subject subject.entry)) }
{
    match subject {
        Subject::Target(target) => {
            let fixed = is_fixed(table.sense_from(View::Within(scope), &target.name.text));
            tell_if(faults, fixed, target.place, rule::S25)?;
            Ok(())
        }
        Subject::Value(_) => Ok(()),
        Subject::While(_) => Ok(()),
        Subject::Call(_) => Ok(()),
    }
}

fn s29_in(
    faults: &mut Vec<RuleFault>,
    role: Role,
    kind: Option<Kind>,
    place: u32,
) -> Result<(), NoMemory>
    ensures { OnOk result (faults.new.items ≡ faults.old.items ++ spec.s29_in role kind place) }
{
    let unfit = is_unfit(role, kind);
    match role {
        Role::Moment => tell_if(faults, unfit, place, rule::S29),
        Role::Lapse => tell_if(faults, unfit, place, rule::S29),
        Role::Priority => tell_if(faults, unfit, place, rule::S29),
        Role::Plain => Ok(()),
        Role::Condition => Ok(()),
        Role::Count => Ok(()),
    }
}

// It answers the kind of the subject.
fn subject_faults(
    alloc: Global,
    table: &SenseTable,
    faults: &mut Vec<RuleFault>,
    role: Role,
    scope: u32,
    subject: Subject<'_>,
) -> Result<Option<Kind>, NoMemory>
    ensures kind { IfOk result (λ kind. (t : tables.Table) → HoldsTable table.now t →
        kind ≡ subject_kind t scope (shown_subject subject.entry)) }
    ensures faults { OnOk result ((t : tables.Table) → HoldsTable table.now t →
        faults.new.items ≡ faults.old.items ++ spec.asked_faults t (asked_spec.Subject role scope (shown_subject subject.entry))) }
{
    let kind = kind_of(alloc, table, scope, subject, faults)?;
    let place = place_of(subject);
    s23_in(faults, role, kind, place)?;
    s25_in(table, faults, scope, subject)?;
    s29_in(faults, role, kind, place)?;
    Ok(kind)
}

// It answers the entry that the name means.
fn named_faults(
    table: &SenseTable,
    faults: &mut Vec<RuleFault>,
    role: NameRole,
    scope: u32,
    name: &Name,
) -> Result<Option<Found>, NoMemory>
    ensures meant { IfOk result (λ found. (t : tables.Table) → HoldsTable table.now t → found ≡ findings_spec.meant t scope name.now) }
    ensures faults { OnOk result ((t : tables.Table) → HoldsTable table.now t →
        faults.new.items ≡ faults.old.items ++ spec.asked_faults t (asked_spec.Named role scope name.now)) }
{
    let found = table.find_from(View::Within(scope), &name.text);
    let misnamed = is_misnamed(role, sense_of(table, found));
    tell_if(faults, misnamed, name.place, rule::S16)?;
    Ok(found)
}

/// Adds the rules that are broken at what a statement asks for: S15 to S22, S23, S25 and S29; and what is found of it.
pub(crate) fn asked_faults(
    alloc: Global,
    table: &SenseTable,
    faults: &mut Vec<RuleFault>,
    findings: &mut Findings,
    asked: &Asked<'_>,
) -> Result<(), NoMemory>
    ensures found { OnOk result ((t : tables.Table) → HoldsTable table.now t →
        findings_spec.IsFound t findings.old findings.new (asked_spec.shown_asked asked.now)) }
    ensures faults { OnOk result ((t : tables.Table) → HoldsTable table.now t →
        faults.new.items ≡ faults.old.items ++ spec.asked_faults t (asked_spec.shown_asked asked.now)) }
{
    match *asked {
        Asked::Subject {
            role,
            scope,
            subject,
        } => {
            let kind = subject_faults(alloc, table, faults, role, scope, subject)?;
            findings.kinds.push(kind)?;
            Ok(())
        }
        Asked::Named { role, scope, name } => {
            let found = named_faults(table, faults, role, scope, name)?;
            findings.names.push(found)?;
            Ok(())
        }
    }
}
