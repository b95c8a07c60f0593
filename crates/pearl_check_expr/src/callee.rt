// Procedures that are called, and semaphores that are tried.

ghost use Rattle.std.specs.Prelude.{◌≡◌, List, [], Option, Some, None, option_map, IfOk};
ghost use Rattle.std.specs.Option.{option_copied};
ghost use Rattle.pearl_names.specs.declared.types.StructForm.{StructForm as StructFormOf};
ghost use Rattle.pearl_names.specs.Holding.{HoldsSense, HoldsFound};
ghost use Rattle.pearl_names.specs.Tables as tables;
ghost use Rattle.pearl_check_expr.specs.Judged as judged;
ghost use Rattle.pearl_check_expr.specs.Senses as spec;
ghost use Rattle.pearl_check_expr.specs.Answers.{IsJudged, callee_in};
ghost use Rattle.pearl_check_expr.specs.Standings.{faulty};

use crate::tell::tell;
use pearl_names::sense::{Sense, Signature};
use pearl_tree::fault::RuleFault;
use pearl_tree::name::Name;
use pearl_tree::rule;
use pearl_value::kind::Kind;
use std::alloc::AllocError as NoMemory;

fn signature_of(sense: &Sense) -> Option<&Signature>
    ensures { (forms : List StructFormOf) (of : tables.Sense) → HoldsSense forms sense.now of →
        option_map callee_in (option_copied result) ≡ spec.callee_of (Some of) }
{
    match sense {
        Sense::Procedure(signature) => Some(signature),
        Sense::Variable { .. } => None,
        Sense::Control(_) => None,
        Sense::Parameter(_) => None,
        Sense::NewType => None,
        Sense::Semaphore => None,
        Sense::Interrupt => None,
        Sense::AlphicDation(_) => None,
        Sense::BasicDation { .. } => None,
        Sense::Task => None,
    }
}

/// What a call of this asks and answers, where it is a procedure.
pub(crate) fn callee_of(sense: Option<&Sense>) -> Option<&Signature>
    ensures { (forms : List StructFormOf) (of : Option tables.Sense) → HoldsFound forms (option_copied sense.entry) of →
        option_map callee_in (option_copied result) ≡ spec.callee_of of }
{
    match sense {
        Some(sense) => signature_of(sense),
        None => None,
    }
}

fn is_fixed_sense(sense: &Sense) -> bool
    ensures { (forms : List StructFormOf) (of : tables.Sense) → HoldsSense forms sense.now of →
        result ≡ spec.is_fixed (Some of) }
{
    match sense {
        Sense::Variable { inv, .. } => *inv,
        Sense::Control(_) => true,
        Sense::Parameter(_) => false,
        Sense::NewType => false,
        Sense::Semaphore => false,
        Sense::Interrupt => false,
        Sense::AlphicDation(_) => false,
        Sense::BasicDation { .. } => false,
        Sense::Task => false,
        Sense::Procedure(_) => false,
    }
}

/// Whether this is a variable that is INV, or a control variable.
pub(crate) fn is_fixed(sense: Option<&Sense>) -> bool
    ensures { (forms : List StructFormOf) (of : Option tables.Sense) → HoldsFound forms (option_copied sense.entry) of →
        result ≡ spec.is_fixed of }
{
    match sense {
        Some(sense) => is_fixed_sense(sense),
        None => false,
    }
}

fn no_semaphore(found: &mut Vec<RuleFault>, name: &Name) -> Result<Option<Kind>, NoMemory>
    ensures { IfOk result (λ kind. IsJudged kind found.old.items found.new.items (faulty name.now.place 16)) }
{
    tell(found, name.place, rule::S16)?;
    Ok(None)
}

fn is_semaphore(sense: &Sense) -> bool
    ensures { (forms : List StructFormOf) (of : tables.Sense) → HoldsSense forms sense.now of →
        result ≡ spec.is_semaphore of }
{
    match sense {
        Sense::Semaphore => true,
        Sense::Variable { .. } => false,
        Sense::Control(_) => false,
        Sense::Parameter(_) => false,
        Sense::NewType => false,
        Sense::Interrupt => false,
        Sense::AlphicDation(_) => false,
        Sense::BasicDation { .. } => false,
        Sense::Task => false,
        Sense::Procedure(_) => false,
    }
}

/// The kind of TRY with this name. S16: it isn't that of a semaphore.
pub(crate) fn try_kind(
    found: &mut Vec<RuleFault>,
    name: &Name,
    sense: Option<&Sense>,
) -> Result<Option<Kind>, NoMemory>
    ensures { IfOk result (λ kind. (forms : List StructFormOf) (of : Option tables.Sense) → HoldsFound forms (option_copied sense.entry) of →
        IsJudged kind found.old.items found.new.items (judged.try_judged name.now of)) }
{
    match sense {
        None => Ok(None),
        Some(sense) => {
            if is_semaphore(sense) {
                Ok(Some(Kind::Bits(1)))
            } else {
                no_semaphore(found, name)
            }
        }
    }
}

/// The kind of what a call gives, where the procedure has RETURNS and no rule is broken in it.
pub(crate) fn result_kind(signature: &Signature) -> Option<Kind>
    ensures { result ≡ judged.result_kind (callee_in signature.now) }
{
    match signature.result {
        Some(kind) => kind,
        None => None,
    }
}
