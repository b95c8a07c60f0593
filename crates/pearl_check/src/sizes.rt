// How many tasks, procedures, semaphores and slots a module has, and rule S34 of these and of how long the names of leaves
// are.

ghost use Rattle.std.specs.Prelude.{◌≡◌, ◌+◌, ◌++◌, ℕ, Bool, List, IfOk, OnOk};
ghost use Rattle.std.specs.List.{flat_map};
ghost use Rattle.pearl_tree.specs.Faults.{fault_if};
ghost use Rattle.pearl_names.specs.declared.types.StructForm.{StructForm as StructFormOf};
ghost use Rattle.pearl_names.specs.declared.sense.Sense.TheVariants as held;
ghost use Rattle.pearl_names.specs.Counts.{cut};
ghost use Rattle.pearl_names.specs.Holding.{HoldsAll, HoldsSense, HoldsTable};
ghost use Rattle.pearl_names.specs.Tables as tables;
ghost use Rattle.pearl_check.specs.Sizes as spec;
ghost use Rattle.pearl_check.specs.SizeSorts as sorts;

use crate::cut::cut_sum;
use crate::limit::{LEAF_NAME_MAX, PROCEDURES_MAX, SEMAPHORES_MAX, SLOTS_MAX, TASKS_MAX};
use crate::tell::tell_if;
use pearl_names::layout::form_counts;
use pearl_names::scope::SortedName;
use pearl_names::sense::{Form, Sense};
use pearl_names::table::SenseTable;
use pearl_names::types::{Counts, StructForm};
use pearl_tree::fault::RuleFault;
use pearl_tree::name::Name;
use pearl_tree::rule;
use std::alloc::AllocError as NoMemory;

/// What a module may have only so many of.
#[derive(Clone, Copy, PartialEq, Eq, Debug)]
pub enum Size {
    Tasks,
    Procedures,
    Semaphores,
    Slots,
}

/// What an accepted module has of its own, apart from what stands in its tasks and procedures.
#[derive(Clone, Copy, PartialEq, Eq, Debug)]
pub struct Sizes {
    /// The tasks.
    pub tasks: u32,
    /// The procedures.
    pub procedures: u32,
    /// The slots of all its variables: one for each leaf, and for an element of an array each one of its own.
    pub slots: u32,
}

fn limit(size: Size) -> u32
    ensures { result ≡ sorts.limit size }
{
    match size {
        Size::Tasks => TASKS_MAX,
        Size::Procedures => PROCEDURES_MAX,
        Size::Semaphores => SEMAPHORES_MAX,
        Size::Slots => SLOTS_MAX,
    }
}

/// How many slots a variable has, cut off at 2^31: none where a rule is broken in its declaration.
pub(crate) fn slots(forms: &[StructForm], form: &Option<Form>) -> u32
    ensures { (of : tables.Sense) (inv : Bool) → HoldsSense forms.now (held.Variable form.now inv) of → result ≡ cut (spec.slot_count of) }
{
    match form {
        Some(form) => form_counts(forms, form).slots,
        None => 0,
    }
}

// What a name adds to a size, cut off at 2^31.
fn added(forms: &[StructForm], size: Size, sense: &Sense) -> u32
    ensures { (of : tables.Sense) → HoldsSense forms.now sense.now of → result ≡ cut (sorts.added size of) }
{
    match (size, sense) {
        (Size::Tasks, Sense::Task) => 1,
        (Size::Procedures, Sense::Procedure(_)) => 1,
        (Size::Semaphores, Sense::Semaphore) => 1,
        (Size::Slots, Sense::Variable { form, .. }) => slots(forms, form),
        _ => 0,
    }
}

// Whether a size passes its limit between these counts.
fn passes(size: Size, before: u32, after: u32) -> bool
    ensures { result ≡ sorts.passes size before after }
{
    let limit = limit(size);
    before <= limit && limit < after
}

// Tells a name where a size passes its limit with it. It answers the size after it, cut off at 2^31.
fn tell_one(
    forms: &[StructForm],
    size: Size,
    faults: &mut Vec<RuleFault>,
    before: u32,
    entry: &SortedName,
    sense: &Sense,
) -> Result<u32, NoMemory>
    ensures after { IfOk result (λ after. (of : tables.Sense) (exact : ℕ) → HoldsSense forms.now sense.now of → before ≡ cut exact →
        after ≡ cut (exact + sorts.added size of)) }
    ensures told { OnOk result ((of : tables.Sense) (exact : ℕ) → HoldsSense forms.now sense.now of → before ≡ cut exact →
        faults.new.items ≡ faults.old.items ++ fault_if (sorts.passes size exact (exact + sorts.added size of)) entry.now.name.place 34) }
{
    let after = cut_sum(before, added(forms, size, sense));
    let told = passes(size, before, after);
    tell_if(faults, told, entry.name.place, rule::S34)?;
    Ok(after)
}

// Tells the name with which a size passes its limit. It answers the whole size, cut off at 2^31.
fn tell_passed(
    forms: &[StructForm],
    size: Size,
    faults: &mut Vec<RuleFault>,
    mut names: &[SortedName],
    mut senses: &[Sense],
) -> Result<u32, NoMemory>
    ensures size { IfOk result (λ whole. (of : List tables.Sense) → HoldsAll forms.now senses.entry.now of →
        whole ≡ cut (spec.size_of (sorts.added size) (spec.with_senses names.entry.now of))) }
    ensures told { OnOk result ((of : List tables.Sense) → HoldsAll forms.now senses.entry.now of →
        faults.new.items ≡ faults.old.items ++ spec.passed (sorts.added size) (sorts.limit size) 0 (spec.with_senses names.entry.now of)) }
{
    let mut before = 0;
    while let [entry, other_names @ ..] = names {
        let [sense, other_senses @ ..] = senses else {
            return Ok(before);
        };
        before = tell_one(forms, size, faults, before, entry, sense)?;
        names = other_names;
        senses = other_senses;
    }
    Ok(before)
}

fn is_long(bytes: usize, counts: Counts) -> bool
    ensures { result ≡ sorts.is_long bytes counts }
{
    let room = match LEAF_NAME_MAX.checked_sub(bytes) {
        Some(room) => room,
        None => return counts.leaves != 0,
    };
    counts.leaves != 0 && room < counts.longest as usize
}

fn has_long_form(forms: &[StructForm], name: &Name, form: &Option<Form>) -> bool
    ensures { (of : tables.Sense) (inv : Bool) → HoldsSense forms.now (held.Variable form.now inv) of → result ≡ spec.has_long_leaf name.now of }
{
    match form {
        Some(form) => is_long(name.text.len(), form_counts(forms, form)),
        None => false,
    }
}

fn has_long_leaf(forms: &[StructForm], entry: &SortedName, sense: &Sense) -> bool
    ensures { (of : tables.Sense) → HoldsSense forms.now sense.now of → result ≡ spec.has_long_leaf entry.now.name of }
{
    match sense {
        Sense::Variable { form, .. } => has_long_form(forms, &entry.name, form),
        _ => false,
    }
}

// Tells the variables that have a leaf with too long a name.
fn tell_long_leaves(
    forms: &[StructForm],
    faults: &mut Vec<RuleFault>,
    mut names: &[SortedName],
    mut senses: &[Sense],
) -> Result<(), NoMemory>
    ensures { OnOk result ((of : List tables.Sense) → HoldsAll forms.now senses.entry.now of →
        faults.new.items ≡ faults.old.items ++ flat_map spec.long_leaf_fault (spec.with_senses names.entry.now of)) }
{
    while let [entry, other_names @ ..] = names {
        let [sense, other_senses @ ..] = senses else {
            return Ok(());
        };
        tell_if(
            faults,
            has_long_leaf(forms, entry, sense),
            entry.name.place,
            rule::S34,
        )?;
        names = other_names;
        senses = other_senses;
    }
    Ok(())
}

/// Adds where the sizes of a module pass their limits. It answers the sizes, cut off at 2^31.
pub(crate) fn tell_sizes(table: &SenseTable, faults: &mut Vec<RuleFault>) -> Result<Sizes, NoMemory>
    ensures sizes { IfOk result (λ sizes. (t : tables.Table) → HoldsTable table.now t →
        sizes ≡ sorts.cut_sizes (sorts.sizes_in (spec.declared_in t))) }
    ensures told { OnOk result ((t : tables.Table) → HoldsTable table.now t →
        faults.new.items ≡ faults.old.items ++ spec.counted_sizes (spec.declared_in t)) }
{
    let forms = table.forms();
    let names = table.names_in(0);
    let senses = table.senses_in(0);
    let tasks = tell_passed(forms, Size::Tasks, faults, names, senses)?;
    let procedures = tell_passed(forms, Size::Procedures, faults, names, senses)?;
    tell_passed(forms, Size::Semaphores, faults, names, senses)?;
    let slots = tell_passed(forms, Size::Slots, faults, names, senses)?;
    tell_long_leaves(forms, faults, names, senses)?;
    Ok(Sizes {
        tasks,
        procedures,
        slots,
    })
}
