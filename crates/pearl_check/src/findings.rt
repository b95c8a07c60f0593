// What is found of the parts of a statement, each of which is asked once: the rules on the statement as a whole go by it.

ghost use Rattle.std.specs.Prelude.{◌≡◌, []};
ghost use Rattle.std.specs.Option.{option_copied};
ghost use Rattle.pearl_names.specs.Holding.{HoldsFound, HoldsTable};
ghost use Rattle.pearl_names.specs.Tables as tables;
ghost use Rattle.pearl_check_expr.specs.Judged as judged;
ghost use Rattle.pearl_check.specs.Findings as spec;

use pearl_names::meaning::Found;
use pearl_names::sense::Sense;
use pearl_names::table::SenseTable;
use pearl_value::conversion::suits;
use pearl_value::kind::Kind;
use std::alloc::Global;

/// What the parts of a statement were found to be, in the order in which they were asked.
#[derive(Drop)]
pub(crate) struct Findings {
    /// The kinds of its subjects.
    pub(crate) kinds: Vec<Option<Kind>>,
    /// The entries that its names mean.
    pub(crate) names: Vec<Option<Found>>,
}

impl Findings {
    /// What is found before anything is asked.
    pub(crate) fn new(alloc: Global) -> Findings
        ensures kinds { result.kinds.items ≡ [] }
        ensures names { result.names.items ≡ [] }
    {
        Findings {
            kinds: Vec::new(alloc),
            names: Vec::new(alloc),
        }
    }

    /// The kind of the subject of this number, if it is there and has one.
    pub(crate) fn kind_at(&self, index: usize) -> Option<Kind>
        ensures { result ≡ spec.kind_at self.now index }
    {
        match self.kinds.as_slice().get(index) {
            Some(kind) => *kind,
            None => None,
        }
    }

    /// The entry that the first of the names means, if it is there and means one.
    pub(crate) fn first_name(&self) -> Option<Found>
        ensures { result ≡ spec.first_name self.now }
    {
        match self.names.as_slice().first() {
            Some(found) => *found,
            None => None,
        }
    }
}

/// What a name stands for that means this entry.
pub(crate) fn sense_of(table: &SenseTable, found: Option<Found>) -> Option<&Sense>
    ensures { (t : tables.Table) → HoldsTable table.now t →
        HoldsFound table.now.forms.items (option_copied result) (spec.sense_of t found) }
{
    match found {
        Some(found) => table.sense_at(found),
        None => None,
    }
}

/// Whether both kinds are known, and the first doesn't suit the second.
pub(crate) fn misfits(from: Option<Kind>, to: Option<Kind>) -> bool
    ensures { result ≡ judged.misfits from to }
{
    match (from, to) {
        (Some(from), Some(to)) => !suits(from, to),
        _ => false,
    }
}
