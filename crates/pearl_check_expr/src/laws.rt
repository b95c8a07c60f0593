// What holds of every subject, and of the kinds and names in it.

ghost use Rattle.pearl_check_expr.specs.Laws.{KindsHaveNoFault, NamesWithoutASenseAreUndeclared};

/// What has a kind has no fault: where a rule is broken in a subject, it has no kind.
pub fn kinds_have_no_fault()
    ensures { KindsHaveNoFault }
{}

/// In the table of a tree a name has no sense exactly where it has no sort, so that S2 and the rules on expressions find
/// the same names undeclared.
pub fn names_without_a_sense_are_undeclared()
    ensures { NamesWithoutASenseAreUndeclared }
{}
