// What holds of the kinds of expressions, of first values, and of hidden cells.

ghost use Rattle.pearl_program.specs.Laws.{FirstValuesSuit, HaveOneKind, VariablesAreNotHidden};

/// An expression has one kind at most, and so has a variable.
pub fn have_one_kind()
    ensures { HaveOneKind }
{}

/// First values fill what they are for, with values of its kind.
pub fn first_values_suit()
    ensures { FirstValuesSuit }
{}

/// No variable that is written or handed over lies in a hidden cell of its routine.
pub fn variables_are_not_hidden()
    ensures { VariablesAreNotHidden }
{}
