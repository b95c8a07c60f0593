// What holds of the faults of every module, and of the constants of INIT.

ghost use Rattle.pearl_scope.specs.Laws.{FitsWherePut, HasOneList};

/// The rules S1 to S9 that a module breaks have one list, by place and then by rule.
pub fn one_list()
    ensures { HasOneList }
{}

/// A constant of INIT fits a kind exactly where its value may be put into a variable of the kind, and the conversion
/// doesn't trap: a number that lies in the range, and a BIT or CHAR that is no longer, which is filled.
pub fn constants_fit_where_put()
    ensures { FitsWherePut }
{}
