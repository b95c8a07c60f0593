// What holds of the first fault, and of where sizes are told.

ghost use Rattle.pearl_check.specs.Laws.{TellsFirst, TellsSizes};

/// What is told of a module is the first of the rules that it breaks, by place and then by rule.
pub fn first_is_told()
    ensures { TellsFirst }
{}

/// A size is told where the whole of it is above its limit, and nowhere else; and then once, at the name with which it
/// passes the limit.
pub fn sizes_are_told_above_their_limits()
    ensures { TellsSizes }
{}
