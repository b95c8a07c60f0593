// What holds of calls that lead back, of numberings, and of weights.

ghost use Rattle.pearl_calls.specs.Laws.{CyclesAreWays, NumberedCallNoneBack, NumberingsAgree, EachHasOneNumber, CalleesComeFirst, WeightsAddUp};

/// A procedure calls itself exactly where some calls lead back to it, however many there are on the way.
pub fn cycles_are_ways()
    ensures { CyclesAreWays }
{}

/// Where procedures have numbers by the rule, none calls itself.
pub fn numbered_call_none_back()
    ensures { NumberedCallNoneBack }
{}

/// The rule leaves no choice.
pub fn numberings_agree()
    ensures { NumberingsAgree }
{}

/// Each procedure has one number.
pub fn each_has_one_number()
    ensures { EachHasOneNumber }
{}

/// A procedure calls only procedures with smaller numbers.
pub fn callees_come_first()
    ensures { CalleesComeFirst }
{}

/// Where no procedure calls itself, a weight is the own one and the greatest of the procedures that are called.
pub fn weights_add_up()
    ensures { WeightsAddUp }
{}
