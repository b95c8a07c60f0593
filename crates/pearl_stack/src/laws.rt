// What the calls on a stack mean to one another.

ghost use Rattle.pearl_stack.specs.Laws.{NumbersFrames, NumbersValues, ReadsFromTheTop, PopsThePushed, PassesArguments, WritesOneCell, CountsValues};

/// The numbers of frames are those below how many there are.
pub fn frames_are_numbered()
    ensures { NumbersFrames }
{}

/// The numbers of a frame's cells and operands are those below how many it has.
pub fn values_are_numbered()
    ensures { NumbersValues }
{}

/// The number of an operand of the top frame that has so many above it.
pub fn operands_are_read_from_the_top()
    ensures { ReadsFromTheTop }
{}

/// What was pushed is on top, and popping it leaves the stack as it was.
pub fn the_pushed_is_popped()
    ensures { PopsThePushed }
{}

/// Arguments that are pushed one after the other become the callee's first cells in this order.
pub fn arguments_are_passed_in_order()
    ensures { PassesArguments }
{}

/// Where a cell is written, it alone becomes another.
pub fn one_cell_is_written()
    ensures { WritesOneCell }
{}

/// How many cells and operands there are after each call.
pub fn values_are_counted()
    ensures { CountsValues }
{}
