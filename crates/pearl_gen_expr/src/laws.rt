// What the code of expressions does.

ghost use Rattle.pearl_gen_expr.specs.Laws.{ExpressionsCarry};
ghost use Rattle.pearl_gen_expr.specs.Shapes.{ExpressionsKeep};

/// From any stack on the code of an expression does what the expression means and leaves its value on the operands, or comes
/// to where there is no row; so do the codes of calls, of subscripts, and of what is written to a variable.
pub fn expressions_carry()
    ensures { ExpressionsCarry }
{}

/// No rule of the validator fails in the code of an expression, if the routine's stated depth has room for its values and for
/// the procedures that it calls, and behind the code its value lies on the operands; so it is with several expressions, calls,
/// subscripts, and what is written to a variable.
pub fn expressions_keep()
    ensures { ExpressionsKeep }
{}
