// What holds of stops of expressions.

ghost use Rattle.pearl_parse_expr.specs.Laws.{HasOneStop};

/// At most one place is the stop of the expressions that begin at a token.
pub fn one_stop()
    ensures { HasOneStop }
{}
