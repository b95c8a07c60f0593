// The grammar determines what tokens spell.

ghost use Rattle.pearl_tree.specs.Laws.{HasOneTree, HasOneExpression, ExpressionsMeet, HasOneStop, StopsHaveNoTree, HasOneFaultList};

/// The tokens of a source spell at most one tree.
pub fn one_tree()
    ensures { HasOneTree }
{}

/// Tokens from one place to another spell at most one expression, with one grouping.
pub fn one_expression()
    ensures { HasOneExpression }
{}

/// Of two expressions from one place the shorter ends before a token that may lengthen it.
pub fn expressions_meet()
    ensures { ExpressionsMeet }
{}

/// There is at most one first token up to and with which no source begins.
pub fn one_stop()
    ensures { HasOneStop }
{}

/// Tokens with which no source begins have no tree.
pub fn stops_have_no_tree()
    ensures { StopsHaveNoTree }
{}

/// The rules that a source breaks are told in one order, each once.
pub fn one_fault_list()
    ensures { HasOneFaultList }
{}
