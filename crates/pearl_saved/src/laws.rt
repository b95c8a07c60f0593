// What holds of saved stacks. Each function's contract is one theorem; none does anything.

ghost use Rattle.pearl_saved.specs.Laws.{FramesAreOfAStack, StacksKeepRules, StacksComeBack};

/// Frames keep N5 and N6 exactly where they are those of a stack that the object's task can have: they are its record, and its
/// record keeps these rules.
pub fn stacks_are_split()
    ensures frames { FramesAreOfAStack }
    ensures stacks { StacksKeepRules }
{}

/// A stack is recorded whole.
pub fn stacks_come_back()
    ensures { StacksComeBack }
{}
