// What holds of the scopes of every module.

ghost use Rattle.pearl_names.specs.Laws.{OuterIsEarlier};

/// A scope stands within one of a smaller number, if it stands within one.
pub fn outer_is_earlier()
    ensures { OuterIsEarlier }
{}
