// What holds of scopes, cells, hidden cells and formats, of names and components, and of what expressions and targets become.

ghost use Rattle.pearl_sound.specs.Laws.{AskedIsKnown, CallsAreSound, ComponentsLieInTheirVariables, ExpressionsAreSound, FormatsFit, GetsAreSound, HiddenCellsAreApart, InnerNamesHaveTheirCells, KindsAreKnown, LiteralsAreValues, ModuleDevicesAreThere, ModuleNamesHaveTheirLeaves, ModuleNumbersAreThere, ModuleProceduresAreThere, NamesAreKnown, NamesHaveTheirCells, NamesHaveTheirDevices, NamesLead, NamesLeadInModules, NamesNameOthers, NamesShareNoCells, OwnNamesAreNotHidden, PutsAreSound, RoutinesAreDivided, RoutinesAreSound, RoutinesHaveCells, RuleGivesNumbers, ScopesShareNoCells, SemaphoreStatementsAreSound, SemaphoresAreApart, SemaphoresAreNamed, SensesAreComplete, SensesAreSound, SimpleStatementsAreSound, StatementsAreKept, StatementsAreSound, StatementsGoPast, StatementsHaveLiterals, StretchesHaveTheirCells, TargetsHaveTheirKind};

/// Behind some statements the counters stand at what comes behind the scopes, cells and formats of these.
pub fn statements_go_past()
    ensures { StatementsGoPast }
{}

/// A routine has as many cells as its parameters, its variables, its loops and its GETs are given.
pub fn routines_have_cells()
    ensures { RoutinesHaveCells }
{}

/// The kind of a target's cell is the one that the static rules ask of the target.
pub fn targets_have_their_kind()
    ensures { TargetsHaveTheirKind }
{}

/// Where names lead to what is there, an expression in which no rule is broken becomes one of a program with the same
/// kind, and so does a target.
pub fn expressions_are_sound()
    ensures { ExpressionsAreSound }
{}

/// A literal of a lawful tree is a value of the kind that it has.
pub fn literals_are_values()
    ensures { LiteralsAreValues }
{}

/// Where names lead to what is there, a call in which no rule is broken hands over what suits the procedure's parameters.
pub fn calls_are_sound()
    ensures { CallsAreSound }
{}

/// In the cells of a scope those of each name lie where its number says.
pub fn names_have_their_cells()
    ensures { NamesHaveTheirCells }
{}

/// The cells of two names of a scope are others.
pub fn names_share_no_cells()
    ensures { NamesShareNoCells }
{}

/// Two names of the module don't name the same leaf, semaphore or task, nor the same place among the procedures' numbers.
pub fn names_name_others()
    ensures { NamesNameOthers }
{}

/// The number of an interrupt's or a dation's name is that of a device which is specified under it, where one is.
pub fn names_have_their_devices()
    ensures { NamesHaveTheirDevices }
{}

/// A component's leaves and slots lie among those of its variable where its place in the structure says.
pub fn components_lie_in_their_variables()
    ensures { ComponentsLieInTheirVariables }
{}

/// The hidden cells of a task or procedure are all different, and none is a parameter.
pub fn hidden_cells_are_apart()
    ensures { HiddenCellsAreApart }
{}

/// Parameters and variables that a task or procedure declares for itself lie in no hidden cell of it.
pub fn own_names_are_not_hidden()
    ensures { OwnNamesAreNotHidden }
{}

/// A task's or procedure's cells are given to its scopes, its loops and its GETs, one stretch behind the other.
pub fn routines_are_divided()
    ensures { RoutinesAreDivided }
{}

/// At the number of a loop or of a GET the cells have just the kinds that it needs.
pub fn stretches_have_their_cells()
    ensures { StretchesHaveTheirCells }
{}

/// At the number of a parameter or variable of any scope the cells have just its kinds, and none is hidden.
pub fn inner_names_have_their_cells()
    ensures { InnerNamesHaveTheirCells }
{}

/// Names of different scopes of one task or procedure share no cells.
pub fn scopes_share_no_cells()
    ensures { ScopesShareNoCells }
{}

/// The kinds of what names stand for have lengths in their ranges. A variable whose declaration breaks no rule has bounds in
/// theirs, and leaves of few dimensions and elements.
pub fn senses_are_sound()
    ensures { SensesAreSound }
{}

/// At the number of a variable of the module the program has just its leaves, with their names, kinds and elements.
pub fn module_names_have_their_leaves()
    ensures { ModuleNamesHaveTheirLeaves }
{}

/// The numbers of semaphores and tasks are those of what the program has.
pub fn module_numbers_are_there()
    ensures { ModuleNumbersAreThere }
{}

/// At a procedure's number the program has a procedure with its parameters and its result.
pub fn module_procedures_are_there()
    ensures { ModuleProceduresAreThere }
{}

/// From each view of a module names lead to what is there in its program.
pub fn names_lead()
    ensures { NamesLead }
{}

/// At the number of an interrupt's or a dation's name the program has a device of the sort that the name says.
pub fn module_devices_are_there()
    ensures { ModuleDevicesAreThere }
{}

/// In a module that breaks no static rule names lead to what is there from each view.
pub fn names_lead_in_modules()
    ensures { NamesLeadInModules }
{}

/// Where names lead to what is there, a statement without others within it, in which all is known and no rule is broken,
/// becomes a sound one; semaphores and formats are left out.
pub fn simple_statements_are_sound()
    ensures { SimpleStatementsAreSound }
{}

/// An expression whose names and literals are known, and in which no rule is broken, has a kind, and so has a target.
pub fn kinds_are_known()
    ensures { KindsAreKnown }
{}

/// The numbers that the rule gives to procedures are below their count, and no two are the same.
pub fn rule_gives_numbers()
    ensures { RuleGivesNumbers }
{}

/// In a module that breaks no rule on names and types (S2 to S9) each name has its form or its kinds.
pub fn senses_are_complete()
    ensures { SensesAreComplete }
{}

/// In a module that breaks no rule on names and types all names of expressions and statements are known.
pub fn names_are_known()
    ensures { NamesAreKnown }
{}

/// What a statement asks for is known where its names are, its literals are values, and no rule is broken.
pub fn asked_is_known()
    ensures { AskedIsKnown }
{}

/// Two semaphores of a module have two numbers.
pub fn semaphores_are_apart()
    ensures { SemaphoresAreApart }
{}

/// REQUEST and RELEASE become sound statements, where what they ask for is known and no rule is broken.
pub fn semaphore_statements_are_sound()
    ensures { SemaphoreStatementsAreSound }
{}

/// A format in which S33 isn't broken fits its values.
pub fn formats_fit()
    ensures { FormatsFit }
{}

/// PUT becomes a sound statement, where its format is there, what it asks for is known and no rule is broken.
pub fn puts_are_sound()
    ensures { PutsAreSound }
{}

/// GET becomes a sound statement, where its format and cells are there, what it asks for is known and no rule is broken.
pub fn gets_are_sound()
    ensures { GetsAreSound }
{}

/// Statements that have all that they need, with all statements within them, become sound ones.
pub fn statements_are_sound()
    ensures { StatementsAreSound }
{}

/// In a module that breaks no static rule none is broken in any statement, and the names of each are known.
pub fn statements_are_kept()
    ensures { StatementsAreKept }
{}

/// In a lawful tree the literals of all that its statements ask for are values.
pub fn statements_have_literals()
    ensures { StatementsHaveLiterals }
{}

/// In a tree that spells tokens each REQUEST and RELEASE names a semaphore.
pub fn semaphores_are_named()
    ensures { SemaphoresAreNamed }
{}

/// The procedures and tasks of a lawful module that breaks no static rule are sound in its program, where what goes into
/// their variables as first values suits these.
pub fn routines_are_sound()
    ensures { RoutinesAreSound }
{}
