// What the productions spell.

ghost use Rattle.pearl_tree.specs.Standing.{SpellsBracketedNumber};
ghost use Rattle.pearl_tree.specs.Expressions.{SpellsConst};
ghost use Rattle.pearl_tree.specs.Types as types;
ghost use Rattle.pearl_tree.specs.Declarations as grammar;
ghost use Rattle.pearl_tree.specs.Modules as modules;
ghost use Rattle.pearl_grammar.specs.Declarations as rules;
ghost use Rattle.std.specs.Prelude.{ℕ};
ghost use Rattle.pearl_grammar.specs.Laws.{IsSaid, LengthsAreSaid, TypesAreSaid, VariablesAreSaid, SpecificationsAreSaid};
ghost use Rattle.pearl_grammar.specs.Laws.{Exits, TasksAreActedOn, SemasAreActedOn, InterruptsAreActedOn, Sends, Takes, Returns};
ghost use Rattle.pearl_grammar.specs.Laws.{Empties, Assigns, Calls, Activates, Continues, Resumes, Puts, Gets};
ghost use Rattle.pearl_tree.specs.Statements as statements;
ghost use Rattle.pearl_grammar.specs.Statements as parts;

/// The productions of names, numbers in brackets and constants spell what their definitions say.
pub fn names_are_said()
    ensures names { IsSaid types.SpellsNames rules.names_rule rules.names_parts }
    ensures number { IsSaid SpellsBracketedNumber rules.bracketed_number_rule rules.bracketed_number_parts }
    ensures constant { IsSaid SpellsConst rules.constant_rule rules.constant_parts }
{}

/// Those of bounds and basic types do.
pub fn types_are_said()
    ensures int { IsSaid types.SpellsInt rules.int_rule rules.int_parts }
    ensures upper { IsSaid types.SpellsUpper rules.upper_rule rules.upper_parts }
    ensures bound { IsSaid types.SpellsBound rules.bound_rule rules.bound_parts }
    ensures bounds { IsSaid types.SpellsBounds rules.bounds_rule rules.bounds_parts }
    ensures basic { IsSaid types.SpellsBasic rules.basic_rule rules.basic_parts }
    ensures field { (depth : ℕ) → IsSaid (λ tokens. types.SpellsField tokens depth) (rules.field_rule depth) (rules.field_parts depth) }
{}

/// Those of variables and semaphores do.
pub fn items_are_said()
    ensures item { IsSaid grammar.SpellsItem rules.item_rule rules.item_parts }
    ensures sema { IsSaid grammar.SpellsSema rules.sema_rule rules.sema_parts }
    ensures declared { IsSaid grammar.SpellsDeclared rules.declared_rule rules.declared_parts }
{}

/// Those of specifications and devices do.
pub fn specifications_are_said()
    ensures class { IsSaid grammar.SpellsClass rules.class_rule rules.class_parts }
    ensures control { IsSaid grammar.SpellsControl rules.control_rule rules.control_parts }
    ensures spec { IsSaid grammar.SpellsSpec rules.spec_rule rules.spec_parts }
    ensures device { IsSaid grammar.SpellsDevice rules.device_rule rules.device_parts }
{}

/// Those of declarations that have no body do.
pub fn declarations_are_said()
    ensures length { LengthsAreSaid }
    ensures typing { TypesAreSaid }
    ensures declared { VariablesAreSaid }
    ensures specs { SpecificationsAreSaid }
{}

/// Those of parameters, priorities and results do.
pub fn heads_are_said()
    ensures param { IsSaid grammar.SpellsParam rules.param_rule rules.param_parts }
    ensures prio { IsSaid grammar.SpellsPrio rules.prio_rule rules.prio_parts }
    ensures returns { IsSaid modules.SpellsReturns rules.returns_rule rules.returns_parts }
{}

/// Those of values in brackets and of times do.
pub fn times_are_said()
    ensures after { (word : ℕ) → IsSaid (λ tokens. statements.SpellsAfter tokens word) (parts.after_rule word) (parts.after_parts word) }
    ensures value { IsSaid statements.SpellsValue parts.value_rule parts.value_parts }
    ensures period_end { IsSaid statements.SpellsPeriodEnd parts.period_end_rule parts.period_end_parts }
    ensures period { IsSaid statements.SpellsPeriod parts.period_rule parts.period_parts }
    ensures start { IsSaid statements.SpellsStart parts.start_rule parts.start_parts }
    ensures once { IsSaid statements.SpellsOnce parts.once_rule parts.once_parts }
{}

/// Those of statements that hold no others do.
pub fn statements_are_said()
    ensures exit { Exits }
    ensures on_task { TasksAreActedOn }
    ensures on_semas { SemasAreActedOn }
    ensures on_interrupt { InterruptsAreActedOn }
    ensures put { Puts }
    ensures get { Gets }
    ensures send { Sends }
    ensures take { Takes }
    ensures return_ { Returns }
    ensures empty { Empties }
    ensures assign { Assigns }
    ensures call { Calls }
    ensures activate { Activates }
    ensures continue_ { Continues }
    ensures resume { Resumes }
{}

/// Those of the parts of statements that hold others do.
pub fn inner_parts_are_said()
    ensures control { IsSaid statements.SpellsFor parts.for_rule parts.for_parts }
    ensures declaration { IsSaid statements.SpellsBodyDecl parts.body_declaration_rule parts.body_declaration_parts }
{}
