// The names of the static rules, as refusals print them: the rule of number 12 is S12. docs/use/language.md states
// each.

/// A name is declared twice in one scope.
pub const S1: u8 = 1;
/// A name is used that no visible scope declares.
pub const S2: u8 = 2;
/// A type name is used before its TYPE, or names something else.
pub const S3: u8 = 3;
/// A length is out of range, or a duration literal is too long.
pub const S4: u8 = 4;
/// A bound is out of order or out of range, or a leaf has too many dimensions or elements.
pub const S5: u8 = 5;
/// A STRUCT names a field twice.
pub const S6: u8 = 6;
/// INIT has too many constants, or one that doesn't suit or fit.
pub const S7: u8 = 7;
/// INV without INIT.
pub const S8: u8 = 8;
/// PRESET has too many numbers, or one that is too large.
pub const S9: u8 = 9;
/// The system part has a name twice.
pub const S10: u8 = 10;
/// A device word is none of the four, or its number isn't 1 to 99.
pub const S11: u8 = 11;
/// A device with its number stands twice in the system part.
pub const S12: u8 = 12;
/// A specified name isn't in the system part, or is specified as what it isn't.
pub const S13: u8 = 13;
/// A device is specified as a dation that it can't be.
pub const S14: u8 = 14;
/// An operator has no row for its operands.
pub const S15: u8 = 15;
/// A name is of another sort than is needed.
pub const S16: u8 = 16;
/// Subscripts, or LWB or UPB, don't fit an array.
pub const S17: u8 = 17;
/// A component is selected that isn't there.
pub const S18: u8 = 18;
/// A whole array or structure is a value, a target or an argument.
pub const S19: u8 = 19;
/// A call has another number of arguments, or a value argument doesn't suit.
pub const S20: u8 = 20;
/// An IDENT argument is no variable of exactly the parameter's kind, or may not be changed.
pub const S21: u8 = 21;
/// A procedure without RETURNS stands in an expression.
pub const S22: u8 = 22;
/// A condition isn't BIT(1), or CASE, FROM, BY or TO isn't FIXED.
pub const S23: u8 = 23;
/// An assigned value doesn't suit its target.
pub const S24: u8 = 24;
/// A target is INV or a control variable.
pub const S25: u8 = 25;
/// EXIT stands outside a loop.
pub const S26: u8 = 26;
/// RETURN stands in a task, or its value doesn't fit the procedure.
pub const S27: u8 = 27;
/// A procedure calls itself, directly or through others.
pub const S28: u8 = 28;
/// A schedule's value or a priority is of the wrong kind.
pub const S29: u8 = 29;
/// A declared priority isn't 1 to 255.
pub const S30: u8 = 30;
/// REQUEST or RELEASE names a semaphore twice or more than 16.
pub const S31: u8 = 31;
/// A transfer doesn't suit its dation.
pub const S32: u8 = 32;
/// Formats don't suit their values or targets.
pub const S33: u8 = 33;
/// A size is passed.
pub const S34: u8 = 34;
