// The names of the validator's rules, as a refusal tells them: the rule of number 12 is V12.

/// A number names nothing, or a device of the wrong sort or direction, or a range of cells isn't one.
pub const V1: u8 = 1;
/// The operands aren't what the instruction takes.
pub const V2: u8 = 2;
/// An operator has no row for the kinds of its operands, or a conversion's kinds don't suit.
pub const V3: u8 = 3;
/// A value isn't exactly of the kind that is wanted, or the cells of a range aren't all of one kind.
pub const V4: u8 = 4;
/// A cell that may be no reference is one.
pub const V5: u8 = 5;
/// An instruction goes on or jumps with another shape than the one before the instruction to which it goes.
pub const V6: u8 = 6;
/// A jump goes back to an instruction that is no Turn.
pub const V7: u8 = 7;
/// A procedure calls itself or a greater one.
pub const V8: u8 = 8;
/// A routine has no instruction, or its last one goes on.
pub const V9: u8 = 9;
/// A routine ends in another way, or with other operands, than it is to.
pub const V10: u8 = 10;
/// Cells and operands pass the stated depth, or the stated depth is above 4,096.
pub const V11: u8 = 11;
/// A list of semaphores, bounds or a format doesn't keep its limits.
pub const V12: u8 = 12;
