// How long a line and a name may be, how late a moment, and the codes of refusals.

/// The most bytes that a line may have, its end not counted.
pub const LINE_LIMIT: usize = 1024;

/// So many bytes make a line too long, whatever stands behind them: one byte 13 at its end is not counted.
pub const LINE_ROOM: usize = 1026;

/// The most bytes that a name may have.
pub const NAME_LIMIT: usize = 63;

/// The most characters that a text may have.
pub const TEXT_LIMIT: usize = 255;

/// The last moment, in milliseconds after the start: 2^40.
pub const LAST_MOMENT: u64 = 1_099_511_627_776;

/// A line is not in the grammar.
pub const NO_FORM: u8 = 1;

/// What a line names is not declared.
pub const NOT_DECLARED: u8 = 2;

/// It would lead past the last moment.
pub const TOO_LATE: u8 = 3;

/// A value doesn't suit the kind that is wanted, or doesn't fit.
pub const NO_FIT: u8 = 4;
