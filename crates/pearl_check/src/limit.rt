// The limits of the static rules. Definitions and code cite them from here.

/// The greatest priority that a task may declare.
pub const PRIORITY_MAX: u64 = 255;

/// How many semaphores one REQUEST or RELEASE may name.
pub const NAMES_MAX: usize = 16;

/// How many data items a format may have.
pub const DATA_MAX: usize = 64;

/// The greatest width of an item.
pub const WIDTH_MAX: u64 = 255;

/// The greatest sum of widths of a format.
pub const FORMAT_MAX: u64 = 1024;

/// How many tasks a module may have.
pub const TASKS_MAX: u32 = 200;

/// How many procedures a module may have.
pub const PROCEDURES_MAX: u32 = 200;

/// How many semaphores a module may have.
pub const SEMAPHORES_MAX: u32 = 1000;

/// How many slots the variables of a module may have.
pub const SLOTS_MAX: u32 = 65536;

/// How many bytes the name of a leaf may have.
pub const LEAF_NAME_MAX: usize = 1024;

/// The most that a task or procedure may weigh, in cells.
pub const CELLS_MAX: u32 = 4096;
