// How large the files of a command and their lines may be.

/// The most bytes that a source may have.
pub const SOURCE_LIMIT: u64 = 1_048_576;

/// The most bytes that a journal may have.
pub const JOURNAL_LIMIT: u64 = 67_108_864;

/// The most bytes that an object may have.
pub const OBJECT_LIMIT: u64 = 16_777_216;

/// The most bytes that a snapshot may have.
pub const SNAPSHOT_LIMIT: u64 = 268_435_456;

/// The most names that may be watched.
pub const NAME_LIMIT: usize = 64;
