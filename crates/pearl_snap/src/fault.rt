// Why a snapshot could not be read, and why no run goes on from it.

use crate::state_rule::StateRule;

/// Why bytes were not read as a snapshot.
#[derive(Debug, Drop)]
pub enum ReadFail {
    /// No snapshot has these bytes: the place of the first byte of the first field that has no spelling or breaks a rule, or
    /// how many bytes there are where they end before a field or within one. The place of an object that can't be read is
    /// that of its length.
    BadBytes(u32),
    NoMemory,
}

/// Why bytes were not restored to an object and a state of it.
#[derive(Debug, Drop)]
pub enum SnapFault {
    /// No snapshot has these bytes; the place is that of `ReadFail`.
    BadBytes(u32),
    /// The least rule that the state breaks which has these bytes.
    BadState(StateRule),
    NoMemory,
}
