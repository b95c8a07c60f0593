// Why a source has no tokens.

use thiserror::Error;

/// Why a source gave no tokens.
#[derive(Debug, Drop, Error)]
pub enum LexFault {
    /// The place of the first byte at which neither a blank nor a comment nor a token begins.
    #[error("Refused")]
    Refused(u32),
    #[error("NoMemory")]
    NoMemory,
}
