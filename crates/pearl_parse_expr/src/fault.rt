// Why tokens begin with no part of a module.

use thiserror::Error;

/// Why tokens gave no tree.
#[derive(Debug, Drop, Error)]
pub enum ParseFault {
    /// The place of the token that refuses, or of the end.
    #[error("Refused")]
    Refused(u32),
    #[error("NoMemory")]
    NoMemory,
}
