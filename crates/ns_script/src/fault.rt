use thiserror::Error;

/// Why a script was not read.
#[derive(Clone, Copy, Debug, PartialEq, Eq, Error)]
pub enum ScriptFault {
    /// The first line that breaks the grammar, from 1.
    #[error("bad at {0}")]
    BadLine(u32),
    #[error("no memory")]
    NoMemory,
}
