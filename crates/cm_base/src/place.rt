use crate::Text;
use thiserror::Error;

/// A place in a source: units are counted from 0, lines and columns from 1, and a column is a byte.
#[derive(Clone, Copy, Debug, PartialEq, Eq)]
pub struct Place {
    pub unit: u32,
    pub line: u32,
    pub col: u32,
}

/// Why a command refuses its sources or its old import library.
#[derive(Debug, Drop, Error)]
pub enum Refusal {
    /// A fault at a place of a source file.
    #[error("{file:?}:{line}:{col}: E{code}")]
    At {
        code: u8,
        file: Text,
        line: u32,
        col: u32,
    },
    /// A fault of a name.
    #[error("E{code} {name:?}")]
    Named {
        code: u8,
        name: Text,
    },
    /// A limit that is exceeded, with what was found.
    #[error("E{code} {found}")]
    Count {
        code: u8,
        found: u64,
    },
    /// An address of an old import library that no veneer can have.
    #[error("E64 {name:?} {address:08x}")]
    OldAt {
        name: Text,
        address: u32,
    },
    /// The offset of the first fault of an old import library.
    #[error("E66 {offset}")]
    Library {
        offset: u32,
    },
}
