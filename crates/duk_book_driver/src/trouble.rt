//! Why the program ends before its last line.

use hex::FromHexError;
use std::alloc::{AllocError, AllocFailed};
use std::{io, str};
use thiserror::Error;

/// Why the program ends.
#[derive(Debug, Drop, Error)]
pub enum Trouble {
    /// Memory was refused.
    #[error("out of memory")]
    Memory,
    /// A line is no group.
    #[error("not a group")]
    NotAGroup,
    /// What was settled cannot be written.
    #[error("cannot write")]
    CannotWrite,
}

impl From<AllocError> for Trouble {
    fn from(_refused: AllocError) -> Trouble {
        Trouble::Memory
    }
}

impl<T: Drop> From<AllocFailed<T>> for Trouble {
    fn from(_refused: AllocFailed<T>) -> Trouble {
        Trouble::Memory
    }
}

impl From<FromHexError> for Trouble {
    fn from(_refused: FromHexError) -> Trouble {
        Trouble::NotAGroup
    }
}

impl From<str::Utf8Error> for Trouble {
    fn from(_refused: str::Utf8Error) -> Trouble {
        Trouble::NotAGroup
    }
}

impl From<io::Error> for Trouble {
    fn from(_failed: io::Error) -> Trouble {
        Trouble::CannotWrite
    }
}
