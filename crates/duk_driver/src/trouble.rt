//! Why the program ends before its last step.

use duk_config::ScriptFault;
use duk_host::HostFault;
use duk_store::StoreFault;
use hex::FromHexError;
use std::alloc::{AllocError, AllocFailed};
use std::{io, str};
use thiserror::Error;

/// Why the program ends.
#[derive(Debug, Drop, Error)]
pub enum Trouble {
    /// Memory was refused.
    #[error("out of memory")]
    Memory,
    /// A line is no step, or one of something that was not made.
    #[error("not a step")]
    NotAStep,
    /// A host or a disk is not as the step needs it, before the step.
    #[error("cannot set up")]
    NotSetUp,
    /// What came cannot be written.
    #[error("cannot write")]
    CannotWrite,
}

impl From<AllocError> for Trouble {
    fn from(_refused: AllocError) -> Trouble {
        Trouble::Memory
    }
}

impl<T: Drop> From<AllocFailed<T>> for Trouble {
    fn from(_refused: AllocFailed<T>) -> Trouble {
        Trouble::Memory
    }
}

impl From<StoreFault> for Trouble {
    fn from(refused: StoreFault) -> Trouble {
        match refused {
            StoreFault::NoMemory => Trouble::Memory,
            _ => Trouble::NotSetUp,
        }
    }
}

impl From<HostFault> for Trouble {
    fn from(refused: HostFault) -> Trouble {
        match refused {
            HostFault::NoMemory => Trouble::Memory,
            _ => Trouble::NotSetUp,
        }
    }
}

impl From<FromHexError> for Trouble {
    fn from(_refused: FromHexError) -> Trouble {
        Trouble::NotAStep
    }
}

impl From<ScriptFault> for Trouble {
    fn from(refused: ScriptFault) -> Trouble {
        match refused {
            ScriptFault::NoMemory => Trouble::Memory,
            _ => Trouble::NotAStep,
        }
    }
}

impl From<str::Utf8Error> for Trouble {
    fn from(_refused: str::Utf8Error) -> Trouble {
        Trouble::NotAStep
    }
}

impl From<io::Error> for Trouble {
    fn from(_failed: io::Error) -> Trouble {
        Trouble::CannotWrite
    }
}
