//! Why a host refuses.

ghost use Rattle.std.specs.Prelude.{◌≡◌};
ghost use Rattle.duk_host.specs.FaultText.{host_fault_name, host_fault_text};
ghost use Rattle.duk_host.specs.declared.fault.HostFault.TheVariants.{NoMemory};

use duk_store::StoreFault;
use std::alloc::AllocError;
use std::error::Error;
use std::fmt;

/// Why a host does not do what it was asked. `Display` writes the name, and that of the fault
/// inside it.
#[derive(Debug, Clone, Copy, PartialEq, Eq)]
pub enum HostFault {
    /// Memory was refused.
    NoMemory,
    /// The log failed, or kept what is no list of used numbers. The host is stopped.
    Store(StoreFault),
    /// The host is stopped.
    Stopped,
    /// The input cannot be read.
    Read,
    /// The output cannot be written.
    Write,
    /// The input ends inside a frame.
    Truncated,
    /// A frame is longer than any may be.
    TooLong,
}

impl HostFault {
    /// The fault's own name, without that of the fault inside it.
    pub fn name(self) -> &'static str
        ensures { result.now ≡ host_fault_name self }
    {
        match self {
            HostFault::NoMemory => "NoMemory",
            HostFault::Store(_) => "Store",
            HostFault::Stopped => "Stopped",
            HostFault::Read => "Read",
            HostFault::Write => "Write",
            HostFault::Truncated => "Truncated",
            HostFault::TooLong => "TooLong",
        }
    }
}

impl fmt::Display for HostFault {
    ghost use Rattle.std.specs.Prelude.{Some};

    ghost output = { λ fault. Some (host_fault_text fault) };

    fn fmt<W: fmt::Write>(&self, f: &mut fmt::Formatter<W>) -> fmt::Result {
        match self {
            HostFault::Store(inside) => write!(f, "{} {inside}", self.name()),
            _ => f.write_str(self.name()),
        }
    }
}

impl Error for HostFault {}

impl From<AllocError> for HostFault {
    ghost from_gives = { λ _ fault. fault ≡ NoMemory };

    fn from(_refused: AllocError) -> HostFault {
        HostFault::NoMemory
    }
}
