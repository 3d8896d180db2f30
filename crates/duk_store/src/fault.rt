//! Why a store refuses.

ghost use Rattle.std.specs.Prelude.{◌≡◌};
ghost use Rattle.duk_store.specs.FaultName.{store_fault_name};
ghost use Rattle.duk_store.specs.declared.fault.StoreFault.TheVariants.{NoMemory};

use std::alloc::AllocError;
use std::error::Error;
use std::fmt;

/// Why a store does not do what it was asked. `Display` writes the name.
#[derive(Debug, Clone, Copy, PartialEq, Eq)]
pub enum StoreFault {
    /// A device step failed in this call. The store is stopped.
    Device,
    /// The store was stopped when the call began.
    Stopped,
    /// What the medium holds is not what a store of this kind leaves on it.
    Damaged,
    /// The store can take no further write. It runs on.
    Worn,
    /// Memory was refused.
    NoMemory,
}

impl StoreFault {
    /// The fault's name.
    pub fn name(self) -> &'static str
        ensures { result.now ≡ store_fault_name self }
    {
        match self {
            StoreFault::Device => "Device",
            StoreFault::Stopped => "Stopped",
            StoreFault::Damaged => "Damaged",
            StoreFault::Worn => "Worn",
            StoreFault::NoMemory => "NoMemory",
        }
    }
}

impl fmt::Display for StoreFault {
    ghost use Rattle.std.specs.Prelude.{Some};

    ghost output = { λ fault. Some (store_fault_name fault) };

    fn fmt<W: fmt::Write>(&self, f: &mut fmt::Formatter<W>) -> fmt::Result {
        f.write_str(self.name())
    }
}

impl Error for StoreFault {}

impl From<AllocError> for StoreFault {
    ghost from_gives = { λ _ fault. fault ≡ NoMemory };

    fn from(_refused: AllocError) -> StoreFault {
        StoreFault::NoMemory
    }
}
