//! Why a host security module refuses.

ghost use Rattle.std.specs.Prelude.{◌≡◌};
ghost use Rattle.duk_hsm.specs.Load.{hsm_fault_of};

use duk_block::{BlockFault, KeyFault};
use thiserror::Error;

/// Why a host security module does not do what it was asked. `Display` writes the name, and that of
/// the fault inside it.
#[derive(Debug, Clone, Copy, PartialEq, Eq, Error)]
pub enum HsmFault {
    /// The key block cannot be read, or cannot be written with this padding.
    #[error("Block {0}")]
    Block(BlockFault),
    /// The key block has a key for another use.
    #[error("WrongUse")]
    WrongUse,
    /// A key set with this prefix is held.
    #[error("PrefixTaken")]
    PrefixTaken,
    /// As many key sets are held as there are slots.
    #[error("SlotsFull")]
    SlotsFull,
    /// A zone key is held.
    #[error("ZoneTaken")]
    ZoneTaken,
    /// No key set with the prefix of the key serial number is held.
    #[error("NoKeySet")]
    NoKeySet,
    /// No zone key is held.
    #[error("NoZone")]
    NoZone,
    /// The counter of the key serial number numbers no transaction.
    #[error("BadCounter")]
    BadCounter,
    /// The MAC is not that of the text.
    #[error("BadMac")]
    BadMac,
    /// The block is that of no PIN under the PAN.
    #[error("BadPinBlock")]
    BadPinBlock,
}

impl From<KeyFault> for HsmFault {
    ghost from_gives = { λ fault reported. reported ≡ hsm_fault_of fault };

    fn from(fault: KeyFault) -> HsmFault {
        match fault {
            KeyFault::Block(fault) => HsmFault::Block(fault),
            KeyFault::WrongUse => HsmFault::WrongUse,
        }
    }
}
