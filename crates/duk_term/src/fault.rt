//! Why a terminal refuses.

ghost use Rattle.std.specs.Prelude.{◌≡◌};
ghost use Rattle.duk_term.specs.FaultText.{term_fault_name, term_fault_text};
ghost use Rattle.duk_term.specs.Loading.{reload_fault_of, term_fault_of};

use duk_block::{BlockFault, KeyFault};
use duk_regs::ReloadFault;
use duk_store::StoreFault;
use std::error::Error;
use std::fmt;

/// Why a terminal does not do what it was asked. `Display` writes the name, and that of the fault
/// inside it.
#[derive(Debug, Clone, Copy, PartialEq, Eq)]
pub enum TermFault {
    /// The terminal is not loaded yet.
    NotLoaded,
    /// The loading block cannot be read.
    Block(BlockFault),
    /// The loading block has a key for another use than an initial key.
    WrongUse,
    /// The terminal has used all its numbers.
    Spent,
    /// The terminal is stopped.
    Stopped,
    /// The cell failed, or kept what is no image. The terminal is stopped, and nothing is pending.
    Store(StoreFault),
    /// The bytes are no answer's frame.
    Malformed,
    /// No transaction is pending.
    NotPending,
    /// The answer is to another key serial number than the pending one, or the number that is to be
    /// reversed is none that the terminal used under its initial key serial number.
    NotMine,
    /// The MAC of the reply is not that of the host.
    BadMac,
    /// The initial key serial number is the terminal's own, or one that it had before.
    IksnSpent,
    /// The terminal had eight initial key serial numbers before its own, and takes no other.
    LoadsSpent,
}

impl TermFault {
    /// The fault's own name, without that of the fault inside it.
    pub fn name(self) -> &'static str
        ensures { result.now ≡ term_fault_name self }
    {
        match self {
            TermFault::NotLoaded => "NotLoaded",
            TermFault::Block(_) => "Block",
            TermFault::WrongUse => "WrongUse",
            TermFault::Spent => "Spent",
            TermFault::Stopped => "Stopped",
            TermFault::Store(_) => "Store",
            TermFault::Malformed => "Malformed",
            TermFault::NotPending => "NotPending",
            TermFault::NotMine => "NotMine",
            TermFault::BadMac => "BadMac",
            TermFault::IksnSpent => "IksnSpent",
            TermFault::LoadsSpent => "LoadsSpent",
        }
    }
}

impl fmt::Display for TermFault {
    ghost use Rattle.std.specs.Prelude.{Some};

    ghost output = { λ fault. Some (term_fault_text fault) };

    fn fmt<W: fmt::Write>(&self, f: &mut fmt::Formatter<W>) -> fmt::Result {
        match self {
            TermFault::Block(inside) => write!(f, "{} {inside}", self.name()),
            TermFault::Store(inside) => write!(f, "{} {inside}", self.name()),
            _ => f.write_str(self.name()),
        }
    }
}

impl Error for TermFault {}

impl From<ReloadFault> for TermFault {
    ghost from_gives = { λ fault reported. reported ≡ reload_fault_of fault };

    fn from(fault: ReloadFault) -> TermFault {
        match fault {
            ReloadFault::IksnSpent => TermFault::IksnSpent,
            ReloadFault::LoadsSpent => TermFault::LoadsSpent,
        }
    }
}

impl From<KeyFault> for TermFault {
    ghost from_gives = { λ fault reported. reported ≡ term_fault_of fault };

    fn from(fault: KeyFault) -> TermFault {
        match fault {
            KeyFault::Block(fault) => TermFault::Block(fault),
            KeyFault::WrongUse => TermFault::WrongUse,
        }
    }
}
