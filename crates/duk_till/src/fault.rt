//! Why a till refuses.

ghost use Rattle.std.specs.Prelude.{◌≡◌};
ghost use Rattle.duk_till.specs.declared.fault.TillFault.TheVariants as till_fault;

use duk_store::StoreFault;
use duk_term::TermFault;
use std::error::Error;
use std::fmt;

/// Why a till does not do what it was asked. `Display` writes the name, and that of the fault
/// inside it.
#[derive(Debug, Clone, Copy, PartialEq, Eq)]
pub enum TillFault {
    /// The till is stopped.
    Stopped,
    /// A purchase is open, whose outcome has to be known first.
    Open,
    /// No purchase is open.
    NothingOpen,
    /// The terminal refuses. It is written as the terminal's fault alone.
    Terminal(TermFault),
    /// The book failed, or kept what is no last purchase. The till is stopped.
    Store(StoreFault),
}

impl fmt::Display for TillFault {
    ghost use Rattle.std.specs.Prelude.{Some};
    ghost use Rattle.duk_till.specs.FaultText.{till_fault_text};

    ghost output = { λ fault. Some (till_fault_text fault) };

    fn fmt<W: fmt::Write>(&self, f: &mut fmt::Formatter<W>) -> fmt::Result {
        match self {
            TillFault::Stopped => f.write_str("Stopped"),
            TillFault::Open => f.write_str("Open"),
            TillFault::NothingOpen => f.write_str("NothingOpen"),
            TillFault::Terminal(inside) => write!(f, "{inside}"),
            TillFault::Store(inside) => write!(f, "Store {inside}"),
        }
    }
}

impl Error for TillFault {}

impl From<TermFault> for TillFault {
    ghost from_gives = { λ fault reported. reported ≡ till_fault.Terminal fault };

    fn from(fault: TermFault) -> TillFault {
        TillFault::Terminal(fault)
    }
}
