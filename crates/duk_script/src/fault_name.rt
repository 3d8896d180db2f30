//! Appends the text of a fault to a line.

ghost use Rattle.std.specs.Prelude.{◌≡◌, ◌+◌, ◌<◌, ◌≤◌, ◌++◌, ◌∷◌, length};
ghost use Rattle.duk_host.specs.FaultText.{host_fault_text};
ghost use Rattle.duk_term.specs.FaultText.{term_fault_text};

use crate::line::{LINE_ROOM, Line};
use duk_host::HostFault;
use duk_term::TermFault;

impl Line {
    /// The line and the text of a terminal's fault: its name, and that of the fault inside it.
    #[tactic(auto, using(crate::proofs::ShortNames::short_term_name, crate::proofs::ShortNames::short_block_name, crate::proofs::ShortNames::short_store_name))]
    pub(crate) fn term_fault(self, fault: TermFault) -> Line
        requires { length self + 20 < LINE_ROOM }
        ensures text { result ≡ self ++ 32 ∷ term_fault_text fault }
        ensures bound { length result ≤ length self + 20 }
    {
        let line = self.token(fault.name().as_bytes());
        match fault {
            TermFault::Block(inside) => line.token(inside.name().as_bytes()),
            TermFault::Store(inside) => line.token(inside.name().as_bytes()),
            _ => line,
        }
    }

    /// The line and the text of the host's fault: its name, and that of the fault inside it.
    #[tactic(auto, using(crate::proofs::ShortNames::short_host_name, crate::proofs::ShortNames::short_store_name))]
    pub(crate) fn host_fault(self, fault: HostFault) -> Line
        requires { length self + 20 < LINE_ROOM }
        ensures text { result ≡ self ++ 32 ∷ host_fault_text fault }
        ensures bound { length result ≤ length self + 20 }
    {
        let line = self.token(fault.name().as_bytes());
        match fault {
            HostFault::Store(inside) => line.token(inside.name().as_bytes()),
            _ => line,
        }
    }
}
