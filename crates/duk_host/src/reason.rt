//! Why a request is refused.

ghost use Rattle.std.specs.Prelude.{◌≡◌};
ghost use Rattle.duk_tree.specs.Serial.{serial_bytes};
ghost use Rattle.duk_host.specs.inner.Handle.{IsRefusalVerdict};
ghost use Rattle.duk_host.specs.Judgement.{reason_number, refusal_frame};

use crate::answered::{Answered, Verdict};
use duk_frame::{Frame, write_refusal};
use duk_tree::Ksn;

/// Why a request is refused, in the order in which the reasons are tested.
#[derive(Clone, Copy)]
pub enum Reason {
    /// The bytes are no request.
    Malformed,
    /// No key set for its key serial number is held.
    UnknownKeySet,
    /// Its counter numbers no transaction.
    BadCounter,
    /// Its MAC is not that of the request.
    BadMac,
    /// Its number is used.
    Used,
    /// What the host keeps has no room.
    LogFull,
}

impl Reason {
    /// The number in a refusal.
    fn number(self) -> u8
        ensures { result ≡ reason_number self }
    {
        match self {
            Reason::Malformed => 1,
            Reason::UnknownKeySet => 2,
            Reason::BadCounter => 3,
            Reason::BadMac => 4,
            Reason::Used => 5,
            Reason::LogFull => 6,
        }
    }

    /// The refusal of what uses this key serial number.
    pub fn refusal(self, ksn: Ksn) -> Frame
        ensures { result.items ≡ refusal_frame (serial_bytes ksn) self }
    {
        write_refusal(ksn.bytes(), self.number())
    }

    /// The answer to a request with this key serial number, which is refused.
    pub(crate) fn answer(self, ksn: Ksn) -> Answered
        ensures frame { result.frame.items ≡ refusal_frame (serial_bytes ksn) self }
        ensures reported { IsRefusalVerdict result.frame.items result.says }
    {
        Answered {
            frame: self.refusal(ksn),
            says: Verdict::Refused {
                ksn,
                reason: self.number(),
            },
        }
    }
}
