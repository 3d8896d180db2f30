//! What a terminal sends to the host.

ghost use Rattle.std.specs.Prelude.{◌≡◌, IfSome, Some};
ghost use Rattle.duk_commands.specs.Frames.{IsAsked, number_of};

use duk_frame::{Request, read_request};
use duk_reversal::{Reversal, read_reversal};
use duk_tree::Ksn;

/// A frame of a terminal.
#[derive(Clone, Copy)]
pub(crate) enum Asked {
    /// The request of a payment.
    Payment(Request),
    /// A reversal.
    Reversal(Reversal),
}

impl Asked {
    /// The number that it uses.
    pub(crate) fn ksn(&self) -> Ksn
        ensures { result ≡ number_of self.now }
    {
        match self {
            Asked::Payment(request) => request.ksn,
            Asked::Reversal(reversal) => reversal.numbers.ksn(),
        }
    }
}

/// The fields of a terminal's frame, or `None` where the bytes are no such frame.
pub(crate) fn read_asked(bytes: &[u8]) -> Option<Asked>
    ensures found { IfSome result (IsAsked bytes.now) }
    ensures every { (asked : Asked) → IsAsked bytes.now asked → result ≡ Some asked }
{
    duk_reversal::laws::apart_from_payments();
    if let Some(request) = read_request(bytes) {
        return Some(Asked::Payment(request));
    }
    match read_reversal(bytes) {
        Some(reversal) => Some(Asked::Reversal(reversal)),
        None => None,
    }
}
