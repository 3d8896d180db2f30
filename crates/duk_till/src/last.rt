//! The state of the last purchase.

ghost use Rattle.std.specs.Prelude.{◌≡◌, ◌≢◌, ℕ, MatchOption, Some};
ghost use Rattle.duk_tree.specs.Serial.{Serial};
ghost use Rattle.duk_till.specs.Last.{outcome_of};
ghost use Rattle.duk_till.specs.declared.last.Last.TheVariants as variant;

use duk_frame::Code;
use duk_tree::Ksn;

/// What is known of the last purchase.
#[derive(Debug, Clone, Copy, PartialEq, Eq)]
pub enum Last {
    /// Its request may have gone out, and its outcome is not known.
    Open {
        /// The number of its request.
        ksn: Ksn,
        /// The amount, in the smallest unit of the currency.
        amount: u32,
    },
    /// The host approved it.
    Approved {
        /// The number of its request.
        ksn: Ksn,
        /// The amount, in the smallest unit of the currency.
        amount: u32,
    },
    /// The host declined it.
    Declined {
        /// The number of its request.
        ksn: Ksn,
        /// Why: any code but that of an approved payment.
        why: Code,
    },
    /// It was reversed, or its request never went out.
    Undone {
        /// The number of its request.
        ksn: Ksn,
    },
}

/// A payment that a till has as approved.
#[derive(Debug, Clone, Copy, PartialEq, Eq)]
pub struct Payment {
    /// The number of its request.
    pub ksn: Ksn,
    /// The amount, in the smallest unit of the currency.
    pub amount: u32,
}

impl Last {
    /// What becomes of an open purchase by the code of its reply.
    pub(crate) fn of_code(ksn: Ksn, amount: u32, code: Code) -> Last
        ensures { result ≡ outcome_of ksn amount code }
    {
        match code {
            Code::Approved => Last::Approved { ksn, amount },
            why => Last::Declined { ksn, why },
        }
    }
}

/// The number and the amount of a last purchase that is open.
pub(crate) fn open_of(last: &Option<Last>) -> Option<(Ksn, u32)>
    ensures { MatchOption result
        ((ksn : Serial) (amount : ℕ) → last.now ≢ Some (variant.Open ksn amount))
        (λ purchase. last.now ≡ Some (variant.Open purchase.0 purchase.1)) }
{
    match last {
        None => None,
        Some(Last::Open { ksn, amount }) => Some((*ksn, *amount)),
        Some(Last::Approved { .. }) => None,
        Some(Last::Declined { .. }) => None,
        Some(Last::Undone { .. }) => None,
    }
}
