//! What a till knows of its book.

ghost use Rattle.std.specs.Prelude.{◌≡◌, IfOk, IfErr};
ghost use Rattle.duk_till.specs.Till.{IsAtRest, IsOpen, approved_in};
ghost use Rattle.duk_till.specs.inner.Till.{HasNothingOpen, IsNotAtRest};

use crate::fault::TillFault;
use crate::last::{Last, Payment, open_of};
use duk_tree::Ksn;

/// What a till knows of its book.
#[derive(Debug, Clone, Copy, PartialEq, Eq)]
pub enum TillState {
    /// The till is stopped.
    Stopped,
    /// It runs, and this is the last purchase, if there was one.
    Running(Option<Last>),
}

impl TillState {
    /// The payment that the till has as approved, if its last purchase is.
    pub fn approved(&self) -> Option<Payment>
        ensures { result ≡ approved_in self.now }
    {
        match self {
            TillState::Running(Some(Last::Approved { ksn, amount })) => Some(Payment {
                ksn: *ksn,
                amount: *amount,
            }),
            _ => None,
        }
    }

    /// Whether no purchase is open.
    pub(crate) fn at_rest(&self) -> Result<(), TillFault>
        ensures rest { IfOk result (λ _. IsAtRest self.now) }
        ensures refused { IfErr result (IsNotAtRest self.now) }
    {
        match self {
            TillState::Stopped => Err(TillFault::Stopped),
            TillState::Running(last) => match open_of(last) {
                Some(_) => Err(TillFault::Open),
                None => Ok(()),
            },
        }
    }

    /// The number and the amount of the purchase that is open.
    pub(crate) fn open_purchase(&self) -> Result<(Ksn, u32), TillFault>
        ensures found { IfOk result (λ purchase. IsOpen self.now purchase.0 purchase.1) }
        ensures refused { IfErr result (HasNothingOpen self.now) }
    {
        match self {
            TillState::Stopped => Err(TillFault::Stopped),
            TillState::Running(last) => match open_of(last) {
                Some(purchase) => Ok(purchase),
                None => Err(TillFault::NothingOpen),
            },
        }
    }
}
