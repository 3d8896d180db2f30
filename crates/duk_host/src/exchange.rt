//! A request that was accepted, and its reply.

ghost use Rattle.std.specs.Prelude.{◌≡◌, ◌≤◌, length};
ghost use Rattle.std.specs.Str.{bytes_eq};
ghost use Rattle.duk_host.specs.inner.Handle.{IsRepeatedVerdict, IsAcceptedVerdict};
ghost use Rattle.duk_host.specs.Recent.{IsReplyWithCode, exchange};
ghost use Rattle.duk_host.specs.inner.Recent.{IsRequestOf};

use crate::answered::{Answered, Verdict};
use duk_frame::{Code, Frame};
use duk_tree::Ksn;
use std::marker::Model;

/// A request that was accepted and its reply, each byte for byte, with the key serial number of
/// both and the code of the reply.
#[derive(Drop)]
pub(crate) struct Exchange {
    ksn: Ksn,
    code: Code,
    request: Frame,
    reply: Frame,
}

impl Model for Exchange {
    ghost use Rattle.duk_host.specs.Recent.{Exchange as ExchangeValue, exchange};
    ghost use Rattle.duk_host.specs.inner.Recent.{IsExchangeOf};

    ghost Value = { ExchangeValue };

    ghost view = { λ given. exchange given.request.items given.reply.items };

    ghost invariant = { λ given.
        IsExchangeOf (exchange given.request.items given.reply.items) given.ksn given.code };
}

impl Exchange {
    /// A request and its reply with this code. This takes no memory.
    pub(crate) fn new(ksn: Ksn, code: Code, request: &[u8], reply: Frame) -> Self
        requires request { IsRequestOf request.now ksn }
        requires reply { IsReplyWithCode reply.items ksn code }
        ensures { result ≡ exchange request.now reply.items }
    {
        duk_tree::laws::serials();
        Exchange {
            ksn,
            code,
            request: frame_of(request),
            reply,
        }
    }

    /// Whether its request is equal to these bytes in every one, which are a request of this key
    /// serial number. Where the numbers differ, no byte of the request is compared.
    pub(crate) fn is_of(&self, ksn: Ksn, request: &[u8]) -> bool
        ensures { IsRequestOf request.now ksn → result ≡ bytes_eq self.now.request request.now }
    {
        duk_frame::laws::one_reading();
        self.ksn == ksn && self.request.as_slice() == request
    }

    /// The reply, given for the first time.
    pub(crate) fn accepted(&self) -> Answered
        ensures frame { result.frame.items ≡ self.now.reply }
        ensures reported { IsAcceptedVerdict result.frame.items result.says }
    {
        Answered {
            frame: frame_of(self.reply.as_slice()),
            says: Verdict::Accepted {
                ksn: self.ksn,
                code: self.code,
            },
        }
    }

    /// The reply, given again.
    pub(crate) fn repeated(&self) -> Answered
        ensures frame { result.frame.items ≡ self.now.reply }
        ensures reported { IsRepeatedVerdict result.frame.items result.says }
    {
        Answered {
            frame: frame_of(self.reply.as_slice()),
            says: Verdict::Repeated {
                ksn: self.ksn,
                code: self.code,
            },
        }
    }
}

/// The frame with these bytes.
fn frame_of(bytes: &[u8]) -> Frame
    requires { length bytes.now ≤ 64 }
    ensures { result.items ≡ bytes.now }
{
    let mut frame = Frame::new();
    frame.try_extend_from_slice(bytes).unwrap();
    frame
}
