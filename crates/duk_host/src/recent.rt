//! The latest requests that were accepted, with their replies.

ghost use Rattle.std.specs.Prelude.{◌≡◌, [], IfOk, IfSome};
ghost use Rattle.std.specs.Option.{option_map};
ghost use Rattle.duk_host.specs.inner.Handle.{IsRepeatedVerdict};
ghost use Rattle.duk_host.specs.Recent.{most_exchanges, reply_given, with_exchange};
ghost use Rattle.duk_host.specs.inner.Recent.{IsRequestOf};

use crate::answered::Answered;
use crate::exchange::Exchange;
use circular_buffer::HeapCircularBuffer;
use duk_tree::Ksn;
use std::alloc::{AllocError, Global};
use std::marker::Model;

/// How many exchanges are kept at most.
const EXCHANGES: usize = 64;

/// The latest exchanges, the oldest first.
#[derive(Drop)]
pub(crate) struct Recent {
    ring: HeapCircularBuffer<Exchange>,
}

impl Model for Recent {
    ghost use Rattle.std.specs.Prelude.{◌≡◌, List};
    ghost use Rattle.duk_host.specs.Recent.{Exchange as ExchangeValue, most_exchanges};

    ghost Value = { List ExchangeValue };

    ghost view = { λ recent. recent.ring.items };

    ghost invariant = { λ recent. recent.ring.capacity ≡ most_exchanges };
}

impl Recent {
    /// No exchange, and room for as many as are kept.
    pub(crate) fn new(alloc: Global) -> Result<Self, AllocError>
        ensures { IfOk result (λ recent. recent ≡ []) }
    {
        Ok(Recent {
            ring: HeapCircularBuffer::with_capacity(alloc, EXCHANGES)?,
        })
    }

    /// Forgets all exchanges, and keeps the room for them.
    pub(crate) fn clear(&mut self)
        ensures { self.new ≡ [] }
    {
        self.ring.clear();
    }

    /// Puts an exchange last, and drops the first where there were as many as are kept. This takes
    /// no memory.
    pub(crate) fn push(&mut self, last: Exchange)
        ensures { self.new ≡ with_exchange self.old last }
    {
        self.ring.push_back(last);
    }

    /// The reply that was given to a request of this key serial number which is equal in every
    /// byte. This takes no memory.
    pub(crate) fn answer_to(&self, ksn: Ksn, request: &[u8]) -> Option<Answered>
        requires { IsRequestOf request.now ksn }
        ensures given { option_map (λ answered. answered.frame.items) result
            ≡ reply_given self.now request.now }
        ensures reported { IfSome result
            (λ answered. IsRepeatedVerdict answered.frame.items answered.says) }
    {
        let given = self.ring.iter().find(|given| given.is_of(ksn, request))?;
        Some(given.repeated())
    }
}

/// Room for the latest exchanges, and none in it: what a stopped host keeps.
#[derive(Drop)]
pub(crate) struct EmptyRing {
    recent: Recent,
}

impl Model for EmptyRing {
    ghost use Rattle.std.specs.Prelude.{◌≡◌, []};

    ghost Value = { Unit {0} };

    ghost view = { λ ring. tt };

    ghost invariant = { λ ring. ring.recent ≡ [] };
}

impl EmptyRing {
    /// The room of these exchanges, which are forgotten.
    pub(crate) fn of(recent: Recent) -> Self {
        let mut recent = recent;
        recent.clear();
        EmptyRing { recent }
    }

    /// No exchange, and that room for more.
    pub(crate) fn open(self) -> Recent
        ensures { result ≡ [] }
    {
        self.recent
    }
}
