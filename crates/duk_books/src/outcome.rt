//! What comes of an event.

use crate::event::End;
use duk_frame::Code;
use duk_host::HostFault;
use duk_reversal::ReversalState;
use duk_term::Next;
use duk_till::{TillFault, TillState};
use duk_tree::{Iksn, Ksn};

/// What came of an event. Tills `t` and frames `k` are counted from 1.
#[derive(Clone, Copy, Debug, PartialEq, Eq)]
pub enum Outcome {
    /// A till was loaded.
    Loaded {
        /// The till.
        t: u32,
        /// Its initial key serial number.
        iksn: Iksn,
    },
    /// A till handed its request to the network.
    Sent {
        /// The till.
        t: u32,
        /// The number of the frame.
        k: u64,
        /// The key serial number of the request.
        ksn: Ksn,
    },
    /// A till handed the reversal of its open purchase to the network.
    Reversing {
        /// The till.
        t: u32,
        /// The number of the frame.
        k: u64,
        /// The key serial number of the reversal.
        ksn: Ksn,
        /// The key serial number of the purchase.
        reversed: Ksn,
    },
    /// The host gave the reply to a request.
    Accepted {
        /// The number of the answer.
        k: u64,
        /// The key serial number of the request.
        ksn: Ksn,
        /// The code of the reply.
        code: Code,
    },
    /// The host gave a reply to a request that it gave before.
    Repeated {
        /// The number of the answer.
        k: u64,
        /// The key serial number of the request.
        ksn: Ksn,
        /// The code of the reply.
        code: Code,
    },
    /// The host refused a request or a reversal.
    Refused {
        /// The number of the answer.
        k: u64,
        /// The key serial number in the refusal.
        ksn: Ksn,
        /// Why, from 1 to 6.
        reason: u8,
    },
    /// The host gave the reply to a reversal.
    Reversed {
        /// The number of the answer.
        k: u64,
        /// The key serial number of the reversal.
        ksn: Ksn,
        /// The key serial number that it reverses.
        reversed: Ksn,
        /// Whether a payment stood and is undone.
        state: ReversalState,
    },
    /// A purchase is complete.
    Done {
        /// The till.
        t: u32,
        /// The key serial number of the purchase.
        ksn: Ksn,
        /// The code of the reply.
        code: Code,
    },
    /// A purchase is undone.
    Undone {
        /// The till.
        t: u32,
        /// The key serial number of the purchase.
        ksn: Ksn,
        /// Whether a payment stood.
        state: ReversalState,
    },
    /// A refusal reached a till, whose purchase stays open.
    GotRefusal {
        /// The till.
        t: u32,
        /// The key serial number of the request or the reversal.
        ksn: Ksn,
        /// Why, from 1 to 6.
        reason: u8,
    },
    /// A till was restarted.
    TillNext {
        /// The till.
        t: u32,
        /// Which number it uses next.
        next: Next,
        /// What its book keeps.
        state: TillState,
    },
    /// The host was restarted, and this many entries are kept.
    HostKeeps(u64),
    /// A store was armed.
    Armed {
        /// Whose store.
        end: End,
        /// How many steps pass.
        n: u32,
    },
    /// A till refused.
    TillFaulted {
        /// The till.
        t: u32,
        /// Why.
        fault: TillFault,
    },
    /// The host refused.
    HostFaulted(HostFault),
    /// Another till owns this initial key serial number.
    IksnElsewhere {
        /// The till that was to be loaded.
        t: u32,
    },
    /// The host's security module has no key set for this initial key serial number.
    NoKeySet {
        /// The till that was to be loaded.
        t: u32,
    },
    /// There is no till of this number.
    NoSuchTill,
    /// No frame of this number was sent.
    NoSuchFrame,
}
