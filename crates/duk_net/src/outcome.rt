//! What comes of an event.

use crate::event::End;
use duk_frame::Code;
use duk_host::HostFault;
use duk_term::{Next, TermFault};
use duk_tree::{Iksn, Ksn};

/// What came of an event. Terminals `t` and frames `k` are counted from 1.
#[derive(Clone, Copy, Debug, PartialEq, Eq)]
pub enum Outcome {
    /// A terminal was loaded.
    Loaded {
        /// The terminal.
        t: u32,
        /// Its initial key serial number.
        iksn: Iksn,
    },
    /// A terminal handed its request to the network.
    Sent {
        /// The terminal.
        t: u32,
        /// The number of the request.
        k: u64,
        /// Its key serial number.
        ksn: Ksn,
    },
    /// The host accepted a request.
    Accepted {
        /// The number of the answer.
        k: u64,
        /// The key serial number of the request.
        ksn: Ksn,
        /// The code of the reply.
        code: Code,
    },
    /// The host had accepted the same request before, and gave the same reply again.
    Repeated {
        /// The number of the answer.
        k: u64,
        /// The key serial number of the request.
        ksn: Ksn,
        /// The code of the reply.
        code: Code,
    },
    /// The host refused a request.
    Refused {
        /// The number of the answer.
        k: u64,
        /// The key serial number in the refusal.
        ksn: Ksn,
        /// Why, from 1 to 6.
        reason: u8,
    },
    /// A transaction is complete.
    Done {
        /// The terminal.
        t: u32,
        /// The key serial number of the transaction.
        ksn: Ksn,
        /// The code of the reply.
        code: Code,
    },
    /// A refusal reached a terminal, whose transaction stays pending.
    GotRefusal {
        /// The terminal.
        t: u32,
        /// The key serial number of the transaction.
        ksn: Ksn,
        /// Why, from 1 to 6.
        reason: u8,
    },
    /// A terminal was restarted.
    TermNext {
        /// The terminal.
        t: u32,
        /// Which number it uses next.
        next: Next,
    },
    /// The host was restarted, and this many numbers are used.
    HostUsed(u64),
    /// A store was armed.
    Armed {
        /// Whose store.
        end: End,
        /// How many steps pass.
        n: u32,
    },
    /// A terminal refused.
    TermFaulted {
        /// The terminal.
        t: u32,
        /// Why.
        fault: TermFault,
    },
    /// The host refused.
    HostFaulted(HostFault),
    /// Another terminal owns this initial key serial number.
    IksnElsewhere {
        /// The terminal that was to be loaded.
        t: u32,
    },
    /// The host's security module has no key set for this initial key serial number.
    NoKeySet {
        /// The terminal that was to be loaded.
        t: u32,
    },
    /// There is no terminal of this number.
    NoSuchTerminal,
    /// No frame of this number was sent.
    NoSuchFrame,
}
