//! What may happen to a terminal or the host, and what comes of it.

use duk_term::Purchase;
use duk_tree::Iksn;

/// One end of the network.
#[derive(Clone, Copy, Debug, PartialEq, Eq)]
pub enum End {
    /// The host.
    Host,
    /// The terminal of this number, counted from 1.
    Term(u32),
}

/// What may happen. Terminals `t` and frames `k` are counted from 1. It has no `Debug`, so that no
/// PIN is printed by chance.
#[derive(Clone, Copy)]
pub enum Event {
    /// A terminal is loaded with the initial key that the host's security module issues for `iksn`.
    Load {
        /// The terminal.
        t: u32,
        /// Its initial key serial number.
        iksn: Iksn,
    },
    /// A terminal begins a transaction.
    Begin {
        /// The terminal.
        t: u32,
        /// What is paid.
        purchase: Purchase,
    },
    /// A request reaches the host.
    Up {
        /// The request.
        k: u32,
    },
    /// An answer reaches a terminal.
    Down {
        /// The answer.
        k: u32,
        /// The terminal.
        t: u32,
    },
    /// A terminal is restarted.
    RestartTerm {
        /// The terminal.
        t: u32,
    },
    /// The host is restarted.
    RestartHost,
    /// The store of an end is made to let `n` device steps pass and then to fail, until its
    /// restart.
    Arm {
        /// The end.
        end: End,
        /// How many steps pass.
        n: u32,
    },
}
