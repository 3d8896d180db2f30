//! What may happen to a till or the host.

use duk_term::Purchase;
use duk_tree::Iksn;

/// Where a store may fail.
#[derive(Clone, Copy, Debug, PartialEq, Eq)]
pub enum End {
    /// The host: its journal.
    Host,
    /// The terminal's cell of the till of this number, counted from 1.
    Terminal(u32),
    /// The book of the till of this number, counted from 1.
    Book(u32),
}

/// What may happen. Tills `t` and frames `k` are counted from 1. It has no `Debug`, so that no PIN
/// is printed by chance.
#[derive(Clone, Copy)]
pub enum Event {
    /// A till is loaded with the initial key that the host's security module issues for `iksn`.
    Load {
        /// The till.
        t: u32,
        /// Its initial key serial number.
        iksn: Iksn,
    },
    /// A till begins a purchase.
    Begin {
        /// The till.
        t: u32,
        /// What is paid.
        purchase: Purchase,
    },
    /// A till reverses its open purchase.
    Reverse {
        /// The till.
        t: u32,
    },
    /// A request or a reversal reaches the host.
    Up {
        /// The frame.
        k: u32,
    },
    /// An answer reaches a till.
    Down {
        /// The answer.
        k: u32,
        /// The till.
        t: u32,
    },
    /// A till is restarted.
    RestartTill {
        /// The till.
        t: u32,
    },
    /// The host is restarted.
    RestartHost,
    /// A store is made to let `n` device steps pass and then to fail, until its restart.
    Arm {
        /// Whose store.
        end: End,
        /// How many steps pass.
        n: u32,
    },
}
