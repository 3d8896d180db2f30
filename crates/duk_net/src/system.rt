//! Terminals, host and the frames between them.
//!
//! An event makes all its room before a store is called, so that it is done wholly or not at all.
//! Only the host's restart grows its index while the log is read: where that is refused memory, the
//! host is left stopped.

mod host_events;
mod terminal_events;

use duk_frame::Frame;
use duk_host::{Host, Issuer};
use duk_stations::Owner;
use duk_store::{Cell, UsedLog};
use duk_tdes::Key;
use duk_term::Terminal;
use std::marker::Model;

/// The ends, what was ever sent between them, and the owners of initial key serial numbers.
#[derive(Drop)]
pub(crate) struct System<const N: usize, C: Cell, L: UsedLog, I: Issuer> {
    pub(crate) host: Host<N, L, I>,
    pub(crate) loading: Key<16>,
    pub(crate) terminals: Vec<Terminal<C>>,
    pub(crate) requests: Vec<Frame>,
    pub(crate) answers: Vec<Frame>,
    pub(crate) owners: Vec<Owner>,
}

impl<const N: usize, C: Cell, L: UsedLog, I: Issuer> Model for System<N, C, L, I> {
    ghost use Rattle.duk_net.specs.World.{WorldOf};

    ghost Value = { WorldOf C L I };

    ghost view = { λ system. record {
      host = system.host;
      loading = system.loading;
      terminals = system.terminals.items;
      requests = system.requests.items;
      answers = system.answers.items;
      owners = system.owners.items;
    } };
}
