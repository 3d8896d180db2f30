//! Tills, host and the frames between them.
//!
//! An event makes all its room before a store is called, so that it is done wholly or not at all.
//! Only the host takes memory later, for a number that it is to accept and for its index in a
//! restart: where that is refused, the host is left stopped.

mod host_events;
mod till_events;

use crate::sales::Sale;
use duk_frame::Frame;
use duk_host::Issuer;
use duk_journal::Journal;
use duk_journal_host::JournalHost;
use duk_stations::Owner;
use duk_store::Cell;
use duk_tdes::Key;
use duk_till::Till;
use std::alloc::Global;
use std::marker::Model;

/// The ends, what was ever sent between them, the owners of initial key serial numbers, and the
/// merchants' book.
#[derive(Drop)]
pub(crate) struct System<const N: usize, C: Cell, B: Cell, J: Journal, I: Issuer> {
    pub(crate) alloc: Global,
    pub(crate) host: JournalHost<N, J, I>,
    pub(crate) loading: Key<16>,
    pub(crate) tills: Vec<Till<C, B>>,
    pub(crate) requests: Vec<Frame>,
    pub(crate) answers: Vec<Frame>,
    pub(crate) owners: Vec<Owner>,
    pub(crate) sales: Vec<Sale>,
}

impl<const N: usize, C: Cell, B: Cell, J: Journal, I: Issuer> Model for System<N, C, B, J, I> {
    ghost use Rattle.duk_books.specs.Books.{BooksOf};

    ghost Value = { BooksOf C B J I };

    ghost view = { λ system. record {
      host = system.host;
      loading = system.loading;
      tills = system.tills.items;
      requests = system.requests.items;
      answers = system.answers.items;
      owners = system.owners.items;
      sales = system.sales.items;
    } };
}
