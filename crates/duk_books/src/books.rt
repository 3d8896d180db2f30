//! Tills, one host, and the merchants' book.

ghost use Rattle.std.specs.Prelude.{◌≡◌, All};
ghost use Rattle.duk_books.specs.AcceptedOnce.{HaveOneReply, KeepsAccepted};
ghost use Rattle.duk_books.specs.Agree.{BooksAgree};
ghost use Rattle.duk_books.specs.Books.{meanings_of};
ghost use Rattle.duk_books.specs.Completed.{KnowFromHost};
ghost use Rattle.duk_books.specs.First.{IsNewHost, IsNewTill, first_books};
ghost use Rattle.duk_books.specs.Images.{FindLast, FindVersion2};
ghost use Rattle.duk_books.specs.NoUsedKey.{InEachTill, NoUsedKey, OwnsAboveUsed};
ghost use Rattle.duk_books.specs.Numbers.{AreUsedOwned, UsedOnce};
ghost use Rattle.duk_books.specs.OwnKeyOfReplies.{IsOwnKeyReply};
ghost use Rattle.duk_books.specs.OwnKeyOfRequests.{IsOwnKeySent};

use crate::laws;
use crate::sales::Sale;
use crate::system::System;
use duk_frame::Frame;
use duk_host::Issuer;
use duk_journal::Journal;
use duk_journal_host::JournalHost;
use duk_stations::Owner;
use duk_store::Cell;
use duk_tdes::Key;
use duk_till::Till;
use std::alloc::Global;
use std::marker::Model;

/// Tills and one host over a journal, a network between them that keeps every frame which was ever
/// sent, and the merchants' book, which has what the tills have as approved. Any frame may be
/// delivered at any time, again, late or never.
#[derive(Drop)]
pub struct Books<const N: usize, C: Cell, B: Cell, J: Journal, I: Issuer> {
    pub(crate) system: System<N, C, B, J, I>,
}

impl<const N: usize, C: Cell, B: Cell, J: Journal, I: Issuer> Model for Books<N, C, B, J, I> {
    ghost use Rattle.duk_books.specs.Books.{BooksOf, meanings_of};
    ghost use Rattle.duk_books.specs.Reached.{Reached};

    ghost Value = { BooksOf C B J I };

    ghost view = { λ books. books.system };

    ghost invariant = { λ books.
        Reached (meanings_of C.meaning B.meaning J.meaning I.decides) books.system };
}

impl<const N: usize, C: Cell, B: Cell, J: Journal, I: Issuer> Books<N, C, B, J, I> {
    /// This host and these tills, all of them newly made over stores in which nothing was ever
    /// kept. `loading` is the key under which the host's security module issues initial keys to
    /// tills. This takes no memory.
    pub fn new(
        alloc: Global,
        host: JournalHost<N, J, I>,
        loading: Key<16>,
        tills: Vec<Till<C, B>>,
    ) -> Self
        requires host { IsNewHost (meanings_of C.meaning B.meaning J.meaning I.decides) host }
        requires tills { All (IsNewTill (meanings_of C.meaning B.meaning J.meaning I.decides))
            tills.items }
        ensures first { result ≡ first_books host loading tills.items }
        ensures agree { BooksAgree
            (meanings_of C.meaning B.meaning J.meaning I.decides) result }
        ensures used_once { UsedOnce result.requests }
        ensures used_are_owned { AreUsedOwned result.requests result.owners }
        ensures own_key_of_requests { All (IsOwnKeySent result.host.keys) result.requests }
        ensures above_used { InEachTill (meanings_of C.meaning B.meaning J.meaning I.decides)
            (OwnsAboveUsed result.host.keys result.requests result.owners) result.tills }
        ensures no_used_key { InEachTill (meanings_of C.meaning B.meaning J.meaning I.decides)
            (λ t. NoUsedKey result.host.keys result.requests) result.tills }
        ensures version_2 { FindVersion2
            (meanings_of C.meaning B.meaning J.meaning I.decides) result.tills }
        ensures books_have_no_key { FindLast
            (meanings_of C.meaning B.meaning J.meaning I.decides) result.tills }
        ensures one_reply { HaveOneReply result.answers }
        ensures accepted_is_kept { KeepsAccepted
            (meanings_of C.meaning B.meaning J.meaning I.decides) result }
        ensures own_key_of_replies { All (IsOwnKeyReply result.host.keys) result.answers }
        ensures known_from_host { KnowFromHost
            (meanings_of C.meaning B.meaning J.meaning I.decides) result }
    {
        laws::agreement::<C, B, J, I>();
        laws::numbers::<C, B, J, I>();
        laws::no_used_key::<C, B, J, I>();
        laws::own_key_of_requests::<C, B, J, I>();
        laws::accepted_once::<C, B, J, I>();
        laws::own_key_of_replies::<C, B, J, I>();
        laws::completed_by_host::<C, B, J, I>();
        Books {
            system: System {
                alloc,
                host,
                loading,
                tills,
                requests: Vec::new(alloc),
                answers: Vec::new(alloc),
                owners: Vec::new(alloc),
                sales: Vec::new(alloc),
            },
        }
    }

    /// The frames of all requests and reversals that were ever sent, in order.
    pub fn requests(&self) -> &[Frame]
        ensures { result.now ≡ self.now.requests }
    {
        self.system.requests.as_slice()
    }

    /// The frames of all answers that were ever sent, in order.
    pub fn answers(&self) -> &[Frame]
        ensures { result.now ≡ self.now.answers }
    {
        self.system.answers.as_slice()
    }

    /// Which till owns which initial key serial number: the one that was loaded with it, or whose
    /// terminal's cell failed in that load, whatever was restarted since.
    pub fn owners(&self) -> &[Owner]
        ensures { result.now ≡ self.now.owners }
    {
        self.system.owners.as_slice()
    }

    /// The merchants' book: each payment that a till has had as approved, in the order in which
    /// they were told.
    pub fn sales(&self) -> &[Sale]
        ensures { result.now ≡ self.now.sales }
    {
        self.system.sales.as_slice()
    }

    /// The tills, in the order of their numbers.
    pub fn tills(&self) -> &[Till<C, B>]
        ensures { result.now ≡ self.now.tills }
    {
        self.system.tills.as_slice()
    }

    /// The host.
    pub fn host(&self) -> &JournalHost<N, J, I>
        ensures { result.now ≡ self.now.host }
    {
        &self.system.host
    }
}
