//! What a restart makes of the entries that it takes one after the other.
//!
//! It ends with an index. The map of the index is made once all entries are taken: of a large journal
//! nearly every entry would leave it again, and a place in a map costs more than one in a queue.

ghost use Rattle.std.specs.Prelude.{◌≡◌, [], true, IfOk};
ghost use Rattle.std.specs.Bool.{MatchBool};
ghost use Rattle.duk_host.specs.Used.{IsUsed};
ghost use Rattle.duk_journal.specs.Entry.{MayStandUnder};
ghost use Rattle.duk_tree.specs.Path.{IsUsable};
ghost use Rattle.duk_journal_host.specs.inner.Index.{TakesNumbers};
ghost use Rattle.duk_journal_host.specs.inner.Latest.{with_latest};

use crate::index::Index;
use crate::latest::{Kept, fill, make_room, push_last};
use crate::sets::NumberSets;
use duk_journal::Entry;
use indexmap::IndexMap;
use std::alloc::{AllocError, Global};
use std::collections::VecDeque;
use std::marker::Model;

/// The numbers that the entries use, and the entries that can be answered again.
#[derive(Drop)]
pub struct Gathered {
    sets: NumberSets,
    /// The oldest first.
    latest: VecDeque<Entry>,
    /// Empty, with room for them.
    map: IndexMap<u128, Kept>,
}

impl Model for Gathered {
    ghost use Rattle.duk_journal_host.specs.Host.{IndexOf};
    ghost use Rattle.duk_journal_host.specs.inner.Gathered.{IsGathered};

    ghost Value = { IndexOf };

    ghost view = { λ gathered. record {
      used = gathered.sets.used;
      others = gathered.sets.others;
      reversed = gathered.sets.reversed;
      latest = gathered.latest.items;
    } };

    ghost invariant = { λ gathered.
        IsGathered gathered.sets.used gathered.map gathered.latest.items };
}

impl Gathered {
    /// No entry was taken. This takes no memory.
    pub(crate) fn new(alloc: Global) -> Self
        ensures used { result.used ≡ [] }
        ensures others { result.others ≡ [] }
        ensures reversed { result.reversed ≡ [] }
        ensures latest { result.latest ≡ [] }
    {
        Gathered {
            sets: NumberSets::new(alloc),
            latest: VecDeque::new(alloc),
            map: IndexMap::new(alloc),
        }
    }

    /// Takes an entry as the latest, and reports whether its number was not used before. Where it
    /// was, or where memory is refused, these are no longer what is of a list of entries.
    pub(crate) fn take(&mut self, entry: &Entry) -> Result<bool, AllocError>
        requires usable { IsUsable entry.now.number.counter }
        requires stands { MayStandUnder entry.now.number entry.now.decided }
        ensures fresh { IfOk result (λ fresh. MatchBool fresh
            (¬ IsUsed self.old.used entry.now.number) (IsUsed self.old.used entry.now.number)) }
        ensures numbers { IfOk result
            (λ fresh. fresh ≡ true → TakesNumbers self.old self.new entry.now) }
        ensures last { IfOk result (λ fresh. fresh ≡ true
            → self.new.latest ≡ with_latest self.old.latest entry.now) }
    {
        self.map.reserve(self.latest.len() + 1)?;
        make_room(&mut self.latest)?;
        if !self.sets.take(entry)? {
            return Ok(false);
        }
        push_last(&mut self.latest, entry);
        Ok(true)
    }

    /// Their index. This takes no memory.
    pub(crate) fn into_index(self) -> Index
        ensures { result ≡ self }
    {
        let Gathered {
            sets,
            mut latest,
            mut map,
        } = self;
        let oldest = fill(&mut map, latest.make_contiguous());
        Index { sets, map, oldest }
    }
}
