//! What a host over a journal has in memory of its entries.

ghost use Rattle.std.specs.Prelude.{◌≡◌, ◌↔◌, true, Contains, IfOk, IfSome, IsTrue, Some};
ghost use Rattle.std.specs.Bool.{MatchBool};
ghost use Rattle.duk_host.specs.Used.{IsUsed};
ghost use Rattle.duk_journal.specs.Entry.{MayStandUnder};
ghost use Rattle.duk_journal.specs.declared.entry.Decided.{Decided};
ghost use Rattle.duk_tree.specs.Path.{IsUsable};
ghost use Rattle.duk_journal_host.specs.Host.{IsApproved};
ghost use Rattle.duk_journal_host.specs.inner.Index.{IsListed, TakesNumbers};
ghost use Rattle.duk_journal_host.specs.inner.Latest.{entry_under, with_latest};

use crate::latest::{Kept, decided, push};
use crate::sets::NumberSets;
use duk_host::UsedNumbers;
use duk_journal::{Decided, Entry};
use duk_tree::Ksn;
use indexmap::IndexMap;
use std::alloc::AllocError;
use std::marker::Model;

/// The numbers that the entries use, and the entries that can be answered again.
#[derive(Drop)]
pub struct Index {
    pub(crate) sets: NumberSets,
    pub(crate) map: IndexMap<u128, Kept>,
    pub(crate) oldest: usize,
}

impl Model for Index {
    ghost use Rattle.duk_journal_host.specs.Host.{IndexOf};
    ghost use Rattle.duk_journal_host.specs.inner.Index.{IsIndexed};
    ghost use Rattle.duk_journal_host.specs.inner.Latest.{entries_in};

    ghost Value = { IndexOf };

    ghost view = { λ index. record {
      used = index.sets.used;
      others = index.sets.others;
      reversed = index.sets.reversed;
      latest = entries_in index.oldest index.map.entries;
    } };

    ghost invariant = { λ index. IsIndexed index.sets.used index.map index.oldest };
}

impl Index {
    /// The used numbers.
    pub(crate) fn used(&self) -> &UsedNumbers
        ensures used { result.now ≡ self.now.used }
        ensures listed { IsListed self.now.used }
    {
        &self.sets.used
    }

    /// Whether an approved payment of this number is kept.
    pub(crate) fn has_approved(&self, ksn: Ksn) -> bool
        ensures { IsTrue result ↔ IsApproved self.now.used self.now.others ksn }
    {
        self.sets.used.contains(ksn) && !self.sets.others.contains(ksn)
    }

    /// Whether this number was reversed.
    pub(crate) fn is_reversed(&self, ksn: Ksn) -> bool
        ensures { IsTrue result ↔ IsUsed self.now.reversed ksn }
    {
        self.sets.reversed.contains(ksn)
    }

    /// What was decided of the request with this number and this MAC, if it can be answered again.
    pub(crate) fn decided(&self, ksn: Ksn, mac: [u8; 8]) -> Option<Decided>
        ensures found { IfSome result
            (λ decided. Contains self.now.latest (entry_under ksn mac decided)) }
        ensures every { (decided : Decided) → Contains self.now.latest (entry_under ksn mac decided)
            → result ≡ Some decided }
    {
        decided(&self.map, self.oldest, ksn, mac)
    }

    /// Takes an entry as the latest, and reports whether its number was not used before. Where it
    /// was, or where memory is refused, the index is no longer that of a list of entries.
    pub(crate) fn take(&mut self, entry: &Entry) -> Result<bool, AllocError>
        requires usable { IsUsable entry.now.number.counter }
        requires stands { MayStandUnder entry.now.number entry.now.decided }
        ensures fresh { IfOk result (λ fresh. MatchBool fresh
            (¬ IsUsed self.old.used entry.now.number) (IsUsed self.old.used entry.now.number)) }
        ensures numbers { IfOk result
            (λ fresh. fresh ≡ true → TakesNumbers self.old self.new entry.now) }
        ensures last { IfOk result (λ fresh. fresh ≡ true
            → self.new.latest ≡ with_latest self.old.latest entry.now) }
    {
        self.map.reserve(1)?;
        if !self.sets.take(entry)? {
            return Ok(false);
        }
        self.oldest = push(&mut self.map, self.oldest, entry);
        Ok(true)
    }
}
