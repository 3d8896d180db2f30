//! A journal of entries in memory.

ghost use Rattle.std.specs.Prelude.{◌≡◌, ◌+◌, ◌≤◌, [], true, length, IfErr, IfOk, OnOk};
ghost use Rattle.duk_store.specs.Listed.{GroupAppendFailed, IsGroupAppended, IsItemRefused, ListRestartFailed, ListRestarted};
ghost use Rattle.duk_store.specs.Visitor.{TakesAll};
ghost use Rattle.duk_store.specs.StoreState.{IsNew, StaysButCalm};
ghost use Rattle.duk_journal.specs.Groups.{IsGroup};
ghost use Rattle.duk_journal.specs.MemoryJournal.{IsMemoryGroupAppended, memory_journal_meaning, memory_journal_state, new_journal, restarted_journal};
ghost use Rattle.duk_journal.specs.inner.MemoryJournal.{IsEntryRefused, IsJournalStopped};

use crate::entry::{Decided, Entry};
use crate::journal::Journal;
use duk_frame::Code;
use duk_store::{StoreFault, Visitor};
use duk_tree::Ksn;
use std::alloc::Global;
use std::marker::Model;

/// A journal in memory. It has no device: once it runs, nothing stops it, and arming it changes
/// nothing. Only `new` takes memory.
#[derive(Drop)]
pub struct MemJournal {
    /// The entries kept, and after them places that are free.
    places: Vec<Entry>,
    len: usize,
    running: bool,
}

impl Model for MemJournal {
    ghost use Rattle.std.specs.Prelude.{◌≤◌, length, take};
    ghost use Rattle.duk_journal.specs.MemoryJournal.{MemoryJournal};

    ghost Value = { MemoryJournal };

    ghost view = { λ journal. record {
      entries = take journal.len journal.places.items;
      capacity = length journal.places.items;
      running = journal.running;
    } };

    ghost invariant = { λ journal. journal.len ≤ length journal.places.items };
}

impl MemJournal {
    /// A journal with no entry kept and room for `capacity`, stopped.
    ///
    /// Refused with `NoMemory` where the memory for all of them is.
    pub fn new(alloc: Global, capacity: usize) -> Result<MemJournal, StoreFault>
        ensures journal { IfOk result (λ journal. journal ≡ new_journal capacity) }
        ensures new { IfOk result (λ journal. IsNew (memory_journal_state journal) []) }
        ensures refused { IfErr result (λ fault. fault ≡ StoreFault.NoMemory) }
    {
        let free = Entry {
            number: Ksn::from_bytes([0; 10]),
            decided: Decided::Payment {
                amount: 0,
                code: Code::Approved,
            },
            mac: [0; 8],
        };
        let places = vec![in alloc; free; capacity]?;
        Ok(MemJournal {
            places,
            len: 0,
            running: false,
        })
    }

    /// Appends a group, where the journal runs.
    fn push(&mut self, group: &[Entry]) -> Result<(), StoreFault>
        requires { self.old.running ≡ true
            → length self.old.entries + length group.now ≤ self.old.capacity }
        ensures done { OnOk result (IsMemoryGroupAppended self.old self.new group.now) }
        ensures refused { IfErr result (λ fault. (fault ≡ StoreFault.Stopped)
            × IsJournalStopped self.old self.new) }
    {
        if !self.running {
            return Err(StoreFault::Stopped);
        }
        let end = self.len + group.len();
        self.places[self.len..end].copy_from_slice(group);
        self.len = end;
        Ok(())
    }
}

impl Journal for MemJournal {
    ghost meaning = { memory_journal_meaning };

    /// It is refused as the visitor refuses, and not otherwise.
    fn restart<V: Visitor<Entry>>(&mut self, visitor: &mut V) -> Result<u64, StoreFault>
        ensures found { IfOk result (ListRestarted memory_journal_meaning V.takes
            self.old self.new visitor.old visitor.new) }
        ensures counted { IfOk result (λ found. length self.new.entries ≡ found) }
        ensures capacity { self.new.capacity ≡ self.old.capacity }
        ensures failed { IfErr result (ListRestartFailed memory_journal_meaning
            V.takes V.refuses self.old self.new visitor.old) }
        ensures disarmed { memory_journal_meaning.disarmed self.new }
        ensures refused { IfErr result (IsItemRefused V.takes V.refuses
            (memory_journal_state self.old) (memory_journal_state self.new) visitor.old) }
        ensures journal { OnOk result (self.new ≡ restarted_journal self.old) }
    {
        self.running = false;
        visit(&self.places[..self.len], visitor)?;
        self.running = true;
        Ok(self.len as u64)
    }

    fn len(&self) -> u64 {
        if self.running { self.len as u64 } else { 0 }
    }

    fn room(&self) -> u64 {
        if self.running {
            (self.places.len() - self.len) as u64
        } else {
            0
        }
    }

    /// Appends a group. It is refused with `Stopped` alone.
    fn append(&mut self, group: &[Entry]) -> Result<(), StoreFault>
        requires group { IsGroup group.now }
        requires room { self.old.running ≡ true
            → length self.old.entries + length group.now ≤ self.old.capacity }
        ensures appended { OnOk result
            (IsGroupAppended memory_journal_meaning self.old self.new group.now) }
        ensures counted { OnOk result
            (length self.new.entries ≡ length self.old.entries + length group.now) }
        ensures capacity { self.new.capacity ≡ self.old.capacity }
        ensures failed { IfErr result
            (GroupAppendFailed memory_journal_meaning self.old self.new group.now) }
        ensures done { OnOk result (IsMemoryGroupAppended self.old self.new group.now) }
        ensures stopped { IfErr result (λ fault. fault ≡ StoreFault.Stopped) }
    {
        self.push(group)
    }

    fn arm(&mut self, _steps: u32)
        ensures stays { StaysButCalm (memory_journal_state self.old)
            (memory_journal_state self.new) }
        ensures counted { length self.new.entries ≡ length self.old.entries }
        ensures capacity { self.new.capacity ≡ self.old.capacity }
        ensures armed { self.new ≡ self.old }
    {}
}

/// Gives entries to a visitor.
fn visit<V: Visitor<Entry>>(entries: &[Entry], visitor: &mut V) -> Result<(), StoreFault>
    ensures taken { OnOk result (TakesAll V.takes entries.now visitor.old visitor.new) }
    ensures refused { IfErr result (IsEntryRefused V.takes V.refuses entries.now visitor.old) }
{
    for entry in entries {
        visitor.take(entry)?;
    }
    Ok(())
}
