//! A host over its journal.

ghost use Rattle.std.specs.Prelude.{◌≡◌, ◌≤◌, None, Some, IfErr, IfOk, IsSome, OnOk, length, map};
ghost use Rattle.duk_journal.specs.Groups.{Entries};
ghost use Rattle.duk_store.specs.StoreState.{StaysButCalm};
ghost use Rattle.duk_journal_host.specs.Group.{AnswersFrames, GroupRefused, most_frames};
ghost use Rattle.duk_journal_host.specs.Host.{IndexOf, JudgesBy, host_meaning_of};
ghost use Rattle.duk_journal_host.specs.Restart.{HostRestartRefused, IsHostRestarted, PreservesEnds};
ghost use Rattle.duk_journal_host.specs.inner.Keep.{AreKept, KeepFailed, MayBeKept};

use crate::gathered::Gathered;
use crate::group::Group;
use crate::index::Index;
use crate::judge::judge_frames;
use crate::reading::fault_of;
use duk_frame::Frame;
use duk_host::{HostFault, Issuer};
use duk_hsm::Hsm;
use duk_journal::{Entry, Journal};
use duk_store::StoreFault;
use std::alloc::Global;
use std::marker::Model;

/// A host: a security module, the issuer of the cards, and the journal of what was decided. It is
/// made stopped. While it runs, the used numbers and the entries that can be answered again are in
/// memory.
#[derive(Drop)]
pub struct JournalHost<const N: usize, J: Journal, I: Issuer> {
    alloc: Global,
    hsm: Hsm<N>,
    issuer: I,
    journal: J,
    state: Option<Index>,
}

impl<const N: usize, J: Journal, I: Issuer> Model for JournalHost<N, J, I> {
    ghost use Rattle.duk_journal_host.specs.Host.{HostOf};
    ghost use Rattle.duk_journal_host.specs.View.{host_view};
    ghost use Rattle.duk_journal_host.specs.inner.Host.{AgreesWithJournal};

    ghost Value = { HostOf J I };

    ghost view = { host_view };

    ghost invariant = { λ host. AgreesWithJournal J.meaning host.hsm host.journal host.state };
}

impl<const N: usize, J: Journal, I: Issuer> JournalHost<N, J, I> {
    /// A stopped host. Its security module holds a zone key, as `has_zone` reports. This takes no
    /// memory.
    pub fn new(alloc: Global, hsm: Hsm<N>, issuer: I, journal: J) -> Self
        requires zone { IsSome hsm.zone }
        ensures { result ≡ record { keys = hsm.entry; issuer = issuer; journal = journal; state = None } }
    {
        JournalHost {
            alloc,
            hsm,
            issuer,
            journal,
            state: None,
        }
    }

    /// Brings journal and host up, takes each entry that the journal keeps, and gives how many there
    /// are.
    ///
    /// Refused with `Store`: of the journal's fault, or with `Damaged` where the number of an entry
    /// numbers no transaction, was used before or cannot have what was decided; and with `NoMemory`.
    /// The host is stopped after either.
    pub fn restart(&mut self) -> Result<u64, HostFault>
        ensures restarted { IfOk result
            (IsHostRestarted (host_meaning_of J.meaning I.decides) self.old self.new) }
        ensures refused { IfErr result (HostRestartRefused J.meaning self.old self.new) }
        ensures disarmed { J.meaning.disarmed self.new.journal }
        ensures capacity { J.meaning.capacity self.new.journal
            ≡ J.meaning.capacity self.old.journal }
    {
        self.state = None;
        let mut gathered = Gathered::new(self.alloc);
        match self.journal.restart(&mut gathered) {
            Ok(kept) => {
                self.state = Some(gathered.into_index());
                Ok(kept)
            }
            Err(fault) => Err(fault_of(fault)),
        }
    }

    /// Judges the frames of a group in turn, each with the entries that the earlier ones leave,
    /// appends the entries that they add to the journal, and puts the answers into `group`.
    ///
    /// Refused with `Stopped`; with `NoMemory` at the first frame to be accepted for which memory is
    /// refused, where the frames before it are answered; and with `Store`, where the entries are
    /// not kept, and there are no answers. The host is stopped after each.
    #[inline(never)]
    pub fn answer(&mut self, frames: &[Frame], group: &mut Group) -> Result<(), HostFault>
        requires few { length frames.now ≤ most_frames }
        ensures answered { OnOk result (AnswersFrames (host_meaning_of J.meaning I.decides)
            (map (λ frame. frame.items) frames.now) self.old self.new group.new.answers) }
        ensures refused { IfErr result (GroupRefused (host_meaning_of J.meaning I.decides)
            (map (λ frame. frame.items) frames.now) self.old self.new group.new.answers) }
    {
        group.clear();
        let Some(index) = &mut self.state else {
            return Err(HostFault::Stopped);
        };
        let kept = self.journal.len();
        let room = self.journal.room();
        let judged = judge_frames(&self.hsm, &self.issuer, index, kept, room, frames, group);
        match keep(&mut self.journal, group.entries()) {
            Ok(()) => {}
            Err(fault) => {
                self.state = None;
                group.clear();
                return Err(HostFault::Store(fault));
            }
        }
        match judged {
            Ok(()) => Ok(()),
            Err(_refused) => {
                self.state = None;
                Err(HostFault::NoMemory)
            }
        }
    }

    /// A host that runs judges by entries, which its journal keeps alone. This says so, and does
    /// nothing.
    pub fn judges(&self)
        ensures { (index : IndexOf) → self.now.state ≡ Some index → (entries : Entries)
            × JudgesBy (host_meaning_of J.meaning I.decides) self.now entries }
    {
        let _state = &self.state;
    }

    /// The security module.
    pub fn hsm(&self) -> &Hsm<N>
        ensures { result.now ≡ self.now.keys }
    {
        &self.hsm
    }

    /// Lets the next `steps` device steps of the journal pass and each later one fail, until a
    /// restart.
    pub fn arm(&mut self, steps: u32)
        ensures armed { J.meaning.arms self.old.journal steps self.new.journal }
        ensures stays { StaysButCalm
            (J.meaning.state_of self.old.journal) (J.meaning.state_of self.new.journal) }
        ensures capacity { J.meaning.capacity self.new.journal
            ≡ J.meaning.capacity self.old.journal }
        ensures ends { PreservesEnds self.old self.new }
        ensures state { self.new.state ≡ self.old.state }
    {
        self.journal.arm(steps);
    }
}

/// Appends the entries of a group, if there are any.
fn keep<J: Journal>(journal: &mut J, entries: &[Entry]) -> Result<(), StoreFault>
    requires kept { MayBeKept J.meaning journal.old entries.now }
    ensures kept { OnOk result (AreKept J.meaning journal.old journal.new entries.now) }
    ensures capacity { J.meaning.capacity journal.new ≡ J.meaning.capacity journal.old }
    ensures failed { IfErr result (KeepFailed J.meaning journal.old journal.new entries.now) }
{
    if entries.is_empty() {
        return Ok(());
    }
    journal.append(entries)
}
