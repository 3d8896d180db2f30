//! The trait `Journal`: where a host keeps what it decided.

ghost use Rattle.std.specs.Prelude.{◌≡◌, ◌+◌, ◌≤◌, true, length, IfOk, IfErr, OnOk};
ghost use Rattle.duk_store.specs.Listed.{GroupAppendFailed, IsGroupAppended, ListRestartFailed, ListRestarted, length_of, room_of};
ghost use Rattle.duk_store.specs.StoreState.{StaysButCalm};
ghost use Rattle.duk_journal.specs.Groups.{IsGroup};
ghost use Rattle.duk_journal.specs.Journal.{JournalMeaning};

use crate::entry::Entry;
use duk_store::{StoreFault, Visitor};

/// A list of entries, which outlives a stop. It is made stopped, and `restart` brings it up.
pub trait Journal: Drop {
    /// What the journal means: its state, its count and its capacity, whether it is disarmed, and
    /// how `arm` leaves it.
    ghost meaning: { JournalMeaning Self };

    /// Brings the journal up, gives each entry that it keeps to a visitor, in order, and reports how
    /// many these are. It disarms first.
    ///
    /// Refused with `Device` where a device step failed, with `Damaged` where the medium holds what
    /// no journal of this kind leaves, and as the visitor refuses. The journal is stopped then.
    fn restart<V: Visitor<Entry>>(&mut self, visitor: &mut V) -> Result<u64, StoreFault>
        ensures found { IfOk result
            (ListRestarted meaning V.takes self.old self.new visitor.old visitor.new) }
        ensures counted { IfOk result (λ found. meaning.count self.new ≡ found) }
        ensures capacity { meaning.capacity self.new ≡ meaning.capacity self.old }
        ensures failed { IfErr result
            (ListRestartFailed meaning V.takes V.refuses self.old self.new visitor.old) }
        ensures disarmed { meaning.disarmed self.new };

    /// How many entries the journal keeps; none while it is stopped.
    fn len(&self) -> u64
        ensures { result ≡ length_of meaning self.now };

    /// For how many more it has room; none while it is stopped.
    fn room(&self) -> u64
        ensures { result ≡ room_of meaning self.now };

    /// Appends entries together: one to 4,096, whose numbers are usable, and under which what was
    /// decided may stand. `room` says whether there is place for them.
    ///
    /// Refused with `Stopped` where the journal is stopped, which changes nothing, and with
    /// `Device` where a device step failed, which stops it.
    fn append(&mut self, group: &[Entry]) -> Result<(), StoreFault>
        requires group { IsGroup group.now }
        requires room { (meaning.state_of self.old).running ≡ true
            → meaning.count self.old + length group.now ≤ meaning.capacity self.old }
        ensures appended { OnOk result (IsGroupAppended meaning self.old self.new group.now) }
        ensures counted { OnOk result
            (meaning.count self.new ≡ meaning.count self.old + length group.now) }
        ensures capacity { meaning.capacity self.new ≡ meaning.capacity self.old }
        ensures failed { IfErr result (GroupAppendFailed meaning self.old self.new group.now) };

    /// Lets the next `steps` device steps pass and each later one fail, until a restart.
    fn arm(&mut self, steps: u32)
        ensures stays { StaysButCalm (meaning.state_of self.old) (meaning.state_of self.new) }
        ensures counted { meaning.count self.new ≡ meaning.count self.old }
        ensures capacity { meaning.capacity self.new ≡ meaning.capacity self.old }
        ensures armed { meaning.arms self.old steps self.new };
}
