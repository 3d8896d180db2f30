//! The trait `UsedLog`: where a host keeps the used numbers.

ghost use Rattle.std.specs.Prelude.{◌≡◌, ◌+◌, ◌<◌, ℕ, true, IfOk, IfErr};
ghost use Rattle.duk_tree.specs.Serial.{Serial};
ghost use Rattle.duk_store.specs.StoreState.{StaysButCalm};
ghost use Rattle.duk_store.specs.Restart.{RestartFailed};
ghost use Rattle.duk_store.specs.Log.{LogMeaning, LogRestarted, IsAppended, AppendFailed, IsReadAt, ReadFailed, length_of, room_of};

use crate::fault::StoreFault;
use duk_tree::Ksn;

/// A list of used numbers, which outlives a stop. It is made stopped, and `restart` brings it up.
pub trait UsedLog: Drop {
    /// What the log means: its state, its count and its capacity, whether it is disarmed, and how
    /// `arm` leaves it.
    ghost meaning: { LogMeaning Self };

    /// Brings the log up and reports how many numbers it keeps. It disarms first.
    ///
    /// Refused with `Device` where a device step failed, and with `Damaged` where the medium holds
    /// what no log of this kind leaves. The log is stopped then.
    fn restart(&mut self) -> Result<u64, StoreFault>
        ensures found { IfOk result (LogRestarted meaning self.old self.new) }
        ensures counted { IfOk result (λ found. meaning.count self.new ≡ found) }
        ensures capacity { meaning.capacity self.new ≡ meaning.capacity self.old }
        ensures failed { IfErr result
            (RestartFailed (meaning.state_of self.old) (meaning.state_of self.new)) }
        ensures disarmed { meaning.disarmed self.new };

    /// How many numbers the log keeps; none while it is stopped.
    fn len(&self) -> u64
        ensures { result ≡ length_of meaning self.now };

    /// For how many more it has room; none while it is stopped.
    fn room(&self) -> u64
        ensures { result ≡ room_of meaning self.now };

    /// The number at a place of the list, counted from 0. `len` is how many there are.
    ///
    /// Refused with `Stopped` where the log is stopped, which changes nothing, and with `Device`
    /// where a device step failed, which stops it.
    fn at(&mut self, place: u64) -> Result<Ksn, StoreFault>
        requires { (meaning.state_of self.old).running ≡ true → place < meaning.count self.old }
        ensures read { IfOk result (IsReadAt meaning self.old self.new place) }
        ensures counted { IfOk result (λ _. meaning.count self.new ≡ meaning.count self.old) }
        ensures capacity { meaning.capacity self.new ≡ meaning.capacity self.old }
        ensures disarmed { meaning.disarmed self.old → meaning.disarmed self.new }
        ensures failed { IfErr result (ReadFailed meaning self.old self.new) };

    /// Appends a number. `room` says whether there is place for it.
    ///
    /// Refused with `Stopped` where the log is stopped, which changes nothing, and with `Device`
    /// where a device step failed, which stops it.
    fn append(&mut self, number: Ksn) -> Result<(), StoreFault>
        requires { (meaning.state_of self.old).running ≡ true
            → meaning.count self.old < meaning.capacity self.old }
        ensures appended { IfOk result (λ _. IsAppended meaning self.old self.new number) }
        ensures counted { IfOk result (λ _. meaning.count self.new ≡ meaning.count self.old + 1) }
        ensures capacity { meaning.capacity self.new ≡ meaning.capacity self.old }
        ensures failed { IfErr result (AppendFailed meaning self.old self.new number) };

    /// Lets the next `steps` device steps pass and each later one fail, until a restart.
    fn arm(&mut self, steps: u32)
        ensures stays { StaysButCalm (meaning.state_of self.old) (meaning.state_of self.new) }
        ensures counted { meaning.count self.new ≡ meaning.count self.old }
        ensures capacity { meaning.capacity self.new ≡ meaning.capacity self.old }
        ensures armed { meaning.arms self.old steps self.new };
}
