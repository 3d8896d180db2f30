//! The end of an open file, to which bytes are appended.

ghost use Rattle.std.specs.Prelude.{◌≡◌, ◌++◌, OnErr, OnOk};
ghost use Rattle.duk_service.specs.FileEnd.{EndState, HasSomeOf, IsEndSynced, LeavesFewer, LeavesLonger, PreservesEnd};

use duk_store::StoreFault;
use std::fs::File;
use std::os::unix::fs::FileExt;

/// The end of an open file, to which bytes are appended. A stop leaves as many of them as it leaves,
/// from the first on, until a sync has succeeded.
///
/// Nothing is asked of it once a call of it has failed.
pub trait FileEnd: Drop {
    /// What the file is known to be.
    ghost state: { Self → EndState };

    /// Writes bytes behind all bytes of the file.
    ///
    /// Refused with `Device` where the device step failed; a part of them may be written then.
    fn append(&mut self, bytes: &[u8]) -> Result<(), StoreFault>
        ensures nature { PreservesEnd (state self.old) (state self.new) }
        ensures longer { LeavesLonger (HasSomeOf bytes.now) (state self.old) (state self.new) }
        ensures appended { OnOk result ((state self.old).honest
            → (state self.new).reads ≡ (state self.old).reads ++ bytes.now) }
        ensures failed { OnErr result (¬ (state self.old).calm) };

    /// Makes sure of all that was written: where this succeeds, a stop leaves what a read gives.
    ///
    /// Refused with `Device` where the device step failed.
    fn sync(&mut self) -> Result<(), StoreFault>
        ensures nature { PreservesEnd (state self.old) (state self.new) }
        ensures fewer { LeavesFewer (state self.old) (state self.new) }
        ensures synced { OnOk result ((state self.old).honest
            → IsEndSynced (state self.old) (state self.new)) }
        ensures failed { OnErr result (¬ (state self.old).calm) };
}

/// The end of a real file, which is open and locked. No contract says what a real file holds, so its
/// two bodies rest on being read: each makes one call on the open file. That of a write loops until
/// all bytes are written.
#[derive(Drop)]
pub struct RealEnd {
    pub(crate) file: File,
    /// Where the next byte is written.
    pub(crate) size: u64,
}

impl FileEnd for RealEnd {
    ghost use Rattle.duk_service.specs.FileEnd.{unknown_end};

    ghost state = { λ _. unknown_end };

    fn append(&mut self, bytes: &[u8]) -> Result<(), StoreFault> {
        match self.file.write_all_at(bytes, self.size) {
            Ok(()) => {
                self.size = self.size.wrapping_add(bytes.len() as u64);
                Ok(())
            }
            Err(_) => Err(StoreFault::Device),
        }
    }

    fn sync(&mut self) -> Result<(), StoreFault> {
        match self.file.sync_data() {
            Ok(()) => Ok(()),
            Err(_) => Err(StoreFault::Device),
        }
    }
}
