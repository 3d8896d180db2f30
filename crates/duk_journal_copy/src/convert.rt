//! Records that say in version 2 what they said in either.

ghost use Rattle.std.specs.Prelude.{◌≡◌, ◌+◌, ◌*◌, ◌<◌, ◌≤◌, ◌^◌, ℕ, length, OnErr, OnOk};
ghost use Rattle.duk_journal.specs.declared.entry.Entry.{Entry as EntryValue};
ghost use Rattle.duk_store.specs.Records.{HasContents};
ghost use Rattle.duk_journal_copy.specs.Version.{format_of};
ghost use Rattle.duk_journal_copy.specs.inner.Convert.{AreConverted, AreNotAllRecords, IsConverted, spot_behind};

use crate::version::Version;
use duk_journal::{CheckedFormat, OPEN, RECORD_LENGTH};
use duk_store::Format;

/// Where a record stands: on the disk of an identity, at a place counted in records.
#[derive(Clone, Copy)]
pub(crate) struct Spot {
    pub(crate) identity: u64,
    pub(crate) place: u64,
}

/// A record says nothing in the format of the journal that is copied.
#[derive(Clone, Copy, Debug)]
pub(crate) struct NoContents;

/// Makes so many records, which stand from a place on, say the same in version 2, from another place
/// on.
pub(crate) fn convert_records(
    version: Version,
    from: Spot,
    to: Spot,
    count: usize,
    records: &mut [u8],
) -> Result<(), NoContents>
    requires whole { length records.old ≡ 32 * count }
    requires most { count ≤ 2048 }
    requires from { from.place + count < 2 ^ 63 }
    requires to { to.place + count < 2 ^ 63 }
    ensures converted { OnOk result (AreConverted version from to count records.old records.new) }
    ensures not_all { OnErr result (AreNotAllRecords version from count records.old) }
    ensures length { length records.new ≡ length records.old }
{
    for index in 0..count {
        let start = RECORD_LENGTH * index;
        let record = &mut records[start..start + RECORD_LENGTH];
        convert(version, behind(from, index), behind(to, index), record)?;
    }
    Ok(())
}

/// The spot so many records behind another.
fn behind(spot: Spot, count: usize) -> Spot
    requires { spot.place + count < 2 ^ 63 }
    ensures { result ≡ spot_behind spot count }
{
    Spot {
        identity: spot.identity,
        place: spot.place + count as u64,
    }
}

/// Makes a record at a spot say the same in version 2 at another. Its gate is open where it was.
fn convert(version: Version, from: Spot, to: Spot, record: &mut [u8]) -> Result<(), NoContents>
    requires whole { length record.old ≡ 32 }
    ensures converted { OnOk result (IsConverted version from to record.old record.new) }
    ensures none { OnErr result ((followers : ℕ) (entry : EntryValue)
        → ¬ HasContents (format_of version) from.identity from.place followers entry record.old) }
    ensures length { length record.new ≡ length record.old }
{
    let Some((followers, entry)) = version.read(from.identity, from.place, &record[1..]) else {
        return Err(NoContents);
    };
    record[0] = if record[0] == OPEN { OPEN } else { 0 };
    CheckedFormat {}.write(to.identity, to.place, followers, &entry, &mut record[1..]);
    Ok(())
}
