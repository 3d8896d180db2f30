//! Records, read one after the other.

ghost use Rattle.std.specs.Prelude.{◌≡◌, ◌+◌, ◌*◌, ◌<◌, ◌≤◌, ◌^◌, ℕ, List, length, IfErr, IfOk};
ghost use Rattle.duk_store.specs.Format.{IsFormat};
ghost use Rattle.duk_store.specs.Records.{AreListed, HasContents};
ghost use Rattle.duk_store.specs.inner.Reading.{HasNoContents, HasRead, IsPieceAt, IsRecordAt, IsUnreadable, ListsNone, ReadsOn, kept_in};
ghost use Rattle.duk_store.specs.declared.reading.Reading.TheVariants.{Behind, Groups};

use crate::fault::StoreFault;
use crate::format::{Format, OPEN};
use crate::visitor::Visitor;

/// How far records were read.
#[derive(Clone, Copy)]
pub enum Reading {
    /// Among the groups.
    Groups {
        /// How many items were read.
        kept: u64,
        /// How many of the present group follow.
        left: u16,
    },
    /// Behind them.
    Behind {
        /// How many items are kept.
        kept: u64,
    },
}

/// Reads so many records, which are the piece, of the disk of an identity, and gives their items to a
/// visitor.
///
/// Refused with `Damaged` where no list of items goes on so, and as the visitor refuses.
pub fn read_piece<F: Format, V: Visitor<F::Item>>(
    format: &F,
    identity: u64,
    reading: Reading,
    count: usize,
    piece: &[u8],
    visitor: &mut V,
) -> Result<Reading, StoreFault>
    requires format { IsFormat (F.meaning format.now) }
    requires whole { length piece.now ≡ (F.meaning format.now).record_length * count }
    requires fits { kept_in reading + count < 2 ^ 63 }
    ensures read { IfOk result (ReadsOn (F.meaning format.now) V.takes reading count
        (IsPieceAt (F.meaning format.now) identity piece.now) visitor.old visitor.new) }
    ensures refused { IfErr result (IsUnreadable (F.meaning format.now) V.takes V.refuses reading
        (IsPieceAt (F.meaning format.now) identity piece.now) visitor.old) }
{
    let long = format.record_length();
    let mut reading = reading;
    for index in 0..count {
        let at = long * index;
        reading = read_next(format, identity, reading, &piece[at..at + long], visitor)?;
    }
    Ok(reading)
}

/// Reads one more record.
fn read_next<F: Format, V: Visitor<F::Item>>(
    format: &F,
    identity: u64,
    reading: Reading,
    bytes: &[u8],
    visitor: &mut V,
) -> Result<Reading, StoreFault>
    requires format { IsFormat (F.meaning format.now) }
    requires whole { length bytes.now ≡ (F.meaning format.now).record_length }
    requires fits { kept_in reading + 1 < 2 ^ 63 }
    ensures read { IfOk result (ReadsOn (F.meaning format.now) V.takes reading 1
        (IsRecordAt (F.meaning format.now) identity bytes.now) visitor.old visitor.new) }
    ensures refused { IfErr result (IsUnreadable (F.meaning format.now) V.takes V.refuses reading
        (IsRecordAt (F.meaning format.now) identity bytes.now) visitor.old) }
{
    match reading {
        Reading::Behind { kept } => read_behind(format, identity, kept, bytes, visitor),
        Reading::Groups { kept, left } => {
            if left == 0 {
                read_first(format, identity, kept, bytes, visitor)
            } else {
                read_follower(format, identity, kept, left, bytes, visitor)
            }
        }
    }
}

/// Reads a record behind the groups, which is closed.
fn read_behind<F: Format, V: Visitor<F::Item>>(
    format: &F,
    identity: u64,
    kept: u64,
    bytes: &[u8],
    visitor: &mut V,
) -> Result<Reading, StoreFault>
    requires format { IsFormat (F.meaning format.now) }
    requires whole { length bytes.now ≡ (F.meaning format.now).record_length }
    ensures read { IfOk result (ReadsOn (F.meaning format.now) V.takes (Behind kept) 1
        (IsRecordAt (F.meaning format.now) identity bytes.now) visitor.old visitor.new) }
    ensures refused { IfErr result (IsUnreadable (F.meaning format.now) V.takes V.refuses
        (Behind kept) (IsRecordAt (F.meaning format.now) identity bytes.now) visitor.old) }
{
    if bytes[0] == OPEN {
        Err(StoreFault::Damaged)
    } else {
        Ok(Reading::Behind { kept })
    }
}

/// Reads a record in a group's place: the first of a group, or the first behind all.
fn read_first<F: Format, V: Visitor<F::Item>>(
    format: &F,
    identity: u64,
    kept: u64,
    bytes: &[u8],
    visitor: &mut V,
) -> Result<Reading, StoreFault>
    requires format { IsFormat (F.meaning format.now) }
    requires whole { length bytes.now ≡ (F.meaning format.now).record_length }
    requires fits { kept + 1 < 2 ^ 63 }
    ensures read { IfOk result (ReadsOn (F.meaning format.now) V.takes (Groups kept 0) 1
        (IsRecordAt (F.meaning format.now) identity bytes.now) visitor.old visitor.new) }
    ensures refused { IfErr result (IsUnreadable (F.meaning format.now) V.takes V.refuses
        (Groups kept 0) (IsRecordAt (F.meaning format.now) identity bytes.now) visitor.old) }
{
    if bytes[0] != OPEN {
        return Ok(Reading::Behind { kept });
    }
    let said = contents_in(format, identity, kept, bytes)?;
    visitor.take(&said.1)?;
    Ok(Reading::Groups {
        kept: kept + 1,
        left: said.0,
    })
}

/// Reads a record inside a group, of which so many are left: it is closed, and says that none
/// follows.
fn read_follower<F: Format, V: Visitor<F::Item>>(
    format: &F,
    identity: u64,
    kept: u64,
    left: u16,
    bytes: &[u8],
    visitor: &mut V,
) -> Result<Reading, StoreFault>
    requires format { IsFormat (F.meaning format.now) }
    requires whole { length bytes.now ≡ (F.meaning format.now).record_length }
    requires fits { kept + 1 < 2 ^ 63 }
    requires some { 1 ≤ left }
    ensures read { IfOk result (ReadsOn (F.meaning format.now) V.takes (Groups kept left) 1
        (IsRecordAt (F.meaning format.now) identity bytes.now) visitor.old visitor.new) }
    ensures refused { IfErr result (IsUnreadable (F.meaning format.now) V.takes V.refuses
        (Groups kept left) (IsRecordAt (F.meaning format.now) identity bytes.now)
        visitor.old) }
{
    if bytes[0] == OPEN {
        return Err(StoreFault::Damaged);
    }
    let said = contents_in(format, identity, kept, bytes)?;
    if said.0 != 0 {
        return Err(StoreFault::Damaged);
    }
    visitor.take(&said.1)?;
    Ok(Reading::Groups {
        kept: kept + 1,
        left: left - 1,
    })
}

/// What the contents of the record behind so many items say.
///
/// Refused with `Damaged` where they are none of the format's.
fn contents_in<F: Format>(
    format: &F,
    identity: u64,
    kept: u64,
    bytes: &[u8],
) -> Result<(u16, F::Item), StoreFault>
    requires format { IsFormat (F.meaning format.now) }
    requires whole { length bytes.now ≡ (F.meaning format.now).record_length }
    requires fits { kept + 1 < 2 ^ 63 }
    ensures found { IfOk result (λ found. HasContents (F.meaning format.now) identity
        ((F.meaning format.now).headers + kept) found.0 found.1 bytes.now) }
    ensures none { IfErr result (λ fault. (fault ≡ StoreFault.Damaged)
        × HasNoContents (F.meaning format.now) identity ((F.meaning format.now).headers + kept)
        bytes.now) }
{
    match format.read(identity, format.headers() + kept, &bytes[1..]) {
        Some(found) => Ok(found),
        None => Err(StoreFault::Damaged),
    }
}

/// How many items are kept, where all records were read.
///
/// Refused with `Damaged` where the last group goes past the end.
pub fn finish_reading<F: Format>(format: &F, reading: Reading) -> Result<u64, StoreFault>
    requires format { IsFormat (F.meaning format.now) }
    ensures kept { IfOk result (λ kept. kept ≡ kept_in reading) }
    ensures whole { IfOk result (λ _. (items : List F.Item) (records : ℕ) (bytes : List ℕ)
        → length bytes ≡ (F.meaning format.now).record_length * records
        → HasRead (F.meaning format.now) reading items records bytes
        → AreListed (F.meaning format.now) items bytes) }
    ensures refused { IfErr result (λ fault. (fault ≡ StoreFault.Damaged)
        × ((items : List F.Item) (records : ℕ) (bytes : List ℕ)
        → length bytes ≡ (F.meaning format.now).record_length * records
        → HasRead (F.meaning format.now) reading items records bytes
        → ListsNone (F.meaning format.now) bytes)) }
{
    match reading {
        Reading::Behind { kept } => Ok(kept),
        Reading::Groups { kept, left } => {
            if left == 0 {
                Ok(kept)
            } else {
                Err(StoreFault::Damaged)
            }
        }
    }
}
