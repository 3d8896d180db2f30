//! The header of a file: its first record, which says what the file is.

ghost use Rattle.std.specs.Prelude.{◌≡◌, ◌<◌, ◌^◌, ◌↔◌, IsTrue, length};
ghost use Rattle.duk_journal.specs.Header.{IsHeader, header_of, identity_of, journal_kind, said_in_front};

use crate::record_format::{RECORD_LENGTH, append};
use arrayvec::ArrayVec;
use byteorder::{BigEndian, ByteOrder};
use duk_crc::crc32;

/// The kind of a journal.
pub const JOURNAL_KIND: u8 = 1;

/// The first bytes of a header. They are no text, and a copy that converts line endings changes
/// them. A reader of version 1 takes them for an open record of no kind, and refuses the disk.
const MARK: [u8; 8] = [0x01, 0xD5, 0x44, 0x55, 0x4B, 0x0D, 0x0A, 0x1A];

/// The version of the format.
const VERSION: u8 = 2;

/// What stands behind the version: zeros, and the bytes of a record. A reader of a log takes the first
/// half of a header for an open record that has a byte behind its number, and refuses the disk.
const LENGTH: [u8; 6] = [0, 0, 0, 0, 0, 32];

/// The bytes of a header.
pub type HeaderBytes = ArrayVec<u8, RECORD_LENGTH>;

/// The header of a journal with this identity, which is drawn at random where the journal is made.
pub fn journal_header(identity: u64) -> HeaderBytes
    ensures bytes { result.items ≡ header_of journal_kind identity }
    ensures length { length result.items ≡ 32 }
{
    file_header(JOURNAL_KIND, identity)
}

/// Whether the bytes of a record are the header of a journal.
pub fn is_journal_header(record: &[u8]) -> bool
    requires { length «record».now ≡ 32 }
    ensures { IsTrue result ↔ IsHeader journal_kind «record».now }
{
    is_file_header(JOURNAL_KIND, record)
}

/// Whether the bytes of a record are the header of a file of this kind.
pub fn is_file_header(kind: u8, record: &[u8]) -> bool
    requires { length «record».now ≡ 32 }
    ensures { IsTrue result ↔ IsHeader kind «record».now }
{
    let written = file_header(kind, identity_in(record));
    record == written.as_slice()
}

/// The identity in a header.
pub fn identity_in(header: &[u8]) -> u64
    requires { length header.now ≡ 32 }
    ensures identity { result ≡ identity_of header.now }
    ensures fits { identity_of header.now < 2 ^ 64 }
{
    BigEndian::read_u64(&header[16..])
}

/// The header of a file of this kind, with this identity.
#[tactic(auto, unfolding(crate::specs::Header::said_in_front))]
pub fn file_header(kind: u8, identity: u64) -> HeaderBytes
    ensures bytes { result.items ≡ header_of kind identity }
    ensures length { length result.items ≡ 32 }
{
    let mut bytes = ArrayVec::new();
    append(&mut bytes, &MARK);
    append(&mut bytes, &[kind, VERSION]);
    append(&mut bytes, &LENGTH);
    append(&mut bytes, &identity.to_be_bytes());
    append(&mut bytes, &[0; 4]);
    let check = crc32(bytes.as_slice());
    append(&mut bytes, &check.to_le_bytes());
    bytes
}
