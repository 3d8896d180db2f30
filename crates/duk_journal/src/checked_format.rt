//! The format of a journal's disk, version 2: a header, and records of 32 bytes with check sums.

ghost use Rattle.std.specs.Prelude.{◌≡◌, ◌↔◌, ◌++◌, IsTrue, length};
ghost use Rattle.duk_journal.specs.CheckedFormat.{IsChecked, check_bytes, check_of, checked_format, said_of, unchecked};

use crate::entry::Entry;
use crate::header::{identity_in, is_journal_header};
use crate::record_format::{CONTENTS_LENGTH, Contents, ContentsBytes, RECORD_LENGTH, append};
use arrayvec::ArrayVec;
use duk_crc::Division;
use duk_store::Format;

/// The bytes of contents that stand in front of their check sum.
const SAID_LENGTH: usize = 26;

/// The bytes behind it: their check sum, and a zero.
const BEHIND_LENGTH: usize = 5;

/// The format of a journal's records, version 2.
///
/// Each record has a check sum over the identity of its file, its place, and what it says. So a
/// record that was changed, or moved from another place or another file, is found as damage: one in
/// 2^32 of them passes.
#[derive(Drop)]
pub struct CheckedFormat {}

impl Format for CheckedFormat {
    type Item = Entry;

    ghost meaning = { λ _. checked_format };

    fn laws(&self) {
        duk_tree::laws::serials();
    }

    fn record_length(&self) -> usize {
        RECORD_LENGTH
    }

    fn headers(&self) -> u64 {
        1
    }

    fn is_header(&self, record: &[u8]) -> bool {
        is_journal_header(record)
    }

    fn identity(&self, header: &[u8]) -> u64 {
        identity_in(header)
    }

    fn write(&self, identity: u64, place: u64, followers: u16, item: &Entry, contents: &mut [u8]) {
        let said = Contents {
            followers,
            entry: *item,
        };
        duk_tree::laws::serials();
        let plain = said.bytes();
        let checked = with_check(identity, place, plain.as_slice());
        contents.copy_from_slice(checked.as_slice());
    }

    fn read(&self, identity: u64, place: u64, contents: &[u8]) -> Option<(u16, Entry)> {
        if !is_checked(identity, place, contents) {
            return None;
        }
        let said = Contents::of_bytes(&without_check(contents))?;
        Some((said.followers, said.entry))
    }
}

/// Contents with zeros in the place of their check sum, as version 1 has them.
fn without_check(contents: &[u8]) -> [u8; CONTENTS_LENGTH]
    requires { length contents.now ≡ 31 }
    ensures bytes { result ≡ unchecked contents.now }
    ensures length { length result ≡ 31 }
{
    let mut bytes = [0; CONTENTS_LENGTH];
    bytes[..SAID_LENGTH].copy_from_slice(&contents[..SAID_LENGTH]);
    bytes
}

/// Whether the check sum of contents is that of the record at a place, on the disk of an identity.
fn is_checked(identity: u64, place: u64, contents: &[u8]) -> bool
    requires { length contents.now ≡ 31 }
    ensures { IsTrue result ↔ IsChecked identity place contents.now }
{
    let mut behind = [0; BEHIND_LENGTH];
    behind.copy_from_slice(&contents[SAID_LENGTH..]);
    behind == check_behind(identity, place, &contents[..SAID_LENGTH])
}

/// Contents that say the same, with the check sum of the record at a place.
pub fn with_check(identity: u64, place: u64, contents: &[u8]) -> ContentsBytes
    requires { length contents.now ≡ 31 }
    ensures bytes { result.items
        ≡ said_of contents.now ++ check_bytes identity place (said_of contents.now) }
    ensures length { length result.items ≡ 31 }
{
    let said = &contents[..SAID_LENGTH];
    let mut bytes = ArrayVec::new();
    append(&mut bytes, said);
    append(&mut bytes, &check_behind(identity, place, said));
    bytes
}

/// What stands behind that which contents say: the check sum, and a zero.
fn check_behind(identity: u64, place: u64, said: &[u8]) -> [u8; BEHIND_LENGTH]
    requires { length said.now ≡ 26 }
    ensures { result ≡ check_bytes identity place said.now }
{
    let mut bytes = [0; BEHIND_LENGTH];
    bytes[..4].copy_from_slice(&check_sum(identity, place, said).to_le_bytes());
    bytes
}

/// The check sum of what the record at a place says, on the disk of an identity.
fn check_sum(identity: u64, place: u64, said: &[u8]) -> u32
    requires { length said.now ≡ 26 }
    ensures { result ≡ check_of identity place said.now }
{
    let division = Division::new()
        .with(&identity.to_be_bytes())
        .with(&place.to_be_bytes());
    division.with(said).check_sum()
}
