//! The format of a journal's disk, version 1: records of 32 bytes, without a header.

ghost use Rattle.std.specs.Prelude.{◌≡◌, ◌+◌, ◌^◌, ◌++◌, ◌<◌, ◌≤◌, ◌↔◌, IsTrue, IfSome, Some, length};
ghost use Rattle.arrayvec.specs.ArrayVec.{array_vec_len};
ghost use Rattle.duk_journal.specs.Entry.{AreFields};
ghost use Rattle.duk_journal.specs.Groups.{HasContents};
ghost use Rattle.duk_journal.specs.RecordFormat.{MayBeKept, SaysEntry, contents_of, entry_format};
ghost use Rattle.duk_journal.specs.declared.record_format.Contents.{Contents};

use crate::entry::{Decided, Entry};
use arrayvec::ArrayVec;
use byteorder::{BigEndian, ByteOrder};
use duk_store::Format;
pub use duk_store::OPEN;
use duk_tree::{Ksn, usable};

/// The bytes of a record: its gate, and its contents.
pub const RECORD_LENGTH: usize = 32;

/// The bytes of a record after its gate.
pub const CONTENTS_LENGTH: usize = 31;

/// The most entries of a group.
const MOST_OF_GROUP: u16 = 4096;

/// The bytes of contents.
pub type ContentsBytes = ArrayVec<u8, CONTENTS_LENGTH>;

/// The format of a journal's records, version 1. It is read, so that journals of it can be copied.
#[derive(Drop)]
pub struct EntryFormat {}

impl Format for EntryFormat {
    type Item = Entry;

    ghost meaning = { λ _. entry_format };

    fn laws(&self) {
        duk_tree::laws::serials();
    }

    fn record_length(&self) -> usize {
        RECORD_LENGTH
    }

    fn headers(&self) -> u64 {
        0
    }

    fn is_header(&self, _record: &[u8]) -> bool {
        false
    }

    fn identity(&self, _header: &[u8]) -> u64 {
        0
    }

    fn write(
        &self,
        _identity: u64,
        _place: u64,
        followers: u16,
        item: &Entry,
        contents: &mut [u8],
    ) {
        let said = Contents {
            followers,
            entry: *item,
        };
        contents.copy_from_slice(said.bytes().as_slice());
    }

    fn read(&self, _identity: u64, _place: u64, contents: &[u8]) -> Option<(u16, Entry)> {
        let said = Contents::of_bytes(contents)?;
        Some((said.followers, said.entry))
    }
}

/// What a record says after its gate.
#[derive(Clone, Copy)]
pub struct Contents {
    /// How many records of its group follow.
    pub followers: u16,
    /// Its entry.
    pub entry: Entry,
}

impl Contents {
    /// The bytes of these contents.
    #[tactic(auto, unfolding(crate::specs::RecordFormat::contents_of))]
    pub fn bytes(self) -> ContentsBytes
        ensures bytes { result.items ≡ contents_of self.followers self.entry }
        ensures length { length result.items ≡ 31 }
        ensures fields { AreFields self.entry }
        ensures followers { self.followers < 2 ^ 16 }
    {
        let Contents { followers, entry } = self;
        let mut bytes = ArrayVec::new();
        append(&mut bytes, &[entry.decided.kind()]);
        append(&mut bytes, &followers.to_be_bytes());
        append(&mut bytes, &entry.number.bytes());
        append(&mut bytes, &entry.decided.figure().to_be_bytes());
        append(&mut bytes, &[entry.decided.outcome()]);
        append(&mut bytes, &entry.mac);
        append(&mut bytes, &[0; 5]);
        bytes
    }

    /// The contents that are written as these bytes, or `None` where there are none.
    pub fn of_bytes(bytes: &[u8]) -> Option<Contents>
        requires { length bytes.now ≡ 31 }
        ensures found { IfSome result (λ contents.
            SaysEntry contents.followers contents.entry bytes.now) }
        ensures every { (contents : Contents)
            → SaysEntry contents.followers contents.entry bytes.now → result ≡ Some contents }
    {
        duk_tree::laws::serials();
        let contents = Contents::at_their_places(bytes)?;
        if are_contents(bytes, &contents) {
            Some(contents)
        } else {
            None
        }
    }

    /// What stands where contents have their fields.
    fn at_their_places(bytes: &[u8]) -> Option<Contents>
        requires { length bytes.now ≡ 31 }
        ensures every { (contents : Contents)
            → SaysEntry contents.followers contents.entry bytes.now → result ≡ Some contents }
    {
        duk_tree::laws::serials();
        let mut number = [0; 10];
        number.copy_from_slice(&bytes[3..13]);
        let mut mac = [0; 8];
        mac.copy_from_slice(&bytes[18..26]);
        let figure = BigEndian::read_u32(&bytes[13..]);
        Some(Contents {
            followers: BigEndian::read_u16(&bytes[1..]),
            entry: Entry {
                number: Ksn::from_bytes(number),
                decided: Decided::written_as(bytes[0], figure, bytes[17])?,
                mac,
            },
        })
    }
}

/// The contents of a record, open or closed, or `None` where it has none.
pub fn contents_of_record(bytes: &[u8]) -> Option<Contents>
    requires { length bytes.now ≡ 32 }
    ensures found { IfSome result (λ contents.
        HasContents contents.followers contents.entry bytes.now) }
    ensures every { (contents : Contents)
        → HasContents contents.followers contents.entry bytes.now → result ≡ Some contents }
{
    Contents::of_bytes(&bytes[1..])
}

/// Appends bytes to others.
pub fn append<const N: usize>(bytes: &mut ArrayVec<u8, N>, more: &[u8])
    requires { array_vec_len bytes.old + length more.now ≤ N }
    ensures bytes { bytes.new.items ≡ bytes.old.items ++ more.now }
    ensures len { array_vec_len bytes.new ≡ array_vec_len bytes.old + length more.now }
{
    bytes.try_extend_from_slice(more).unwrap();
}

/// Whether the counter of an entry's number is usable, and what was decided may stand under it.
fn may_be_kept(entry: Entry) -> bool
    ensures { IsTrue result ↔ MayBeKept entry }
{
    usable(entry.number.counter()) && entry.decided.may_stand_under(entry.number)
}

/// Whether the bytes are those of these contents, of a group that is not too long, with an entry
/// that may be kept.
fn are_contents(bytes: &[u8], contents: &Contents) -> bool
    ensures { IsTrue result ↔ SaysEntry contents.now.followers contents.now.entry bytes.now }
{
    let contents = *contents;
    if contents.followers >= MOST_OF_GROUP {
        return false;
    }
    if !may_be_kept(contents.entry) {
        return false;
    }
    let written = contents.bytes();
    bytes == written.as_slice()
}
