//! The bytes of a journal of either version.

ghost use Rattle.std.specs.Prelude.{◌≡◌, ◌<◌, ◌^◌, ℕ, IfSome, Some, length};
ghost use Rattle.duk_journal.specs.declared.entry.Entry.{Entry as EntryValue};
ghost use Rattle.duk_show.specs.Stored.{HasContents, IsStored};

use duk_journal::{Entry, RECORD_LENGTH, identity_in, is_journal_header};
use duk_journal_copy::Version;
use duk_store::Format;

/// What the bytes of a journal are.
#[derive(Clone, Copy)]
pub(crate) struct Stored<'a> {
    /// The version of its format: that of bytes with a header is 2.
    pub(crate) version: Version,
    /// The identity that the header gives; without one it is 0.
    pub(crate) identity: u64,
    /// The records behind the header, and what follows them.
    pub(crate) records: &'a [u8],
}

impl<'a> Stored<'a> {
    /// What these bytes are.
    pub(crate) fn of(bytes: &'a [u8]) -> Stored<'a>
        ensures { IsStored bytes.now result }
    {
        if bytes.len() >= RECORD_LENGTH && is_journal_header(&bytes[..RECORD_LENGTH]) {
            return Stored {
                version: Version::Two,
                identity: identity_in(&bytes[..RECORD_LENGTH]),
                records: &bytes[RECORD_LENGTH..],
            };
        }
        Stored {
            version: Version::One,
            identity: 0,
            records: bytes,
        }
    }

    /// The contents of the record at a place, counted behind the header: how many of its group follow,
    /// and its entry. None where it has none.
    pub(crate) fn contents_at(self, place: usize, bytes: &[u8]) -> Option<(u16, Entry)>
        requires whole { length bytes.now ≡ 32 }
        requires place { place < 2 ^ 63 }
        ensures found { IfSome result (λ found.
            HasContents self.entry place found.0 found.1 bytes.now) }
        ensures every { (followers : ℕ) (entry : EntryValue)
            → HasContents self.entry place followers entry bytes.now
            → result ≡ Some (followers, entry) }
    {
        let place = self.version.headers() + place as u64;
        self.version.read(self.identity, place, &bytes[1..])
    }
}
