//! The trait `Format`: how items are written into the records of a disk.

ghost use Rattle.std.specs.Prelude.{◌≡◌, ◌+◌, ◌*◌, ◌≤◌, ◌↔◌, ℕ, IsTrue, IfSome, Some, length};
ghost use Rattle.duk_store.specs.Format.{FormatMeaning, IsFormat};

/// The gate of an open record. Every other value is closed.
pub const OPEN: u8 = 1;

/// A format of records of one length, each of which has one item, but for a header in front.
///
/// The first byte of a record is its gate. A format writes and reads the contents, which are all
/// bytes behind it. They may depend on the identity that the header of the same disk gives it, so
/// that a record that was copied from another disk is found.
pub trait Format: Drop {
    /// What a record keeps.
    type Item: Copy;

    /// What the format means.
    ghost meaning: { Self → FormatMeaning Self.Item };

    /// The format is what each format is held to: contents say one thing at most, among others.
    fn laws(&self)
        ensures { IsFormat (meaning self.now) };

    /// The bytes of a record.
    fn record_length(&self) -> usize
        ensures { result ≡ (meaning self.now).record_length };

    /// How many records in front are no items: none, or one, which is the header.
    fn headers(&self) -> u64
        ensures { result ≡ (meaning self.now).headers };

    /// Whether the bytes of a record are a header of this format.
    fn is_header(&self, record: &[u8]) -> bool
        requires { length «record».now ≡ (meaning self.now).record_length }
        ensures { IsTrue result ↔ (meaning self.now).is_header «record».now };

    /// The identity that a header gives its disk. The header is empty where the format has none.
    fn identity(&self, header: &[u8]) -> u64
        requires { length header.now
            ≡ (meaning self.now).record_length * (meaning self.now).headers }
        ensures { result ≡ (meaning self.now).identity header.now };

    /// Writes into all of `contents` those of the record at a place, counted from 0, in whose group
    /// so many follow, on the disk of an identity. The item is one that may stand.
    fn write(
        &self,
        identity: u64,
        place: u64,
        followers: u16,
        item: &Self::Item,
        contents: &mut [u8],
    )
        requires whole { length contents.old + 1 ≡ (meaning self.now).record_length }
        requires fits { followers + 1 ≤ (meaning self.now).most }
        requires stands { (meaning self.now).may_stand item.now }
        ensures written { (meaning self.now).says identity place followers item.now contents.new }
        ensures length { length contents.new ≡ length contents.old };

    /// What the contents of the record at a place say, on the disk of an identity: how many of its
    /// group follow, and its item. `None` where they are no contents of this format.
    fn read(&self, identity: u64, place: u64, contents: &[u8]) -> Option<(u16, Self::Item)>
        requires { length contents.now + 1 ≡ (meaning self.now).record_length }
        ensures found { IfSome result (λ found.
            (meaning self.now).says identity place found.0 found.1 contents.now) }
        ensures every { (followers : ℕ) (item : Self.Item)
            → (meaning self.now).says identity place followers item contents.now
            → result ≡ Some (followers, item) };
}
