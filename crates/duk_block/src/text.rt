//! Texts of key blocks, and the bytes in them.

ghost use Rattle.std.specs.Prelude.{◌≡◌, ◌≤◌, ◌+◌, ◌++◌, length};

use arrayvec::ArrayVec;

/// The fewest characters of a key block that is read or written: a header, three blocks and a MAC.
pub(crate) const MIN_TEXT: usize = 80;

/// The most characters of a key block that is read or written.
pub const MAX_TEXT: usize = 512;

/// The text of a key block, or bytes that come of one.
pub type BlockText = ArrayVec<u8, MAX_TEXT>;

/// Writes bytes at the end of a text.
pub(crate) fn append(text: &mut BlockText, bytes: &[u8])
    requires { length text.old.items + length bytes.now ≤ MAX_TEXT }
    ensures { text.new.items ≡ text.old.items ++ bytes.now }
{
    text.try_extend_from_slice(bytes).unwrap();
}
