//! Short texts, in a fixed array.

ghost use Rattle.std.specs.Prelude.{◌≡◌, ◌-◌, ◌<◌, ◌≤◌, ◌↔◌, ◌++◌, [], IsTrue, length, replicate};

use std::marker::Model;

/// The most bytes of a short text.
pub(crate) const TEXT_ROOM: usize = 64;

/// A text of at most 64 bytes.
#[derive(Clone, Copy)]
pub(crate) struct ShortText {
    bytes: [u8; TEXT_ROOM],
    len: usize,
}

impl Model for ShortText {
    ghost use Rattle.std.specs.Prelude.{ℕ, ◌-◌, List, ◌++◌, length, replicate};
    ghost use Rattle.duk_hsm.specs.declared.text.TheConstants.{TEXT_ROOM};

    ghost Value = { List ℕ };

    ghost use Rattle.duk_hsm.specs.inner.ShortText.{text_of, IsPadded};

    ghost view = { text_of };

    ghost invariant = { IsPadded };

    ghost inverse = { λ text. record {
      bytes = text ++ replicate (TEXT_ROOM - length text) 0;
      len = length text;
    } };
}

impl ShortText {
    /// This text, or the empty one in the place of a longer one than fits.
    pub(crate) fn new(text: &[u8]) -> Self
        ensures fits { length text.now ≤ TEXT_ROOM → result ≡ text.now }
        ensures long { TEXT_ROOM < length text.now → result ≡ [] }
    {
        let text = if text.len() <= TEXT_ROOM { text } else { &[] };
        ShortText {
            bytes: filled(text),
            len: text.len(),
        }
    }

    /// The bytes of the text.
    pub(crate) fn bytes(&self) -> &[u8]
        ensures { result.now ≡ self.now }
    {
        &self.bytes[..self.len]
    }

    /// Whether this is that text.
    pub(crate) fn is(&self, text: &[u8]) -> bool
        ensures { IsTrue result ↔ (self.now ≡ text.now) }
    {
        self.bytes() == text
    }
}

/// The text with zero bytes after it.
fn filled(text: &[u8]) -> [u8; TEXT_ROOM]
    requires { length text.now ≤ TEXT_ROOM }
    ensures { result ≡ text.now ++ replicate (TEXT_ROOM - length text.now) 0 }
{
    let mut bytes = [0; TEXT_ROOM];
    bytes[..text.len()].copy_from_slice(text);
    bytes
}
