//! What was made beforehand with a transaction key.

use crate::pin_block::Translation;
use crate::text::ShortText;

/// A text with its MAC under the key's variant for requests, and perhaps a PIN block with what it is
/// translated to.
#[derive(Clone, Copy)]
pub(crate) struct Known {
    /// The text.
    pub(crate) text: ShortText,
    /// Its MAC.
    pub(crate) mac: [u8; 8],
    /// The PIN block, where one was asked for and a zone key is held.
    pub(crate) translation: Option<Translation>,
}
