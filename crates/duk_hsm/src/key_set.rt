//! Key sets, and how they are found.

ghost use Rattle.std.specs.Prelude.{◌≡◌};
ghost use Rattle.duk_hsm.specs.Keys.{bdk_with};

use duk_tdes::Key;
use duk_tree::PREFIX_LENGTH;

/// How many key sets are held at most.
pub const SLOTS: usize = 8;

/// A base derivation key, and the first bytes of the key serial numbers that it is for.
#[derive(Clone, Copy)]
pub struct KeySet {
    /// The first five bytes of the key serial numbers.
    pub prefix: [u8; PREFIX_LENGTH],
    /// The base derivation key.
    pub bdk: Key<16>,
}

/// What stands in a slot that is free.
impl Default for KeySet {
    fn default() -> Self {
        KeySet {
            prefix: [0; PREFIX_LENGTH],
            bdk: Key::new([0; 16]),
        }
    }
}

/// The base derivation key for this prefix.
pub(crate) fn bdk_with(key_sets: &[KeySet], prefix: &[u8; PREFIX_LENGTH]) -> Option<Key<16>>
    ensures { result ≡ bdk_with prefix.now key_sets.now }
{
    key_sets
        .iter()
        .find(|set| set.prefix == *prefix)
        .map(|set| set.bdk)
}
