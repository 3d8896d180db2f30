//! The variants of each lane's transaction key: one mask over both halves of the key for each use
//! (ANSI X9.24-1:2009 annex A).

ghost use Rattle.std.specs.Prelude.{◌≡◌, ◌<◌, ℕ};
ghost use Rattle.duk_tree.specs.Derivation.{pin_key_of, request_key_of, response_key_of};
ghost use Rattle.duk_group.specs.Blocks.{key_of};

use crate::key::LaneKeys;
use duk_lanes::Lanes;

impl<L: Lanes> LaneKeys<L> {
    /// The keys that encipher the PIN blocks of the transactions.
    pub fn pin_keys(&self) -> Self
        ensures { (i : ℕ) → i < L.count → key_of L.lane i result.left result.right
            ≡ pin_key_of (key_of L.lane i self.now.left self.now.right) }
    {
        self.masked(&[0, 0, 0, 0, 0, 0, 0, 0xFF])
    }

    /// The keys of the MACs of requests.
    pub fn request_keys(&self) -> Self
        ensures { (i : ℕ) → i < L.count → key_of L.lane i result.left result.right
            ≡ request_key_of (key_of L.lane i self.now.left self.now.right) }
    {
        self.masked(&[0, 0, 0, 0, 0, 0, 0xFF, 0])
    }

    /// The keys of the MACs of responses.
    pub fn response_keys(&self) -> Self
        ensures { (i : ℕ) → i < L.count → key_of L.lane i result.left result.right
            ≡ response_key_of (key_of L.lane i self.now.left self.now.right) }
    {
        self.masked(&[0, 0, 0, 0, 0xFF, 0, 0, 0])
    }
}
