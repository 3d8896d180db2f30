//! The numbers that were used.
//!
//! Contracts have the used numbers as a list, and ask only whether a number is in it; nothing is
//! said of its order. A model of a type cannot be a function from numbers to yes or no.

ghost use Rattle.std.specs.Prelude.{◌≡◌, ◌↔◌, [], IsTrue, IfOk, OnErr};
ghost use Rattle.std.specs.Bool.{MatchBool};
ghost use Rattle.duk_tree.specs.Path.{IsUsable};
ghost use Rattle.duk_host.specs.Used.{IsOneMore, IsUsed};

use crate::ranges;
use duk_tree::Ksn;
use std::alloc::{AllocError, Global};
use std::collections::BTreeMap;
use std::marker::Model;

/// The used key serial numbers, in ranges: each is under the number that it begins at, with the
/// counter that it ends at.
#[derive(Drop)]
pub struct UsedNumbers {
    ranges: BTreeMap<u128, u32>,
}

impl Model for UsedNumbers {
    ghost use Rattle.duk_host.specs.inner.Index.{AreRanges, numbers_in};
    ghost use Rattle.duk_store.specs.Log.{Numbers};

    ghost Value = { Numbers };

    ghost view = { λ used. numbers_in used.ranges };

    ghost invariant = { λ used. AreRanges used.ranges };
}

impl UsedNumbers {
    /// None is used. This takes no memory.
    pub fn new(alloc: Global) -> Self
        ensures { result ≡ [] }
    {
        UsedNumbers {
            ranges: BTreeMap::new(alloc),
        }
    }

    /// Whether a key serial number is used.
    pub fn contains(&self, ksn: Ksn) -> bool
        ensures { IsTrue result ↔ IsUsed self.now ksn }
    {
        duk_tree::laws::paths();
        ranges::contains(&self.ranges, ksn)
    }

    /// Adds a key serial number, and reports whether it was not used before.
    pub fn insert(&mut self, ksn: Ksn) -> Result<bool, AllocError>
        requires usable { IsUsable ksn.counter }
        ensures added { IfOk result (λ _. IsOneMore self.old ksn self.new) }
        ensures fresh { IfOk result
            (λ fresh. MatchBool fresh (¬ IsUsed self.old ksn) (IsUsed self.old ksn)) }
        ensures same { OnErr result (self.new ≡ self.old) }
    {
        duk_tree::laws::paths();
        ranges::insert(&mut self.ranges, ksn)
    }
}
