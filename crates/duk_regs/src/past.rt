//! The initial key serial numbers that a terminal had before.

ghost use Rattle.std.specs.Prelude.{◌≡◌, ◌≢◌, ◌↔◌, ◌<◌, ◌≤◌, ◌++◌, ◌∷◌, [], AllPairs, Contains, IsTrue, length};

use duk_tree::{Iksn, Ksn};
use std::marker::Model;

/// How many initial key serial numbers are past at most.
pub(crate) const MOST_PAST: usize = 8;

/// The initial key serial numbers that a terminal had before, in order of their loading. The places
/// after them are zero.
#[derive(Drop)]
pub(crate) struct Past {
    iksns: [Iksn; MOST_PAST],
    count: usize,
}

impl Model for Past {
    ghost use Rattle.std.specs.Prelude.{ℕ, List, take};
    ghost use Rattle.duk_regs.specs.inner.Past.{ArePadded};

    ghost Value = { List ℕ };

    ghost view = { λ past. take past.count past.iksns };

    ghost invariant = { λ past. ArePadded past.iksns past.count };
}

impl Past {
    /// None.
    pub(crate) fn none() -> Past
        ensures { result ≡ [] }
    {
        Past {
            iksns: [Ksn::from_bytes([0; 10]).iksn(); MOST_PAST],
            count: 0,
        }
    }

    /// The numbers.
    pub(crate) fn iksns(&self) -> &[Iksn]
        ensures iksns { result.now ≡ self.now }
        ensures at_most_8 { length result.now ≤ 8 }
    {
        &self.iksns[..self.count]
    }

    /// Whether this is one of them.
    pub(crate) fn contains(&self, iksn: Iksn) -> bool
        ensures { IsTrue result ↔ Contains self.now iksn }
    {
        is_among(iksn, self.iksns())
    }

    /// Whether there are eight.
    pub(crate) fn is_full(&self) -> bool
        ensures { IsTrue result ↔ (length self.now ≡ 8) }
    {
        self.iksns().len() == MOST_PAST
    }

    /// These and, after them, one more.
    pub(crate) fn with(&self, iksn: Iksn) -> Past
        requires { length self.now < 8 }
        ensures { result ≡ self.now ++ iksn ∷ [] }
    {
        let mut iksns = self.iksns;
        iksns[self.count] = iksn;
        Past {
            iksns,
            count: self.count + 1,
        }
    }
}

/// Whether a number is one of these.
fn is_among(iksn: Iksn, iksns: &[Iksn]) -> bool
    ensures { IsTrue result ↔ Contains iksns.now iksn }
{
    iksns.contains(&iksn)
}

/// Whether no number is there twice.
pub(crate) fn are_different(iksns: &[Iksn]) -> bool
    ensures { IsTrue result ↔ AllPairs (λ one other. one ≢ other) iksns.now }
{
    for (place, iksn) in iksns.iter().enumerate() {
        if is_among(*iksn, &iksns[..place]) {
            return false;
        }
    }
    true
}
