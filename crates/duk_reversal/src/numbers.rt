//! The two numbers of a reversal.

ghost use Rattle.std.specs.Prelude.{◌≡◌, ◌↔◌, ℕ, List, IsSome, IfSome};
ghost use Rattle.duk_reversal.specs.Numbers.{AreNumbers, Reverses};

use duk_tree::{Ksn, usable};
use std::marker::Model;

/// The key serial number that a reversal uses, and the one that it reverses: a usable one of the
/// same initial key serial number, and not itself.
#[derive(Clone, Copy, Debug)]
pub struct ReversalNumbers {
    ksn: Ksn,
    reversed: Ksn,
}

impl Model for ReversalNumbers {
    ghost use Rattle.duk_reversal.specs.Numbers.{Numbers, AreNumbers};

    ghost Value = { Numbers };

    ghost view = { λ numbers. record { ksn = numbers.ksn; reversed = numbers.reversed } };

    ghost invariant = { λ numbers.
        AreNumbers (record { ksn = numbers.ksn; reversed = numbers.reversed }) };

    ghost inverse = { λ numbers. record { ksn = numbers.ksn; reversed = numbers.reversed } };
}

impl ReversalNumbers {
    /// These numbers, where the first reverses the second.
    pub fn new(ksn: Ksn, reversed: Ksn) -> Option<ReversalNumbers>
        ensures found { IsSome result ↔ Reverses ksn reversed }
        ensures numbers { IfSome result
            (λ numbers. numbers ≡ record { ksn = ksn; reversed = reversed }) }
        ensures are { IfSome result AreNumbers }
    {
        let counter = reversed.counter();
        if reversed.iksn() != ksn.iksn() || counter == ksn.counter() || !usable(counter) {
            return None;
        }
        Some(ReversalNumbers { ksn, reversed })
    }

    /// The number that the reversal uses.
    pub fn ksn(self) -> Ksn
        ensures value { result ≡ self.ksn }
        ensures numbers { AreNumbers self }
    {
        self.ksn
    }

    /// The number that it reverses.
    pub fn reversed(self) -> Ksn
        ensures value { result ≡ self.reversed }
        ensures numbers { AreNumbers self }
    {
        self.reversed
    }
}
