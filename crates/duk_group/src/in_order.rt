//! The numbers of a terminal in their order, each with its transaction key.

ghost use Rattle.std.specs.Prelude.{◌≡◌, ◌↔◌, IsNone, IfSome};
ghost use Rattle.duk_tree.specs.Derivation.{transaction_key_of};
ghost use Rattle.duk_tree.specs.Next.{spent_counter, ComesAfter};
ghost use Rattle.duk_tree.specs.Path.{IsUsable};
ghost use Rattle.duk_group.specs.InOrder.{GoesOn, InOrder};

use crate::block::Block;
use duk_tdes::Key;
use duk_tree::{Iksn, Ksn, next_usable};
use std::marker::Model;

/// The counter of a terminal that has used all its numbers.
const SPENT: u32 = 1 << 21;

/// A terminal whose numbers are gone through in their order, from its first on. The keys of some
/// thousand counters are made together in lanes, where the next number is not among those that were
/// made last: so no table is read at a place that depends on a key. It is some hundred kilobytes
/// large. It has no `Debug`, so that no key is printed by chance.
#[derive(Drop)]
pub struct KeysInOrder {
    initial: Key<16>,
    iksn: Iksn,
    counter: u32,
    block: Block,
}

impl Model for KeysInOrder {
    ghost use Rattle.duk_group.specs.InOrder.{InOrder};
    ghost use Rattle.duk_group.specs.inner.Block.{IsBlockOf};
    ghost use Rattle.duk_group.specs.inner.InOrder.{IsInOrder};

    ghost Value = { InOrder };

    ghost view = { λ keys. record {
      initial = keys.initial;
      iksn = keys.iksn;
      counter = keys.counter;
    } };

    ghost invariant = { λ keys. IsInOrder (record {
      initial = keys.initial;
      iksn = keys.iksn;
      counter = keys.counter;
    })
        × IsBlockOf keys.initial keys.iksn keys.block };
}

impl KeysInOrder {
    /// A terminal with this initial key before its first number.
    pub fn new(initial: Key<16>, iksn: Iksn) -> KeysInOrder
        ensures { result ≡ record { initial = initial; iksn = iksn; counter = 1 } }
    {
        KeysInOrder {
            initial,
            iksn,
            counter: 1,
            block: Block::none(),
        }
    }

    /// Goes on past the next number: its key serial number, without its key. None: the terminal is
    /// spent, and nothing changes.
    pub fn pass(&mut self) -> Option<Ksn>
        ensures spent { IsNone result ↔ (self.old.counter ≡ spent_counter) }
        ensures unchanged { IsNone result → self.new ≡ self.old }
        ensures usable { IfSome result (λ ksn. IsUsable self.old.counter) }
        ensures serial { IfSome result
            (λ ksn. ksn ≡ record { iksn = self.old.iksn; counter = self.old.counter }) }
        ensures goes_on { IfSome result (λ ksn. GoesOn self.old self.new) }
    {
        duk_tree::laws::bits();
        let counter = self.counter;
        if counter == SPENT {
            return None;
        }
        self.counter = counter_after(counter);
        Some(self.iksn.with_counter(counter))
    }

    /// Goes on past the next number: its key and its key serial number. None: the terminal is spent,
    /// and nothing changes.
    pub fn use_next(&mut self) -> Option<(Key<16>, Ksn)>
        ensures spent { IsNone result ↔ (self.old.counter ≡ spent_counter) }
        ensures unchanged { IsNone result → self.new ≡ self.old }
        ensures usable { IfSome result (λ taken. IsUsable self.old.counter) }
        ensures serial { IfSome result
            (λ taken. taken.1 ≡ record { iksn = self.old.iksn; counter = self.old.counter }) }
        ensures key { IfSome result (λ taken.
            taken.0 ≡ transaction_key_of self.old.initial self.old.iksn self.old.counter) }
        ensures goes_on { IfSome result (λ taken. GoesOn self.old self.new) }
    {
        duk_tree::laws::bits();
        let counter = self.counter;
        if counter == SPENT {
            return None;
        }
        let key = self.block.key(&self.initial, self.iksn, counter);
        self.counter = counter_after(counter);
        Some((key, self.iksn.with_counter(counter)))
    }
}

/// Where a terminal stands after the number of this counter.
fn counter_after(counter: u32) -> u32
    ensures { ComesAfter counter result }
{
    next_usable(counter).unwrap_or(SPENT)
}
