//! What the items of a batch leave for those after them.

ghost use Rattle.std.specs.Prelude.{IfSome};
ghost use Rattle.duk_commands.specs.inner.Group.{HasKeysOf};
ghost use Rattle.duk_tree.specs.Path.{IsUsable};

use crate::batch::group::{Derived, Group, group_of, keys_at};
use duk_tree::Ksn;
use std::marker::Model;

/// The keys of the last numbers that were derived together. It has neither `Debug` nor `==`, so
/// that no key is printed or compared by chance.
#[derive(Drop)]
pub struct Kept {
    group: Option<Group>,
    /// The place in the group of the last number that was asked for.
    place: usize,
}

impl Model for Kept {
    ghost use Rattle.std.specs.Prelude.{IfSome};
    ghost use Rattle.duk_commands.specs.inner.Group.{AreKeysOf};

    ghost Value = { Unit {0} };

    ghost view = { λ kept. tt };

    ghost invariant = { λ kept. IfSome kept.group AreKeysOf };
}

impl Kept {
    /// Nothing is kept.
    pub(crate) fn new() -> Self {
        Kept {
            group: None,
            place: 0,
        }
    }

    /// The initial key and the transaction key of a number. It mostly stands behind the last number
    /// that was asked for; else those of the lines ahead are derived with it. None: they are too
    /// few, or the text is no key.
    pub(crate) fn keys(
        &mut self,
        bdk: &str,
        initial: bool,
        number: Ksn,
        ahead: &[u8],
    ) -> Option<Derived>
        requires { IsUsable number.counter }
        ensures { IfSome result
            (λ derived. HasKeysOf bdk.now initial number derived.initial derived.key) }
    {
        let next = self.place.saturating_add(1);
        if let Some(derived) = keys_at(&self.group, next, bdk, initial, number) {
            self.place = next;
            return Some(derived);
        }
        self.group = group_of(bdk, initial, number, ahead);
        self.place = 0;
        keys_at(&self.group, 0, bdk, initial, number)
    }
}
