//! The trait `Visitor`: what is done with the items that a restart finds.

ghost use Rattle.std.specs.Prelude.{◌≡◌, IfErr, OnOk};
ghost use Rattle.duk_store.specs.declared.fault.StoreFault.{StoreFault as Fault};

use crate::fault::StoreFault;

/// Takes items one after the other, in the order of their list. It may refuse one: for want of
/// memory, or where the item cannot stand behind those that it took.
pub trait Visitor<I> {
    /// How taking an item leaves it.
    ghost takes: { Self → I → Self → Type 0 };

    /// When it refuses an item, and with what.
    ghost refuses: { Self → I → Fault → Type 0 };

    /// Takes the next item.
    fn take(&mut self, item: &I) -> Result<(), StoreFault>
        ensures taken { OnOk result (takes self.old item.now self.new) }
        ensures refused { IfErr result (refuses self.old item.now) };
}

/// Takes every item, and does nothing with it.
#[derive(Drop)]
pub struct NoVisitor {}

impl<I> Visitor<I> for NoVisitor {
    ghost takes = { λ old _ new. new ≡ old };

    ghost refuses = { λ _ _ _. ⊥ };

    fn take(&mut self, _item: &I) -> Result<(), StoreFault> {
        Ok(())
    }
}
