//! Laws of security modules, each the contract of a function that does nothing.

ghost use Rattle.std.specs.Prelude.{◌≡◌};
ghost use Rattle.duk_hsm.specs.View.{HsmHasZone};
ghost use Rattle.duk_hsm.specs.declared.group.OpenedGroup.TheInside as group;
ghost use Rattle.duk_hsm.specs.declared.group.OpenedGroup.TheView as group_view;
ghost use Rattle.duk_hsm.specs.declared.hsm.Hsm.TheInside as hsm;
ghost use Rattle.duk_hsm.specs.declared.hsm.Hsm.TheView as hsm_view;
ghost use Rattle.duk_hsm.specs.declared.transaction.Transaction.TheInside as transaction;
ghost use Rattle.duk_hsm.specs.declared.transaction.Transaction.TheView as transaction_view;

/// Nothing is hidden beside what contracts see: opened numbers, groups of them, and modules whose
/// zone key has the length that it says, are equal in each field where they are equal to contracts.
pub fn nothing_else<const N: usize>()
    ensures hsm { (one other : hsm.Inside N) → HsmHasZone one → HsmHasZone other
        → hsm_view.view N one ≡ hsm_view.view N other → one ≡ other }
    ensures transaction { (one other : transaction.Inside)
        → transaction_view.view one ≡ transaction_view.view other → one ≡ other }
    ensures group { (one other : group.Inside)
        → group_view.view one ≡ group_view.view other → one ≡ other }
{}
