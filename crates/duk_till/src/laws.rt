//! Laws of tills, each the contract of a function that does nothing.

ghost use Rattle.std.specs.Prelude.{◌≡◌, ℕ, List, Option, Some};
ghost use Rattle.duk_store.specs.Cell.{Kept};
ghost use Rattle.duk_store.specs.SlotCell.{SlotCellOf, new_slot_cell, slot_cell_meaning};
ghost use Rattle.duk_store.specs.SlotFormat.{KeepsBody};
ghost use Rattle.duk_term.specs.declared.state.State.TheVariants as term_state;
ghost use Rattle.duk_till.specs.History.{Entry, IsEverToldAs, IsToldAlike, IsToldOfBegun, NothingElseTold, ToldIsKept, TookNewNumbers};
ghost use Rattle.duk_till.specs.Image.{IsLastBody, kept_of};
ghost use Rattle.duk_till.specs.Lifetime.{Call, IsCalled, IsLifetime, Stop};
ghost use Rattle.duk_till.specs.Till.{TillOf};
ghost use Rattle.duk_till.specs.View.{till_view};
ghost use Rattle.duk_till.specs.declared.last.Last.{Last};
ghost use Rattle.duk_till.specs.declared.state.TillState.TheVariants.{Running, Stopped};
ghost use Rattle.duk_till.specs.declared.till.Till.TheInside.{Inside};

use duk_store::{Cell, Disk, SlotCell};

/// Bytes are the body of at most one last purchase.
pub fn one_reading()
    ensures { (body : List ℕ) (one other : Last) → IsLastBody body one → IsLastBody body other
        → one ≡ other }
{
    duk_tree::laws::serials();
}

/// What a till has told and what its book keeps are the same, through any calls, wherever a device
/// step of either cell fails, and whenever its process ends and another till is made over what its
/// cells keep, where these are honest. A process that ends within a call leaves what the call leaves
/// where a device step fails.
///
/// While the till runs, since the last purchase began it told what became of that, and nothing
/// else; of an open purchase it told nothing, and none began after it. Whatever a restart of the
/// book may find at any time, nothing else was told since that began. All that is told is of
/// purchases that began, with their amounts. Each takes a new number, and of each number one thing
/// alone is ever told: what was told as approved is never undone, and what is undone or declined
/// was never told as approved.
pub fn lifetimes<C: Cell, J: Cell>()
    ensures kept { (calls : List Call) (history : List Entry) (till : TillOf C J)
        → (last : Option Last) → IsLifetime C.meaning J.meaning calls history till
        → till.state ≡ Running last → ToldIsKept history last }
    ensures found { (calls : List Call) (history : List Entry) (till : TillOf C J) (kept : Kept)
        → IsLifetime C.meaning J.meaning calls history till
        → (J.meaning.state_of till.book).found kept
        → (last : Option Last) × (kept ≡ kept_of last) × NothingElseTold history last }
    ensures begun { (calls : List Call) (history : List Entry) (till : TillOf C J)
        → IsLifetime C.meaning J.meaning calls history till → IsToldOfBegun history }
    ensures numbers { (calls : List Call) (history : List Entry) (till : TillOf C J)
        → IsLifetime C.meaning J.meaning calls history till → TookNewNumbers history }
    ensures alike { (calls : List Call) (history : List Entry) (till : TillOf C J)
        → IsLifetime C.meaning J.meaning calls history till → IsToldAlike history }
    ensures ever { (calls : List Call) (history : List Entry) (till : TillOf C J) (last : Last)
        → IsLifetime C.meaning J.meaning calls history till → till.state ≡ Running (Some last)
        → IsEverToldAs history last }
{
    one_reading();
    duk_tree::laws::bits();
    duk_term::laws::found_again();
}

/// So it is on disks. Whatever a stop leaves of an honest book's disk, nothing else was told than
/// what a restart reads there; and a till that is made anew over that disk goes on with the lifetime.
pub fn lifetimes_on_disks<D: Disk, E: Disk>()
    ensures kept { (calls : List Call) (history : List Entry)
        → (till : TillOf (SlotCellOf D) (SlotCellOf E)) (last : Option Last)
        → IsLifetime (slot_cell_meaning D.meaning) (slot_cell_meaning E.meaning) calls history till
        → till.state ≡ Running last → ToldIsKept history last }
    ensures left { (calls : List Call) (history : List Entry)
        → (till : TillOf (SlotCellOf D) (SlotCellOf E)) (bytes : List ℕ) (kept : Kept)
        → IsLifetime (slot_cell_meaning D.meaning) (slot_cell_meaning E.meaning) calls history till
        → (E.meaning.state_of till.book.disk).may_leave bytes → KeepsBody bytes kept
        → (last : Option Last) × (kept ≡ kept_of last) × NothingElseTold history last }
    ensures goes_on { (old new : TillOf (SlotCellOf D) (SlotCellOf E))
        → (D.meaning.state_of old.terminal.cell.disk).honest
        → (E.meaning.state_of old.book.disk).honest → new.state ≡ Stopped
        → new.terminal
        ≡ record { cell = new_slot_cell old.terminal.cell.disk; state = term_state.Stopped }
        → new.book ≡ new_slot_cell old.book.disk
        → IsCalled (slot_cell_meaning D.meaning) (slot_cell_meaning E.meaning) Stop old new }
{
    lifetimes::<SlotCell<D>, SlotCell<E>>();
}

/// Nothing is hidden beside what contracts see: tills that are equal to them are equal in each
/// field.
pub fn nothing_else<C: Cell, J: Cell>()
    ensures { (one other : Inside C J) → till_view one ≡ till_view other → one ≡ other }
{}
