//! A till on two disks.

ghost use Rattle.std.specs.Prelude.{◌≡◌, []};
ghost use Rattle.duk_store.specs.SlotCell.{IsZeroDisk, new_slot_cell, slot_cell_meaning};
ghost use Rattle.duk_term.specs.declared.state.State.TheVariants as term_state;
ghost use Rattle.duk_till.specs.Lifetime.{IsLifetime};
ghost use Rattle.duk_till.specs.declared.state.TillState.TheVariants as state;

use crate::till::Till;
use duk_store::{Disk, SlotCell};

/// A till whose terminal keeps its image on one disk, and whose book stands on another.
pub type DiskTill<D, E> = Till<SlotCell<D>, SlotCell<E>>;

/// A stopped till over these disks, which keep what the cells of a till left on them. Its
/// lifetime begins over honest disks, where the book's has 1,024 zero bytes.
pub fn till_on_disks<D: Disk, E: Disk>(disk: D, book: E) -> DiskTill<D, E>
    ensures terminal { result.terminal
        ≡ record { cell = new_slot_cell disk; state = term_state.Stopped } }
    ensures book { result.book ≡ new_slot_cell book }
    ensures state { result.state ≡ state.Stopped }
    ensures lifetime { (D.meaning.state_of disk).honest → (E.meaning.state_of book).honest
        → IsZeroDisk (E.meaning.state_of book)
        → IsLifetime (slot_cell_meaning D.meaning) (slot_cell_meaning E.meaning) [] [] result }
{
    Till::new(SlotCell::new(disk), SlotCell::new(book))
}
