//! A cell on a disk: a body in one of two slots.

ghost use Rattle.std.specs.Prelude.{◌≡◌, ℕ, List, IfErr, IfOk, None, OnOk};
ghost use Rattle.duk_store.specs.Cell.{IsPut, PutFailed};
ghost use Rattle.duk_store.specs.Disk.{LeavesChanged, StaysArmed};
ghost use Rattle.duk_store.specs.Restart.{RestartFailed, Restarted};
ghost use Rattle.duk_store.specs.SlotCell.{IsBlankDisk, IsCellReplaced, IsInItsSlot, IsPutNext, IsRestored, IsZeroDisk, RunsWithBody, StandsAlone, new_slot_cell, slot_cell_meaning};
ghost use Rattle.duk_store.specs.inner.SlotCell.{CellReplaceFailed, IsReadyFor};
ghost use Rattle.duk_store.specs.SlotFormat.{cell_disk_size};
ghost use Rattle.duk_store.specs.StoreState.{IsNew, KeepsNothing, StaysButCalm};

use crate::cell::{Body, Cell};
use crate::disk::Disk;
use crate::fault::StoreFault;
use crate::put_steps::replace;
use crate::recovery::recover;
use crate::slot_format::{Place, SlotState};
use std::marker::Model;

/// A cell on a disk of 1,024 bytes: two slots of 512 bytes, of which one is open and has the body,
/// and the other is closed and zero.
///
/// A body is written into the empty slot, which is opened once that is synced; then the old slot is
/// closed, and wiped (`replace` has the device steps). So a stop leaves the old body or the new
/// one, whatever it makes of what was not synced, and once a put is done nothing of the old body
/// stands on the disk.
#[derive(Drop)]
pub struct SlotCell<D: Disk> {
    disk: D,
    state: SlotState,
}

impl<D: Disk> Model for SlotCell<D> {
    ghost use Rattle.duk_store.specs.SlotCell.{SlotCellOf};
    ghost use Rattle.duk_store.specs.inner.SlotCell.{Knows};

    ghost Value = { SlotCellOf D };

    ghost view = { λ cell. record { disk = cell.disk; state = cell.state } };

    ghost invariant = { λ cell. Knows (D.meaning.state_of cell.disk) cell.state };
}

impl<D: Disk> SlotCell<D> {
    /// A stopped cell over this disk, which keeps what a cell left on it. A disk of 1,024 zero
    /// bytes keeps nothing.
    pub fn new(disk: D) -> Self
        ensures cell { result ≡ new_slot_cell disk }
        ensures new { IsBlankDisk (D.meaning.state_of disk)
            → IsNew ((slot_cell_meaning D.meaning).state_of result) None }
        ensures empty { IsZeroDisk (D.meaning.state_of disk)
            → KeepsNothing ((slot_cell_meaning D.meaning).state_of result) None }
    {
        SlotCell {
            disk,
            state: SlotState::Stopped,
        }
    }

    /// While the cell runs with a body kept, a stop leaves one image of the disk: the slot of the
    /// cell's own state is open and has that body, with the state's own sequence, and the other is
    /// closed, with zeros after its commit byte. This says so, and does nothing.
    pub fn one_body(&self)
        ensures alone { (body : List ℕ)
            → RunsWithBody (D.meaning.state_of self.now.disk) self.now.state body
            → StandsAlone (D.meaning.state_of self.now.disk) body }
        ensures in_its_slot { (body : List ℕ)
            → RunsWithBody (D.meaning.state_of self.now.disk) self.now.state body
            → (D.meaning.state_of self.now.disk).honest
            → IsInItsSlot (D.meaning.state_of self.now.disk) self.now.state body }
    {
        let _state = &self.state;
    }

    /// The disk, as it stands.
    pub fn into_disk(self) -> D
        ensures { result ≡ self.disk }
    {
        self.disk
    }

    /// Puts a body into a slot, and leaves nothing in the other one.
    fn replace(&mut self, place: Place, sequence: u64, body: &Body) -> Result<(), StoreFault>
        requires size { (D.meaning.state_of self.old.disk).size ≡ cell_disk_size }
        requires ready { (D.meaning.state_of self.old.disk).honest
            → IsReadyFor place sequence (D.meaning.state_of self.old.disk) }
        ensures replaced { OnOk result
            (IsCellReplaced D.meaning place sequence body.now self.old self.new) }
        ensures failed { IfErr result (CellReplaceFailed D.meaning body.now self.old self.new) }
        ensures arming { StaysArmed (D.meaning.state_of self.old.disk)
            (D.meaning.state_of self.new.disk) }
    {
        self.state = SlotState::Stopped;
        replace(&mut self.disk, place, sequence, body)?;
        self.state = SlotState::Holds { place, sequence };
        Ok(())
    }
}

impl<D: Disk> Cell for SlotCell<D> {
    ghost meaning = { slot_cell_meaning D.meaning };

    fn restart(&mut self) -> Result<Option<Body>, StoreFault>
        ensures found { IfOk result (Restarted ((slot_cell_meaning D.meaning).state_of self.old)
            ((slot_cell_meaning D.meaning).state_of self.new)) }
        ensures failed { IfErr result
            (RestartFailed ((slot_cell_meaning D.meaning).state_of self.old)
            ((slot_cell_meaning D.meaning).state_of self.new)) }
        ensures disarmed { (slot_cell_meaning D.meaning).disarmed self.new }
        ensures restored { LeavesChanged IsRestored (D.meaning.state_of self.old.disk)
            (D.meaning.state_of self.new.disk) }
    {
        self.state = SlotState::Stopped;
        let (state, kept) = recover(&mut self.disk)?;
        self.state = state;
        Ok(kept)
    }

    fn put(&mut self, body: &Body) -> Result<(), StoreFault>
        ensures kept { IfOk result
            (λ _. IsPut (slot_cell_meaning D.meaning) self.old self.new body.now) }
        ensures after_put { IfOk result
            (λ _. StandsAlone (D.meaning.state_of self.new.disk) body.now) }
        ensures next { OnOk result (IsPutNext D.meaning body.now self.old self.new) }
        ensures failed { IfErr result
            (PutFailed (slot_cell_meaning D.meaning) self.old self.new body.now) }
        ensures arming { StaysArmed (D.meaning.state_of self.old.disk)
            (D.meaning.state_of self.new.disk) }
    {
        match self.state {
            SlotState::Stopped => Err(StoreFault::Stopped),
            SlotState::Empty => self.replace(Place::First, 1, body),
            SlotState::Holds { place, sequence } => {
                if sequence == u64::MAX {
                    return Err(StoreFault::Worn);
                }
                self.replace(place.other(), sequence + 1, body)
            }
        }
    }

    fn arm(&mut self, steps: u32) {
        self.disk.arm(steps);
    }
}
