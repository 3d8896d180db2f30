//! The format of a cell's disk: its two slots, and which of them counts.

ghost use Rattle.std.specs.Prelude.{◌≡◌, ◌<◌, ◌^◌, length, IfErr, IfOk};
ghost use Rattle.duk_store.specs.SlotFormat.{other_than};
ghost use Rattle.duk_store.specs.inner.SlotFormat.{Says, contents_of as contents, commit_place, slot_in};
ghost use Rattle.duk_store.specs.inner.SlotChoice.{AreEquallyNew, IsCurrent};

use crate::cell::{BODY_LENGTH, Body};
use crate::fault::StoreFault;
use byteorder::{BigEndian, ByteOrder};
use std::cmp::Ordering;

/// The bytes of a slot: the commit byte, the sequence in 8 bytes, and the body.
pub const SLOT_LENGTH: usize = 512;

/// The bytes of a slot after its commit byte.
pub const CONTENTS_LENGTH: usize = 511;

/// The bytes of the disk under a cell: its two slots.
pub const CELL_DISK_SIZE: u64 = 1024;

/// The commit byte of a slot that is open. Every other value is that of a closed one.
pub const OPEN: u8 = 1;

/// The commit byte of a slot that was closed.
pub const CLOSED: u8 = 0;

/// Where a slot stands on its disk.
#[derive(Debug, Clone, Copy, PartialEq, Eq)]
pub enum Place {
    /// In the first half.
    First,
    /// In the second half.
    Second,
}

impl Place {
    /// Where the other slot stands.
    pub fn other(self) -> Place
        ensures { result ≡ other_than self }
    {
        match self {
            Place::First => Place::Second,
            Place::Second => Place::First,
        }
    }

    /// The place of its commit byte, in bytes.
    pub fn commit(self) -> u64
        ensures { result ≡ commit_place self }
    {
        match self {
            Place::First => 0,
            Place::Second => SLOT_LENGTH as u64,
        }
    }
}

/// What a cell knows of the slots of its disk.
#[derive(Clone, Copy)]
pub enum SlotState {
    /// Nothing: the cell is to be restarted.
    Stopped,
    /// Both slots are closed and zero.
    Empty,
    /// The slot at this place has the body and this sequence, and the other is closed and zero.
    Holds {
        /// Where the slot stands.
        place: Place,
        /// Its sequence.
        sequence: u64,
    },
}

/// What a slot says.
#[derive(Clone, Copy)]
pub struct Slot {
    /// Whether it is open.
    pub is_open: bool,
    /// Its sequence, which is greater in the newer of two open slots.
    pub sequence: u64,
    /// Its body.
    pub body: Body,
}

impl Slot {
    /// What the bytes of a slot say.
    pub fn of_bytes(bytes: &[u8; SLOT_LENGTH]) -> Slot
        ensures { Says bytes.now result }
    {
        let mut body = [0; BODY_LENGTH];
        body.copy_from_slice(&bytes[9..]);
        Slot {
            is_open: bytes[0] == OPEN,
            sequence: BigEndian::read_u64(&bytes[1..]),
            body,
        }
    }
}

/// The slots of a disk.
#[derive(Clone, Copy)]
pub struct Slots {
    /// That in the first half.
    pub first: Slot,
    /// That in the second half.
    pub second: Slot,
}

impl Slots {
    /// The slot at a place.
    pub fn at(&self, place: Place) -> &Slot
        ensures { result.now ≡ slot_in place self.now }
    {
        match place {
            Place::First => &self.first,
            Place::Second => &self.second,
        }
    }

    /// Where the slot stands that counts: the open one, or the open one of greater sequence.
    ///
    /// Refused with `Damaged` where both are open and their sequences are equal.
    pub fn current(&self) -> Result<Option<Place>, StoreFault>
        ensures current { IfOk result (IsCurrent self.now) }
        ensures damaged { IfErr result (λ fault. (fault ≡ StoreFault.Damaged)
            × AreEquallyNew self.now) }
    {
        match (self.first.is_open, self.second.is_open) {
            (false, false) => Ok(None),
            (true, false) => Ok(Some(Place::First)),
            (false, true) => Ok(Some(Place::Second)),
            (true, true) => match self.first.sequence.cmp(&self.second.sequence) {
                Ordering::Less => Ok(Some(Place::Second)),
                Ordering::Greater => Ok(Some(Place::First)),
                Ordering::Equal => Err(StoreFault::Damaged),
            },
        }
    }
}

/// The bytes after the commit byte of a slot with this sequence and this body.
pub fn contents_of(sequence: u64, body: &Body) -> [u8; CONTENTS_LENGTH]
    ensures contents { result ≡ contents sequence body.now }
    ensures length { length result ≡ 511 }
{
    let mut contents = [0; CONTENTS_LENGTH];
    BigEndian::write_u64(&mut contents, sequence);
    contents[8..].copy_from_slice(body);
    contents
}
