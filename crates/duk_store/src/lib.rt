//! What must outlive a stop: a cell for the one body of a terminal, and a log for the used numbers
//! of a host.
//!
//! A store is made stopped and brought up by a restart. What a restart may find is part of its
//! meaning: after a write that was acknowledged the new value alone, after one that failed the old
//! or the new. Every store counts its failures, so that no fault is answered without cause.
//!
//! A store stands in memory or on a disk. What a disk is to do, and what a stop may leave of it, is
//! part of the meaning of the trait `Disk`.
//!
//! A log on a disk is a list of items in the disk's records (`Records`). Others may be made of it:
//! items are appended in groups, and after a stop in the midst of an append a restart finds the old
//! list, or the old list and the whole group, and nothing else. How an item is written into a record
//! is a format's, and what is done with the items that a restart finds is a visitor's.
#![tactic(auto)]

mod cell;
mod device;
mod disk;
mod disk_device;
mod disk_log;
mod fault;
mod file_disk;
mod file_medium;
mod format;
mod group_steps;
pub mod laws;
mod log;
mod log_format;
mod medium;
mod medium_disk;
mod memory_cell;
mod memory_disk;
mod memory_log;
mod open_file;
mod put_steps;
mod read_ahead;
mod reading;
mod record_steps;
mod records;
mod recovery;
mod slot_cell;
mod slot_format;
mod slot_steps;
mod visitor;
mod window;

pub use cell::{BODY_LENGTH, Body, Cell};
pub use disk::Disk;
pub use disk_log::DiskLog;
pub use fault::StoreFault;
pub use file_disk::FileDisk;
pub use file_medium::FileMedium;
pub use format::{Format, OPEN};
pub use log::UsedLog;
pub use log_format::{LogFormat, RECORD_LENGTH};
pub use medium::Medium;
pub use medium_disk::MediumDisk;
pub use memory_cell::MemCell;
pub use memory_disk::{Filling, MemDisk};
pub use memory_log::MemLog;
pub use open_file::OpenFile;
pub use read_ahead::ReadAhead;
pub use records::Records;
pub use slot_cell::SlotCell;
pub use slot_format::CELL_DISK_SIZE;
pub use visitor::{NoVisitor, Visitor};
