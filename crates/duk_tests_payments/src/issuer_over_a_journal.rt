//! When a host over a journal asks its issuer: once for each payment that it accepts, before its
//! journal keeps the group; and else never, in any run.

use crate::hosts::{CUT, ELEVEN_ONES, NO_PIN, OF_501, OTHER_MAC, OTHER_SET};
use crate::issuer::Counting;
use crate::security_module::security_module;
use duk_frame::Frame;
use duk_host::HostFault;
use duk_journal::{DiskJournal, RECORD_LENGTH, journal_header};
use duk_journal_host::{Group, JournalHost};
use duk_store::{MemDisk, StoreFault};
use duk_tests_support::frames::{FIRST_REVERSAL, REQUEST_OF_500, SECOND_REQUEST, THIRD_REQUEST};
use std::alloc::Global;
use std::cell::Cell;

type CountedHost<'a> = JournalHost<16, DiskJournal<MemDisk>, Counting<'a>>;

/// A host that was brought up over a new journal with room for so many entries, and whose issuer
/// counts here.
fn counted_host(alloc: Global, room: u8, asked: &Cell<u32>) -> Option<CountedHost<'_>> {
    let hsm = security_module().ok()?;
    if !hsm.has_zone() {
        return None;
    }
    let header = journal_header(0);
    let size = RECORD_LENGTH * (1 + room as usize);
    let disk = MemDisk::with_front(alloc, header.as_slice(), size).ok()?;
    let journal = DiskJournal::new(alloc, disk).ok()?;
    let mut host = JournalHost::new(alloc, hsm, Counting { asked }, journal);
    host.restart().ok()?;
    Some(host)
}

fn frame_of(bytes: &[u8]) -> Option<Frame> {
    let mut frame = Frame::new();
    frame.try_extend_from_slice(bytes).ok()?;
    Some(frame)
}

/// What comes of a group of three frames.
fn answer(
    host: &mut CountedHost<'_>,
    group: &mut Group,
    frames: &[&[u8]; 3],
) -> Option<Result<(), HostFault>> {
    let frames = [
        frame_of(frames[0])?,
        frame_of(frames[1])?,
        frame_of(frames[2])?,
    ];
    Some(host.answer(&frames, group))
}

/// Groups in turn, over a journal with room for two entries, and how often the issuer was asked after
/// each: of what is refused for reasons 1, 2 and 4; of one that is accepted, the same once more, and
/// its number with another amount (reason 5); of a block of no PIN (code 30), that once more, and its
/// number with another block; and where the journal is full (reason 6). The host is restarted before
/// each.
static PAYMENTS: [([&[u8]; 3], u32); 5] = [
    ([CUT, OTHER_SET, OTHER_MAC], 0),
    ([REQUEST_OF_500, REQUEST_OF_500, OF_501], 1),
    ([NO_PIN, NO_PIN, SECOND_REQUEST], 1),
    ([REQUEST_OF_500, OF_501, NO_PIN], 1),
    ([THIRD_REQUEST, ELEVEN_ONES, REQUEST_OF_500], 1),
];

/// A payment that is reversed, twice, and comes again after that.
static REVERSED: [([&[u8]; 3], u32); 2] = [
    ([REQUEST_OF_500, FIRST_REVERSAL, FIRST_REVERSAL], 1),
    ([REQUEST_OF_500, FIRST_REVERSAL, OF_501], 1),
];

/// A reversal before its payment, which then comes late.
static REVERSED_FIRST: [([&[u8]; 3], u32); 2] = [
    ([FIRST_REVERSAL, REQUEST_OF_500, OF_501], 0),
    ([REQUEST_OF_500, FIRST_REVERSAL, REQUEST_OF_500], 0),
];

/// The first of these groups after which the issuer was asked more often or less.
fn asked_otherwise(alloc: Global, room: u8, groups: &[([&[u8]; 3], u32)]) -> Option<Option<usize>> {
    let asked = Cell::new(0);
    let mut host = counted_host(alloc, room, &asked)?;
    let mut group = Group::new(alloc).ok()?;
    for (place, (frames, count)) in groups.iter().enumerate() {
        host.restart().ok()?;
        answer(&mut host, &mut group, frames)?.ok()?;
        if asked.get() != *count {
            return Some(Some(place));
        }
    }
    Some(None)
}

#[test]
fn whom_the_issuer_is_asked_for_over_a_journal(rt: HostRuntime) {
    assert_eq!(rt; asked_otherwise(rt.alloc(), 2, &PAYMENTS), Some(None));
}

#[test]
fn no_reversal_asks_the_issuer(rt: HostRuntime) {
    assert_eq!(rt; asked_otherwise(rt.alloc(), 32, &REVERSED), Some(None));
    assert_eq!(rt;
        asked_otherwise(rt.alloc(), 32, &REVERSED_FIRST),
        Some(None)
    );
}

/// What comes of a group that the journal fails to keep, how often the issuer was asked, and how many
/// answers there are.
fn of_a_journal_that_fails(alloc: Global) -> Option<(Result<(), HostFault>, u32, usize)> {
    let asked = Cell::new(0);
    let mut host = counted_host(alloc, 2, &asked)?;
    let mut group = Group::new(alloc).ok()?;
    host.arm(0);
    let frames: [&[u8]; 3] = [REQUEST_OF_500, REQUEST_OF_500, CUT];
    let reported = answer(&mut host, &mut group, &frames)?;
    Some((reported, asked.get(), group.answers().len()))
}

/// What was decided is in the journal, so the issuer is asked before that; and where it fails nobody
/// is told.
#[test]
fn the_issuer_is_asked_before_the_journal(rt: HostRuntime) {
    let failed = Err(HostFault::Store(StoreFault::Device));
    assert_eq!(rt; of_a_journal_that_fails(rt.alloc()), Some((failed, 1, 0)));
}
