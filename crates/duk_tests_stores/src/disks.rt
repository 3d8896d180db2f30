//! Disks in memory: what they hold and what a restart leaves, worked out by hand.

use duk_store::{Disk, Filling, MemDisk, StoreFault};
use std::alloc::Global;
use std::test::Fail;

/// A call of a disk of four bytes.
#[derive(Clone, Copy)]
enum DiskCall {
    /// Writes this byte at this place below four.
    Write(u8, u8),
    Sync,
    /// Lets the next device step fail.
    FailNext,
    /// Restarts, and leaves this of what was not synced.
    Restart(Filling),
}

use self::DiskCall::{FailNext, Restart, Sync, Write};

/// Makes a call, whether it fails or not.
fn make(disk: &mut MemDisk, call: DiskCall) {
    let _ = match call {
        Write(at, byte) if at < 4 && disk.size() == 4 => disk.write_at(u64::from(at), &[byte]),
        Write(_, _) => Ok(()),
        Sync => disk.sync(),
        FailNext => {
            disk.fail_once(0);
            Ok(())
        }
        Restart(filling) => {
            disk.filling(filling);
            disk.restart()
        }
    };
}

/// What a new disk of four bytes holds after these calls.
fn held_after(alloc: Global, calls: &[DiskCall]) -> Result<[u8; 4], StoreFault> {
    let mut disk = MemDisk::new(alloc, 4)?;
    for call in calls {
        make(&mut disk, *call);
    }
    let mut bytes = [0; 4];
    if disk.size() == 4 {
        disk.read_at(0, &mut bytes)?;
    }
    Ok(bytes)
}

const OLD: DiskCall = Restart(Filling::Old);

const NEW: DiskCall = Restart(Filling::New);

const FILL: DiskCall = Restart(Filling::Fill(0x5A));

/// Calls, and what the disk holds then. A write that fails leaves what a read gives, and its range
/// counts as written since the last sync; New means the bytes that were to be written. What a
/// restart leaves is not synced: a further one may leave something else.
static HELD: [(&[DiskCall], [u8; 4]); 15] = [
    (&[], [0, 0, 0, 0]),
    (&[Write(1, 7), Write(3, 8)], [0, 7, 0, 8]),
    (&[Write(1, 7), OLD], [0, 0, 0, 0]),
    (&[Write(1, 7), NEW], [0, 7, 0, 0]),
    (&[Write(1, 7), FILL], [0, 0x5A, 0, 0]),
    (&[Write(1, 7), Sync, FILL], [0, 7, 0, 0]),
    (&[Write(1, 7), FailNext, Sync, FILL], [0, 0x5A, 0, 0]),
    (&[FailNext, Write(1, 7)], [0, 0, 0, 0]),
    (&[FailNext, Write(1, 7), NEW], [0, 7, 0, 0]),
    (&[FailNext, Write(1, 7), FILL], [0, 0x5A, 0, 0]),
    (&[FailNext, Write(1, 7), Sync, NEW], [0, 0, 0, 0]),
    (&[Write(1, 7), FailNext, Write(1, 8), NEW], [0, 8, 0, 0]),
    (&[Write(1, 7), FILL, OLD], [0, 0, 0, 0]),
    (&[Write(1, 7), FILL, OLD, NEW], [0, 7, 0, 0]),
    (&[Write(1, 7), FILL, Sync, OLD], [0, 0x5A, 0, 0]),
];

#[test]
fn what_is_held(rt: HostRuntime) -> Result<(), Fail> {
    for (calls, bytes) in &HELD {
        assert_eq!(rt; held_after(rt.alloc(), calls)?, *bytes);
    }
    Ok(())
}
