//! A file that is read ahead: which reads of the file below it come of its calls.

ghost use Rattle.std.specs.Prelude.{⊤};
ghost use Rattle.duk_store.specs.Medium.{unknown_medium};

use duk_store::{OpenFile, ReadAhead};
use std::cell::Cell;
use std::io;

/// How many bytes the file has: more than are read at once.
const SIZE: u64 = 5000;

/// A place behind the file.
const NOWHERE: u64 = 9999;

/// How many reads of the file there were, and the place and the count of the last one.
#[derive(Clone, Copy, Debug, PartialEq, Eq)]
struct Reads {
    count: u32,
    last: (u64, usize),
}

/// A file whose every byte is its place modulo 251. It reports nothing of itself.
#[derive(Drop)]
struct NotedFile<'a> {
    reads: &'a Cell<Reads>,
    /// A read of this byte fails.
    bad_place: u64,
}

impl<'a> OpenFile for NotedFile<'a> {
    ghost state = { λ _. unknown_medium };

    ghost has_length = { λ _ _. ⊤ };

    ghost reads_may_stay = { λ _ honest. honest };

    ghost leaves_its_size = { λ _ honest bytes could. absurd honest };

    fn read_range(&mut self, at: u64, bytes: &mut [u8]) -> io::Result<()> {
        self.reads.set(Reads {
            count: self.reads.get().count.wrapping_add(1),
            last: (at, bytes.len()),
        });
        for place in 0..bytes.len() {
            let here = at.wrapping_add(place as u64);
            if here == self.bad_place {
                return Err(io::Error::from(io::ErrorKind::Other));
            }
            bytes[place] = (here % 251) as u8;
        }
        Ok(())
    }

    fn write_range(&mut self, _at: u64, _bytes: &[u8]) -> io::Result<()> {
        Ok(())
    }

    fn sync_writes(&mut self) -> io::Result<()> {
        Ok(())
    }

    fn length(&self) -> io::Result<u64> {
        Ok(SIZE)
    }
}

/// A call of the file that is read ahead.
#[derive(Clone, Copy)]
enum Call {
    /// Of 16 bytes from this place on.
    Read(u64),
    /// Of 4,096 bytes from this place on.
    ReadMany(u64),
    Write,
    Sync,
}

/// Whether a read into all of these bytes passes, and gives the byte of its place.
fn reads_right(file: &mut ReadAhead<NotedFile<'_>>, at: u64, bytes: &mut [u8]) -> bool {
    let passed = file.read_range(at, bytes).is_ok();
    passed && bytes.first() == Some(&((at % 251) as u8))
}

fn passes(file: &mut ReadAhead<NotedFile<'_>>, call: Call) -> bool {
    match call {
        Call::Read(at) => reads_right(file, at, &mut [0; 16]),
        Call::ReadMany(at) => reads_right(file, at, &mut [0; 4096]),
        Call::Write => file.write_range(0, &[1]).is_ok(),
        Call::Sync => file.sync_writes().is_ok(),
    }
}

/// What is read of a file for these calls, where all pass.
fn reads_for(calls: &[Call], bad_place: u64) -> Option<Reads> {
    let reads = Cell::new(Reads {
        count: 0,
        last: (0, 0),
    });
    let file = NotedFile {
        reads: &reads,
        bad_place,
    };
    let mut file = ReadAhead::over(file, SIZE);
    for call in calls {
        if !passes(&mut file, *call) {
            return None;
        }
    }
    Some(reads.get())
}

fn reads_of(count: u32, at: u64, length: usize) -> Option<Reads> {
    Some(Reads {
        count,
        last: (at, length),
    })
}

/// One read serves all short ones within 4,096 bytes of its place, up to the last byte.
#[test]
fn short_reads(rt: HostRuntime) {
    let calls = [Call::Read(0), Call::Read(16), Call::Read(4080)];
    assert_eq!(rt; reads_for(&calls, NOWHERE), reads_of(1, 0, 4096));
    let calls = [Call::Read(0), Call::Read(4081), Call::Read(4984)];
    assert_eq!(rt; reads_for(&calls, NOWHERE), reads_of(2, 4081, 919));
}

/// A read of so many bytes is one of its own.
#[test]
fn long_reads(rt: HostRuntime) {
    let calls = [Call::ReadMany(0), Call::ReadMany(16)];
    assert_eq!(rt; reads_for(&calls, NOWHERE), reads_of(2, 16, 4096));
}

/// Nothing that was read is given after a write or a sync.
#[test]
fn reads_after_a_change(rt: HostRuntime) {
    let calls = [Call::Read(0), Call::Write, Call::Read(16)];
    assert_eq!(rt; reads_for(&calls, NOWHERE), reads_of(2, 16, 4096));
    let calls = [Call::Read(0), Call::Sync, Call::Read(16)];
    assert_eq!(rt; reads_for(&calls, NOWHERE), reads_of(2, 16, 4096));
}

/// Where the bytes ahead cannot be read, those that were asked for are read alone; where these
/// cannot be read, the read fails.
#[test]
fn reads_before_a_bad_place(rt: HostRuntime) {
    assert_eq!(rt; reads_for(&[Call::Read(0)], 100), reads_of(2, 0, 16));
    assert_eq!(rt; reads_for(&[Call::Read(90)], 100), None);
}
