//! Readers that give little at a time, writers that take little, and both where one call fails.

use std::alloc::Global;
use std::io;
use std::io::{ErrorKind, Read, Write};

/// A reader of a byte at a time, of which one read fails; later ones go on.
#[derive(Drop)]
pub struct Drip<'a> {
    left: &'a [u8],
    reads: usize,
    fails_at: usize,
    kind: ErrorKind,
}

impl<'a> Drip<'a> {
    /// One whose read after so many others fails like this.
    pub fn failing(left: &'a [u8], fails_at: usize, kind: ErrorKind) -> Self {
        Drip {
            left,
            reads: 0,
            fails_at,
            kind,
        }
    }
}

impl Read for Drip<'_> {
    fn read(&mut self, buffer: &mut [u8]) -> io::Result<usize> {
        let read = self.reads;
        self.reads = self.reads.saturating_add(1);
        if read == self.fails_at {
            return Err(io::Error::from(self.kind));
        }
        let most = buffer.len().min(1);
        Read::read(&mut self.left, &mut buffer[..most])
    }
}

/// How a write goes wrong.
#[derive(Clone, Copy)]
pub enum Wrong {
    Fails(ErrorKind),
    TakesNone,
}

/// A writer of at most so many bytes at a time, of which one write goes wrong; later ones go on.
#[derive(Drop)]
pub struct Tap {
    held: Vec<u8>,
    most: usize,
    writes: usize,
    wrong_at: usize,
    wrong: Wrong,
}

impl Tap {
    /// One whose write after so many others goes wrong like this.
    pub fn failing(alloc: Global, most: usize, wrong_at: usize, wrong: Wrong) -> Self {
        Tap {
            held: Vec::new(alloc),
            most,
            writes: 0,
            wrong_at,
            wrong,
        }
    }

    /// What was written.
    pub fn written(&self) -> &[u8] {
        self.held.as_slice()
    }
}

impl Write for Tap {
    fn write(&mut self, bytes: &[u8]) -> io::Result<usize> {
        let write = self.writes;
        self.writes = self.writes.saturating_add(1);
        if write == self.wrong_at {
            return match self.wrong {
                Wrong::Fails(kind) => Err(io::Error::from(kind)),
                Wrong::TakesNone => Ok(0),
            };
        }
        let taken = self.most.min(bytes.len());
        self.held.extend_from_slice(&bytes[..taken])?;
        Ok(taken)
    }

    fn flush(&mut self) -> io::Result<()> {
        Ok(())
    }
}
