//! Readers that give little at a time and writers that take little, of which a later call may fail.

use crate::texts::{Reported, bytes, done, number, with_bytes};
use crate::trouble::Trouble;
use duk_script::run_script;
use std::alloc::Global;
use std::io;
use std::io::{ErrorKind, Read, Write};

/// A reader of at most so many bytes at a time, of which the call after so many fails.
#[derive(Drop)]
pub struct Drip<'a> {
    left: &'a [u8],
    most: usize,
    passes: u32,
}

impl Read for Drip<'_> {
    fn read(&mut self, buffer: &mut [u8]) -> io::Result<usize> {
        pass(&mut self.passes)?;
        let most = self.most.min(buffer.len());
        Read::read(&mut self.left, &mut buffer[..most])
    }
}

/// A writer of at most so many bytes at a time, of which the call after so many fails.
#[derive(Drop)]
pub struct Tap {
    pub held: Vec<u8>,
    most: usize,
    passes: u32,
}

impl Write for Tap {
    fn write(&mut self, bytes: &[u8]) -> io::Result<usize> {
        pass(&mut self.passes)?;
        let taken = self.most.min(bytes.len());
        self.held.extend_from_slice(&bytes[..taken])?;
        Ok(taken)
    }

    fn flush(&mut self) -> io::Result<()> {
        Ok(())
    }
}

/// A call passes, or fails where so many before it have passed.
fn pass(passes: &mut u32) -> io::Result<()> {
    match passes.checked_sub(1) {
        Some(left) => {
            *passes = left;
            Ok(())
        }
        None => {
            *passes = u32::MAX;
            Err(io::Error::from(ErrorKind::Interrupted))
        }
    }
}

/// A reader of these bytes and a writer, by the tokens of a step: the most bytes at a time, and how
/// many reads and writes pass.
pub fn streams_of<'a>(
    alloc: Global,
    most: &str,
    reads: &str,
    writes: &str,
    left: &'a [u8],
) -> Result<(Drip<'a>, Tap), Trouble> {
    let most = number(most)? as usize;
    let reader = Drip {
        left,
        most,
        passes: number(reads)?,
    };
    let writer = Tap {
        held: Vec::new(alloc),
        most,
        passes: number(writes)?,
    };
    Ok((reader, writer))
}

/// Runs a script, and reports the fault, if one came, and then what was written.
pub fn play(alloc: Global, config: &[u8], step: &str) -> Reported {
    let tokens: Vec<&str> = step.split(' ').collect(alloc)?;
    let [most, reads, writes, script] = tokens.as_slice() else {
        return Err(Trouble::NotAStep);
    };
    let script = bytes(alloc, script)?;
    let (mut reader, mut writer) = streams_of(alloc, most, reads, writes, script.as_slice())?;
    let reported = match run_script(alloc, config, &mut reader, &mut writer) {
        Ok(()) => done(alloc, "played")?,
        Err(why) => format!(in alloc; "{why};")?,
    };
    with_bytes(alloc, reported.as_str(), writer.held.as_slice())
}
