//! Streams that hold what is written to them.

use std::io;
use std::io::Write;

/// A writer that holds back what it is given, up to its room, until it is flushed.
#[derive(Drop)]
pub struct Holding {
    pub held: Vec<u8>,
    /// How many of these bytes were handed on by the last flush.
    pub handed_on: usize,
}

impl Write for Holding {
    fn write(&mut self, bytes: &[u8]) -> io::Result<usize> {
        self.held.extend_from_slice(bytes)?;
        Ok(bytes.len())
    }

    fn flush(&mut self) -> io::Result<()> {
        self.handed_on = self.held.len();
        Ok(())
    }
}
