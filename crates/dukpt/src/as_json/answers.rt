//! The output of a command, as answers.

ghost use Rattle.std.specs.Prelude.{◌≡◌, [], OnOk};
ghost use Rattle.std.specs.Io.KnownBytes.{Appends};

use crate::as_json::objects::Objects;
use duk_program::Shape;
use std::alloc::{AllocError, Global};
use std::io::{self, Write};

/// A stream that takes the lines of a command, and writes an object for each answer. Where they make
/// none, it writes what it takes.
///
/// An answer that ends with its lines is written before the write that gave them returns; one that is
/// all lines is written by a flush. What could not be written is let go.
#[derive(Drop)]
pub(crate) struct Answers<W> {
    objects: Objects,
    stream: W,
}

impl<W: Write> Answers<W> {
    /// The answers of a shape, over a stream. With `explain` the fault of an item is explained.
    pub(crate) fn new(alloc: Global, shape: Shape, explain: bool, stream: W) -> Self {
        Answers {
            objects: Objects::new(alloc, shape, explain),
            stream,
        }
    }

    /// Writes the objects that are ready, if what came before went well.
    fn hand_on(&mut self, taken: Result<(), AllocError>) -> io::Result<()>
        ensures written { OnOk result (Appends (W.contents self.old.stream)
            (W.contents self.new.stream) self.old.objects.ready.items) }
        ensures handed_on { self.new.objects.ready.items ≡ [] }
    {
        let written = match taken {
            Ok(()) => self.stream.write_all(self.objects.ready()),
            Err(why) => Err(io::Error::from(why)),
        };
        match written {
            Ok(()) => self.objects.clear_ready(),
            Err(_) => self.objects.clear(),
        }
        written
    }
}

impl<W: Write> Write for Answers<W> {
    fn write(&mut self, bytes: &[u8]) -> io::Result<usize> {
        if !self.objects.are_made() {
            return self.stream.write(bytes);
        }
        let taken = self.objects.take(bytes);
        self.hand_on(taken)?;
        Ok(bytes.len())
    }

    fn flush(&mut self) -> io::Result<()> {
        let ended = self.objects.end();
        self.hand_on(ended)?;
        self.stream.flush()
    }
}
