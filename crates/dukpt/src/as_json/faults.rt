//! What a command says on standard error, as objects.

use crate::as_json::answer::Answer;
use crate::as_json::notes::is_note;
use crate::as_json::object::push_object;
use std::alloc::{AllocError, Global};
use std::io::{self, Write};
use std::mem;

/// What stands in the place of an object for which there is no memory.
const NO_MEMORY: &[u8] = b"{\"fault\":\"out of memory\"}\n";

/// A stream that takes what a command says on standard error: it writes an object for each note at
/// once, and one for all else when the command is done. Where none are made, it writes what it takes.
#[derive(Drop)]
pub(crate) struct Faults<W> {
    alloc: Global,
    /// Whether objects are made.
    are_made: bool,
    /// What was said, but for notes.
    said: Vec<u8>,
    stream: W,
}

impl<W: Write> Faults<W> {
    /// The faults over a stream, as objects where they are to be made.
    pub(crate) fn new(alloc: Global, are_made: bool, stream: W) -> Self {
        Faults {
            alloc,
            are_made,
            said: Vec::new(alloc),
            stream,
        }
    }

    /// Writes the object of what was said, when the command has ended with a status. What cannot be
    /// written is lost.
    pub(crate) fn finish(&mut self, status: u8) {
        let is_done = status == 0 || status == 3;
        if !self.are_made || (is_done && self.said.is_empty()) {
            return;
        }
        let _ = match said_object(self.alloc, status, self.said.as_slice()) {
            Ok(object) => self.stream.write_all(object.as_slice()),
            Err(AllocError) => self.stream.write_all(NO_MEMORY),
        };
        self.said.clear();
    }

    /// Takes what is said, and writes what is a note.
    fn take(&mut self, bytes: &[u8]) -> io::Result<()> {
        for piece in bytes.split_inclusive(|byte| *byte == b'\n') {
            self.said.extend_from_slice(piece)?;
            if is_note(self.said.as_slice()) {
                self.write_note()?;
            }
        }
        Ok(())
    }

    /// Writes the note that was said.
    fn write_note(&mut self) -> io::Result<()> {
        let note = mem::replace(&mut self.said, Vec::new(self.alloc));
        let object = note_object(self.alloc, note.as_slice())?;
        self.stream.write_all(object.as_slice())
    }
}

impl<W: Write> Write for Faults<W> {
    fn write(&mut self, bytes: &[u8]) -> io::Result<usize> {
        if !self.are_made {
            return self.stream.write(bytes);
        }
        self.take(bytes)?;
        Ok(bytes.len())
    }

    fn flush(&mut self) -> io::Result<()> {
        self.stream.flush()
    }
}

/// The object of a note.
fn note_object(alloc: Global, note: &[u8]) -> Result<Vec<u8>, AllocError> {
    let note = String::from_utf8_lossy(alloc, note)?;
    let mut answer = Answer::new(alloc);
    answer.say("note", without_end(note.as_str()))?;
    object_of(alloc, &answer)
}

/// The object of what a command with this status has said: why its arguments are refused, or its
/// fault, and behind that the line that explains it, where there is one.
fn said_object(alloc: Global, status: u8, said: &[u8]) -> Result<Vec<u8>, AllocError> {
    if said.is_empty() {
        // There was no memory for it.
        return Err(AllocError);
    }
    let said = String::from_utf8_lossy(alloc, said)?;
    let text = without_end(said.as_str());
    let mut answer = Answer::new(alloc);
    match text.split_once('\n') {
        _ if status == 2 => answer.say("refused", text)?,
        Some((line, explanation)) => {
            answer.say("fault", line)?;
            answer.say("explanation", explanation)?;
        }
        None => answer.say("fault", text)?,
    }
    object_of(alloc, &answer)
}

/// The object of an answer.
fn object_of(alloc: Global, answer: &Answer) -> Result<Vec<u8>, AllocError> {
    let mut object = Vec::new(alloc);
    push_object(alloc, &mut object, answer)?;
    Ok(object)
}

/// A text without its last LF.
fn without_end(text: &str) -> &str {
    text.strip_suffix('\n').unwrap_or(text)
}
