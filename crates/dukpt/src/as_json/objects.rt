//! The lines of a command, as objects.

ghost use Rattle.std.specs.Prelude.{◌≡◌, ◌++◌, [], OnOk, map};
ghost use Rattle.dukpt.specs.inner.Members.{member_of};
ghost use Rattle.dukpt.specs.inner.Objects.{AddsObjects, answer_line};

use crate::as_json::answer::Answer;
use crate::as_json::names::{may_come_again, named};
use crate::as_json::object::push_object;
use duk_program::Shape;
use std::alloc::{AllocError, Global};
use std::{mem, str};

/// The fault of an item that nothing explains.
const NO_ITEM: &str = "line refused";

/// The objects of a command's answers, while its lines come.
#[derive(Drop)]
pub(crate) struct Objects {
    alloc: Global,
    shape: Shape,
    /// Whether the fault of an item is explained.
    explain: bool,
    /// The front of a line that has not ended.
    line: Vec<u8>,
    /// The answer that has not ended.
    answer: Answer,
    /// Whether the next line explains the fault that the answer is.
    is_explained: bool,
    /// The objects of answers that have ended.
    ready: Vec<u8>,
}

impl Objects {
    /// The objects of answers of a shape.
    pub(crate) fn new(alloc: Global, shape: Shape, explain: bool) -> Self
        ensures { result.ready.items ≡ [] }
    {
        Objects {
            alloc,
            shape,
            explain,
            line: Vec::new(alloc),
            answer: Answer::new(alloc),
            is_explained: false,
            ready: Vec::new(alloc),
        }
    }

    /// Whether lines make objects.
    pub(crate) fn are_made(&self) -> bool {
        match self.shape {
            Shape::Text => false,
            _ => true,
        }
    }

    /// The objects that are ready.
    pub(crate) fn ready(&self) -> &[u8]
        ensures { result.now ≡ self.now.ready.items }
    {
        self.ready.as_slice()
    }

    /// Lets the objects go that are ready.
    pub(crate) fn clear_ready(&mut self)
        ensures { self.new.ready.items ≡ [] }
    {
        self.ready.clear();
    }

    /// Lets all go.
    pub(crate) fn clear(&mut self)
        ensures { self.new.ready.items ≡ [] }
    {
        self.line.clear();
        self.answer.clear();
        self.is_explained = false;
        self.ready.clear();
    }

    /// Takes what one write gives. The answers to items end with it, as a write has whole ones.
    pub(crate) fn take(&mut self, bytes: &[u8]) -> Result<(), AllocError>
        ensures { OnOk result (AddsObjects self.old.ready.items self.new.ready.items) }
    {
        for piece in bytes.split_inclusive(|byte| *byte == b'\n') {
            self.take_piece(piece)?;
        }
        match self.shape {
            Shape::Items(_) if self.line.is_empty() && !self.is_explained => self.end_answer(),
            _ => Ok(()),
        }
    }

    /// Takes the end of all lines: of the answer, and of a last line that lacks its end.
    pub(crate) fn end(&mut self) -> Result<(), AllocError>
        ensures { OnOk result (AddsObjects self.old.ready.items self.new.ready.items) }
    {
        self.end_line()?;
        self.end_answer()
    }

    /// Takes bytes of a line, the last of which may be its end.
    fn take_piece(&mut self, piece: &[u8]) -> Result<(), AllocError>
        ensures { OnOk result (AddsObjects self.old.ready.items self.new.ready.items) }
    {
        match piece.strip_suffix(b"\n") {
            Some(line) if self.line.is_empty() => self.take_bytes(line),
            Some(end) => {
                self.line.extend_from_slice(end)?;
                self.end_line()
            }
            None => self.line.extend_from_slice(piece),
        }
    }

    /// Takes the line that has come in pieces, if one has.
    fn end_line(&mut self) -> Result<(), AllocError>
        ensures { OnOk result (AddsObjects self.old.ready.items self.new.ready.items) }
    {
        if self.line.is_empty() {
            return Ok(());
        }
        let line = mem::replace(&mut self.line, Vec::new(self.alloc));
        self.take_bytes(line.as_slice())
    }

    /// Takes the bytes of a line. What is not UTF-8 in them is replaced.
    fn take_bytes(&mut self, line: &[u8]) -> Result<(), AllocError>
        ensures { OnOk result (AddsObjects self.old.ready.items self.new.ready.items) }
    {
        match str::from_utf8(line) {
            Ok(line) => self.take_line(line),
            Err(_) => {
                let line = String::from_utf8_lossy(self.alloc, line)?;
                self.take_line(line.as_str())
            }
        }
    }

    /// Takes a line.
    fn take_line(&mut self, line: &str) -> Result<(), AllocError>
        ensures { OnOk result (AddsObjects self.old.ready.items self.new.ready.items) }
    {
        match self.shape {
            Shape::Text => Ok(()),
            Shape::Whole => self.say_line(line),
            Shape::Bare(name) => self.answer.say(name, line),
            Shape::Numbers => self.say_number(line),
            Shape::Issued => self.say_issued(line),
            Shape::Items(_) if self.is_explained => self.explain(line),
            Shape::Items(names) if is_fault(names, line) => self.say_fault(line),
            Shape::Items(_) => self.say_line_of_item(line),
        }
    }

    /// Says a line that begins with its name.
    fn say_line(&mut self, line: &str) -> Result<(), AllocError>
        ensures { OnOk result (AddsObjects self.old.ready.items self.new.ready.items) }
    {
        let (name, text) = named(line);
        self.answer.say(name, text)
    }

    /// Says a line of an item, which is another one where the answer has the name already.
    fn say_line_of_item(&mut self, line: &str) -> Result<(), AllocError>
        ensures { OnOk result (AddsObjects self.old.ready.items self.new.ready.items) }
    {
        let (name, text) = named(line);
        if self.answer.has(name) && !(may_come_again(name) && self.answer.ends_with(name)) {
            self.end_answer()?;
        }
        self.answer.say(name, text)
    }

    /// Says that an item is refused, and that alone where no line explains it.
    fn say_fault(&mut self, line: &str) -> Result<(), AllocError>
        ensures { OnOk result (AddsObjects self.old.ready.items self.new.ready.items) }
    {
        self.end_answer()?;
        self.answer.say("fault", line)?;
        if self.explain && line != NO_ITEM {
            self.is_explained = true;
            return Ok(());
        }
        self.end_answer()
    }

    /// Says why the item is refused that was the last.
    fn explain(&mut self, line: &str) -> Result<(), AllocError>
        ensures { OnOk result (AddsObjects self.old.ready.items self.new.ready.items) }
    {
        self.is_explained = false;
        self.answer.say("explanation", line)?;
        self.end_answer()
    }

    /// Says a number, with its key where there is one, or that none is left.
    fn say_number(&mut self, line: &str) -> Result<(), AllocError>
        ensures { OnOk result (AddsObjects self.old.ready.items self.new.ready.items) }
    {
        match line.split_once(' ') {
            Some((number, key)) => {
                self.answer.say("ksn", number)?;
                self.answer.say("key", key)?;
            }
            None if line == "spent" => self.answer.say(line, "")?,
            None => self.answer.say("ksn", line)?,
        }
        self.end_answer()
    }

    /// Says a number that is issued, the key block of its key and the check value.
    fn say_issued(&mut self, line: &str) -> Result<(), AllocError>
        ensures { OnOk result (AddsObjects self.old.ready.items self.new.ready.items) }
    {
        let (_, issued) = named(line);
        let (number, loaded) = named(issued);
        let (block, value) = named(loaded);
        self.answer.say("iksn", number)?;
        self.answer.say("block", block)?;
        self.answer.say("kcv", value)?;
        self.end_answer()
    }

    /// Ends the answer, where it says anything: its object is ready.
    fn end_answer(&mut self) -> Result<(), AllocError>
        ensures ready { OnOk result (self.new.ready.items ≡ self.old.ready.items
            ++ answer_line (map member_of self.old.answer.members.items)) }
        ensures ended { OnOk result (self.new.answer.members.items ≡ []) }
        ensures added { OnOk result (AddsObjects self.old.ready.items self.new.ready.items) }
    {
        if self.answer.is_empty() {
            return Ok(());
        }
        push_object(self.alloc, &mut self.ready, &self.answer)?;
        self.answer.clear();
        Ok(())
    }
}

/// Whether a line is that of an item's fault: it begins with none of the names, or with one of them
/// as `frame refused at 0: Hex` does.
fn is_fault(names: &[&str], line: &str) -> bool {
    let (name, text) = named(line);
    text.starts_with("refused at ") || !names.iter().any(|own| *own == name)
}
