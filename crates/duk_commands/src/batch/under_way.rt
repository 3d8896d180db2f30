//! The lines of an input in turn, however its bytes come.

ghost use Rattle.std.specs.Prelude.{◌≡◌, ◌+◌, ◌≤◌, ◌++◌, ◌∷◌, [], true, ℕ, List, OnErr, OnOk, take};
ghost use Rattle.arrayvec.specs.ArrayVec.{array_vec_len};
ghost use Rattle.std.specs.Str.Lines.{lines};
ghost use Rattle.duk_io.specs.Known.{Known};
ghost use Rattle.duk_io.specs.Sink.{IsCut};
ghost use Rattle.duk_commands.specs.inner.Batch.{AreAnswered, IsCutOff, IsPushed, IsToldOf, IsUnderWay, answer_text};

use crate::batch::answer::{Answer, answer_line};
use crate::batch::item::{LONGEST_ITEM, strip_return};
use crate::batch::items::Items;
use crate::batch::kept::Kept;
use crate::lines::Lines;
use arrayvec::ArrayVec;
use duk_io::{BUFFER_ROOM, Buffer, Sink, WriteFailed, make_room, write_out};
use std::alloc::Global;

/// How many bytes of a line are kept: an item's, a CR, and one more, which tells that the line is
/// too long.
const LINE_ROOM: usize = LONGEST_ITEM + 2;

/// The front of a line.
type Line = ArrayVec<u8, LINE_ROOM>;

/// A batch under way.
#[derive(Drop)]
pub(crate) struct Batch {
    /// The front of the line that has not ended yet.
    pub(crate) line: Line,
    /// Answers that are not written yet.
    pub(crate) answers: Buffer,
    /// Whether the command was done for each line that has ended.
    pub(crate) done: bool,
    /// What the items have left.
    pub(crate) kept: Kept,
}

impl Batch {
    /// A batch of which no byte has come yet.
    pub(crate) fn new() -> Self
        ensures line { result.line.items ≡ [] }
        ensures answers { result.answers.items ≡ [] }
        ensures done { result.done ≡ true }
    {
        Batch {
            line: Line::new(),
            answers: Buffer::new(),
            done: true,
            kept: Kept::new(),
        }
    }

    /// Takes the next bytes, and writes the answers to the lines that end in them.
    pub(crate) fn take_piece<I: Items, W: Sink>(
        &mut self,
        alloc: Global,
        items: &I,
        piece: &[u8],
        output: &mut W,
    ) -> Result<(), WriteFailed>
        ensures goes_on { (bytes : List ℕ) (before : Known)
            → IsUnderWay (I.command items.now) bytes self.old.line.items self.old.done
            self.old.answers.items before (W.known output.old)
            → OnOk result (IsUnderWay (I.command items.now) (bytes ++ piece.now)
            self.new.line.items self.new.done [] before (W.known output.new)) }
        ensures written { OnOk result (self.new.answers.items ≡ []) }
        ensures cut { (bytes : List ℕ) (before : Known)
            → IsUnderWay (I.command items.now) bytes self.old.line.items self.old.done
            self.old.answers.items before (W.known output.old)
            → OnErr result (IsCutOff (I.command items.now) (bytes ++ piece.now) before
            (W.known output.new)) }
    {
        duk_io::laws::writes();
        for (i, byte) in piece.iter().enumerate() {
            self.take(alloc, items, *byte, &piece[i + 1..], output)?;
        }
        write_out(&mut self.answers, output)
    }

    /// Takes the next byte, and answers the line that ends with it. `ahead` are the bytes behind it.
    fn take<I: Items, W: Sink>(
        &mut self,
        alloc: Global,
        items: &I,
        byte: u8,
        ahead: &[u8],
        output: &mut W,
    ) -> Result<(), WriteFailed>
        ensures goes_on { (bytes : List ℕ) (before : Known)
            → IsUnderWay (I.command items.now) bytes self.old.line.items self.old.done
            self.old.answers.items before (W.known output.old)
            → OnOk result (IsUnderWay (I.command items.now) (bytes ++ byte ∷ [])
            self.new.line.items self.new.done self.new.answers.items before
            (W.known output.new)) }
        ensures cut { (bytes : List ℕ) (before : Known)
            → IsUnderWay (I.command items.now) bytes self.old.line.items self.old.done
            self.old.answers.items before (W.known output.old)
            → OnErr result (IsCutOff (I.command items.now) bytes before (W.known output.new)) }
    {
        duk_io::laws::writes();
        if byte != b'\n' {
            keep(&mut self.line, byte);
            return Ok(());
        }
        let line = strip_return(self.line.as_slice());
        let answer = answer_line(alloc, items, line, ahead, &mut self.kept);
        push_answer(&mut self.answers, &answer, output)?;
        self.done &= answer.done;
        self.line.clear();
        Ok(())
    }

    /// Writes what is not written yet when the input has ended, and gives whether the command was
    /// done for each line.
    pub(crate) fn end<I: Items, W: Sink>(
        mut self,
        alloc: Global,
        items: &I,
        output: &mut W,
    ) -> Result<bool, WriteFailed>
        ensures { (bytes : List ℕ) (before : Known)
            → IsUnderWay (I.command items.now) bytes self.line.items self.done
            self.answers.items before (W.known output.old)
            → IsToldOf (I.command items.now) bytes before (W.known output.new) result }
    {
        duk_io::laws::writes();
        self.end_line(alloc, items, output)?;
        write_out(&mut self.answers, output)?;
        Ok(self.done)
    }

    /// Answers a last line that lacks its end, where there is one.
    fn end_line<I: Items, W: Sink>(
        &mut self,
        alloc: Global,
        items: &I,
        output: &mut W,
    ) -> Result<(), WriteFailed>
        ensures answered { (bytes : List ℕ) (before : Known)
            → IsUnderWay (I.command items.now) bytes self.old.line.items self.old.done
            self.old.answers.items before (W.known output.old)
            → OnOk result (AreAnswered (I.command items.now) (lines bytes) self.new.done
            self.new.answers.items before (W.known output.new)) }
        ensures cut { (bytes : List ℕ) (before : Known)
            → IsUnderWay (I.command items.now) bytes self.old.line.items self.old.done
            self.old.answers.items before (W.known output.old)
            → OnErr result (IsCutOff (I.command items.now) bytes before (W.known output.new)) }
    {
        duk_io::laws::writes();
        if self.line.is_empty() {
            return Ok(());
        }
        let line = self.line.as_slice();
        let answer = answer_line(alloc, items, line, &[], &mut self.kept);
        push_answer(&mut self.answers, &answer, output)?;
        self.done &= answer.done;
        Ok(())
    }
}

/// Keeps a byte more of a line, if there is room.
fn keep(line: &mut Line, byte: u8)
    ensures { line.new.items ≡ take LINE_ROOM (line.old.items ++ byte ∷ []) }
{
    if line.len() < LINE_ROOM {
        line.push(byte);
    }
}

/// Holds an answer back. What was held back before is written where there is no room.
fn push_answer<W: Sink>(
    answers: &mut Buffer,
    answer: &Answer,
    output: &mut W,
) -> Result<(), WriteFailed>
    ensures pushed { OnOk result (IsPushed answers.old.items answers.new.items (answer_text answer.now)
        (W.known output.old) (W.known output.new)) }
    ensures cut { OnErr result
        (IsCut (W.known output.old) (W.known output.new) answers.old.items) }
{
    make_room(
        answers,
        answer.text.len() + answer.explanation.len(),
        output,
    )?;
    push_text(answers, &answer.text);
    push_text(answers, &answer.explanation);
    Ok(())
}

/// Appends a text, for which there is room.
fn push_text(answers: &mut Buffer, text: &Lines)
    requires { array_vec_len answers.old + array_vec_len text.now ≤ BUFFER_ROOM }
    ensures text { answers.new.items ≡ answers.old.items ++ text.now.items }
    ensures len { array_vec_len answers.new ≡ array_vec_len answers.old + array_vec_len text.now }
{
    answers.try_extend_from_slice(text.as_slice()).unwrap();
}
