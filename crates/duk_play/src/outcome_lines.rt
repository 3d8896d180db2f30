//! Writes the lines of outcomes, many at a time.

ghost use Rattle.std.specs.Prelude.{◌≡◌, ◌+◌, ◌≤◌, ◌++◌, OnOk, OnErr, IfErr};
ghost use Rattle.arrayvec.specs.ArrayVec.{array_vec_len};
ghost use Rattle.duk_io.specs.Sink.{IsCut, IsWritten};
ghost use Rattle.duk_play.specs.OutcomeText.{line_of, lines_of};

use crate::outcome_text::outcome_line;
use duk_books::Outcome;
use duk_config::ScriptFault;
use duk_io::{BUFFER_ROOM, Buffer, Sink, WriteFailed, make_room, write_out};
use duk_script::LINE_ROOM;

/// Writes the lines of outcomes. Refused with `WriteFailed`.
pub(crate) fn write_lines<W: Sink>(writer: &mut W, outcomes: &[Outcome]) -> Result<(), ScriptFault>
    ensures written { OnOk result
        (IsWritten (W.known writer.old) (W.known writer.new) (lines_of outcomes.now)) }
    ensures cut { IfErr result (λ why. (why ≡ ScriptFault.WriteFailed)
        × IsCut (W.known writer.old) (W.known writer.new) (lines_of outcomes.now)) }
{
    match write_buffered(writer, outcomes) {
        Ok(()) => Ok(()),
        Err(_) => Err(ScriptFault::WriteFailed),
    }
}

/// Writes the lines of outcomes, many at a time.
fn write_buffered<W: Sink>(writer: &mut W, outcomes: &[Outcome]) -> Result<(), WriteFailed>
    ensures written { OnOk result
        (IsWritten (W.known writer.old) (W.known writer.new) (lines_of outcomes.now)) }
    ensures cut { OnErr result
        (IsCut (W.known writer.old) (W.known writer.new) (lines_of outcomes.now)) }
{
    duk_io::laws::writes();
    duk_script::laws::lines_in_turn::<Outcome>();
    let mut lines = Buffer::new();
    for outcome in outcomes {
        make_room(&mut lines, LINE_ROOM, writer)?;
        push_outcome(&mut lines, *outcome);
    }
    write_out(&mut lines, writer)
}

/// Appends the line of an outcome.
fn push_outcome(lines: &mut Buffer, outcome: Outcome)
    requires { array_vec_len lines.old + LINE_ROOM ≤ BUFFER_ROOM }
    ensures { lines.new.items ≡ lines.old.items ++ line_of outcome }
{
    lines
        .try_extend_from_slice(outcome_line(outcome).as_slice())
        .unwrap();
}
