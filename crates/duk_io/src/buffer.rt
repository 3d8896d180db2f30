//! Text that is held back, so that many short lines are one write.

ghost use Rattle.std.specs.Prelude.{◌≡◌, ◌+◌, ◌≤◌, [], OnOk, OnErr};
ghost use Rattle.arrayvec.specs.ArrayVec.{array_vec_len};
ghost use Rattle.duk_io.specs.Sink.{IsCut, IsDrained, IsWritten};

use crate::laws;
use crate::sink::{Sink, WriteFailed, write_text};
use arrayvec::ArrayVec;

/// The bytes that are held back at most.
pub const BUFFER_ROOM: usize = 32_768;

/// Text on its way to a writer.
pub type Buffer = ArrayVec<u8, BUFFER_ROOM>;

/// Makes room in the buffer for so many bytes, at most 32,768: where there is none, what it holds
/// is written.
pub fn make_room<S: Sink>(
    buffer: &mut Buffer,
    count: usize,
    sink: &mut S,
) -> Result<(), WriteFailed>
    requires { count ≤ BUFFER_ROOM }
    ensures written { OnOk result
        (IsDrained buffer.old.items buffer.new.items (S.known sink.old) (S.known sink.new)) }
    ensures room { OnOk result (array_vec_len buffer.new + count ≤ BUFFER_ROOM) }
    ensures cut { OnErr result (IsCut (S.known sink.old) (S.known sink.new) buffer.old.items) }
{
    laws::writes();
    if buffer.len() > BUFFER_ROOM - count {
        return write_out(buffer, sink);
    }
    Ok(())
}

/// Writes what the buffer holds, which is nothing afterwards.
pub fn write_out<S: Sink>(buffer: &mut Buffer, sink: &mut S) -> Result<(), WriteFailed>
    ensures written { OnOk result
        (IsWritten (S.known sink.old) (S.known sink.new) buffer.old.items) }
    ensures empty { OnOk result (buffer.new.items ≡ []) }
    ensures cut { OnErr result (IsCut (S.known sink.old) (S.known sink.new) buffer.old.items) }
{
    write_text(sink, buffer.as_slice())?;
    buffer.clear();
    Ok(())
}
