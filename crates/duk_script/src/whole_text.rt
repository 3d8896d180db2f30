//! Reads all bytes that a reader has left.

ghost use Rattle.std.specs.Prelude.{◌≤◌, length, IfOk, IfErr};
ghost use Rattle.duk_config.specs.ConfigFile.{longest_file};
ghost use Rattle.duk_script.specs.WholeText.{IsReadWhole, ReadRefused};
ghost use Rattle.duk_script.specs.inner.WholeText.{IsPiece, PieceRefused};

use duk_config::{LONGEST_FILE, ScriptFault};
use duk_io::Source;
use std::alloc::Global;

/// How many bytes are read at a time, at most.
const PIECE: usize = 4096;

/// All that a reader has left. Each read but the last gives a byte at least.
///
/// Refused with `CannotRead` where a read failed, for whatever cause; with `TooLong`, above
/// 1,048,576 bytes; with `NoMemory`.
pub(crate) fn read_text<R: Source>(alloc: Global, reader: &mut R) -> Result<Vec<u8>, ScriptFault>
    ensures read { IfOk result
        (λ text. IsReadWhole (R.known reader.old) (R.known reader.new) text.items) }
    ensures refused { IfErr result (ReadRefused (R.known reader.old) (R.known reader.new)) }
{
    duk_io::laws::failures();
    let mut piece = [0; PIECE];
    let mut text = Vec::new(alloc);
    loop {
        if read_piece(reader, &mut piece, &mut text)? {
            return Ok(text);
        }
    }
}

/// Reads a piece to the end of a text, and reports whether nothing is left.
fn read_piece<R: Source>(
    reader: &mut R,
    piece: &mut [u8; PIECE],
    text: &mut Vec<u8>,
) -> Result<bool, ScriptFault>
    requires { length text.old.items ≤ longest_file }
    ensures read { IfOk result
        (IsPiece (R.known reader.old) (R.known reader.new) text.old.items text.new.items) }
    ensures refused { IfErr result
        (PieceRefused (R.known reader.old) (R.known reader.new) text.old.items) }
{
    let Ok(count) = reader.get(piece) else {
        return Err(ScriptFault::CannotRead);
    };
    if count > LONGEST_FILE - text.len() {
        return Err(ScriptFault::TooLong);
    }
    text.extend_from_slice(&piece[..count])?;
    Ok(count == 0)
}
