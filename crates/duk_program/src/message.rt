//! What a TEXT stands for: its own bytes, those of a file, or all that the input has left.

ghost use Rattle.std.specs.Prelude.{◌≡◌, IfErr, IfOk};
ghost use Rattle.duk_host.specs.Serve.{supply};
ghost use Rattle.duk_program.specs.Message.{IsAllRead, IsInputUnended, IsMessage, IsMessageUnread, message_of, text_fault_line};
ghost use Rattle.duk_program.specs.inner.Message.{message_in};
ghost use Rattle.duk_service.specs.declared.file_system.FileFault.TheVariants.{NoMemory};

use crate::references::{is_reference, path_in};
use duk_io::Source;
use duk_service::{FileFault, FileSystem};
use std::alloc::Global;

/// The most bytes that are read of a file or of the input.
const LONGEST_MESSAGE: usize = 16_777_216;

/// How many bytes are read at a time, at most.
const PIECE: usize = 4096;

/// Where the bytes of a TEXT stand.
#[derive(Clone, Copy)]
pub(crate) enum Message<'a> {
    /// In this text.
    Own(&'a str),
    /// In the file under this path.
    File(&'a str),
    /// In the input.
    Input,
}

/// Where the bytes of a TEXT stand that is written so: behind an `@` in a file, of `@-` in the input.
/// Behind a second `@` they are a text that begins with one.
pub(crate) fn message_of(text: &str) -> Message<'_>
    ensures { message_in result ≡ message_of text.now }
{
    let Some(path) = path_in(text) else {
        return Message::Own(text);
    };
    if path == "-" {
        Message::Input
    } else if is_reference(path) {
        Message::Own(path)
    } else {
        Message::File(path)
    }
}

/// The bytes that a TEXT stands for.
///
/// Refused with `CannotRead` (no such file, or a read failed), with `TooLong` (more than 16,777,216
/// bytes of a file or of the input), and where memory is refused.
pub(crate) fn read_message<S: FileSystem, R: Source>(
    alloc: Global,
    files: &S,
    text: &str,
    input: &mut R,
) -> Result<Vec<u8>, FileFault>
    ensures read { IfOk result (λ bytes. IsMessage (S.held files.now)
        (supply (R.known input.old) (R.reads input.old))
        (supply (R.known input.new) (R.reads input.new)) (message_of text.now) bytes.items) }
    ensures unread { IfErr result (IsMessageUnread (S.held files.now)
        (supply (R.known input.old) (R.reads input.old))
        (supply (R.known input.new) (R.reads input.new)) (message_of text.now)) }
{
    match message_of(text) {
        Message::Own(text) => copied(alloc, text),
        Message::File(path) => files.read_file(alloc, path, LONGEST_MESSAGE),
        Message::Input => read_input(alloc, input),
    }
}

/// The bytes of a text. Memory may be refused.
fn copied(alloc: Global, text: &str) -> Result<Vec<u8>, FileFault>
    ensures bytes { IfOk result (λ bytes. bytes.items ≡ text.now) }
    ensures refused { IfErr result (λ why. why ≡ NoMemory) }
{
    let mut bytes = Vec::new(alloc);
    match bytes.extend_from_slice(text.as_bytes()) {
        Ok(()) => Ok(bytes),
        Err(_) => Err(FileFault::NoMemory),
    }
}

/// All that the input has left, where that is not too long.
fn read_input<R: Source>(alloc: Global, input: &mut R) -> Result<Vec<u8>, FileFault>
    ensures read { IfOk result (λ bytes. IsAllRead
        (supply (R.known input.old) (R.reads input.old))
        (supply (R.known input.new) (R.reads input.new)) bytes.items) }
    ensures unread { IfErr result (IsInputUnended
        (supply (R.known input.old) (R.reads input.old))
        (supply (R.known input.new) (R.reads input.new))) }
{
    duk_io::laws::reads();
    let mut bytes = Vec::new(alloc);
    let mut piece = [0; PIECE];
    // Each read gives a byte at least.
    for _ in 0..LONGEST_MESSAGE + 1 {
        let Ok(count) = input.get(&mut piece) else {
            return Err(FileFault::CannotRead);
        };
        if count == 0 {
            return Ok(bytes);
        }
        if bytes.extend_from_slice(&piece[..count]).is_err() {
            return Err(FileFault::NoMemory);
        }
        if bytes.len() > LONGEST_MESSAGE {
            return Err(FileFault::TooLong);
        }
    }
    Err(FileFault::TooLong)
}

/// The line of the fault of a TEXT that is not read, LF at its end.
pub(crate) fn text_fault_line(why: FileFault) -> &'static str
    ensures { result.now ≡ text_fault_line why }
{
    match why {
        FileFault::CannotRead => "TEXT: cannot read\n",
        FileFault::TooLong => "TEXT: too long\n",
        FileFault::NoMemory => "out of memory\n",
    }
}
