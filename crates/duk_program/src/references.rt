//! Reads what references stand for: the first line of a file, or of standard input.

ghost use Rattle.std.specs.Prelude.{◌≡◌, [], IfErr, IfOk, IsFalse, IsOkAnd, IsTrue, MatchResult, OnErr, false, is_some, map, option_map, string_bytes};
ghost use Rattle.std.specs.List.{list_any};
ghost use Rattle.duk_program.specs.CommandLine.{row_of};
ghost use Rattle.duk_program.specs.References.{help_name};
ghost use Rattle.duk_host.specs.Serve.{supply};
ghost use Rattle.duk_io.specs.Source.{AreReadsMade, IsBroken};
ghost use Rattle.duk_program.specs.InputLine.{HasLineTaken};
ghost use Rattle.duk_program.specs.Secrets.{AreRead, HasWordsAlone, IsSecretFault, RefersToInput, path_of, reference_in, secrets_in};
ghost use Rattle.duk_program.specs.inner.Secrets.{IsAnyLineUnread, IsNextByte, IsOnceUnread, IsReadOnce, IsSecretRead, IsSecretRefused, IsTextRefused, line_fault};

use crate::command_line::{CommandName, Entry, Request, help_name, references};
use crate::secrets::{Secret, SecretFault, Unread};
use duk_io::Source;
use duk_service::{FileFault, FileSystem, strip_return};
use std::alloc::Global;
use std::{io, str};

/// The most bytes of a secret's line.
pub(crate) const LONGEST_LINE: usize = 4096;

/// The most bytes that are read of the input: those of the longest line and of its end, CR LF.
const MOST_TAKEN: usize = LONGEST_LINE + 2;

/// Whether a text of the request is written as a reference, also where none may be one. Without one
/// there is none that is.
pub(crate) fn has_reference(request: &Request<'_>) -> bool
    ensures { IsFalse result → HasWordsAlone request.now }
{
    has_reference_among(request.entries())
}

/// Whether the text of one of some entries is written as a reference.
fn has_reference_among(entries: &[Entry<'_>]) -> bool
    ensures { IsFalse result → list_any (λ text. is_some (reference_in text))
        (map (λ entry. entry.text.now) entries.now) ≡ false }
{
    for entry in entries {
        if is_reference(entry.text) {
            return true;
        }
    }
    false
}

/// Whether a text is a reference.
pub(crate) fn is_reference(text: &str) -> bool
    ensures { result ≡ is_some (reference_in text.now) }
{
    path_in(text).is_some()
}

/// What a text refers to, which is what stands behind its `@`: standard input as `-`, also where
/// that is one of its paths.
pub(crate) fn path_in(text: &str) -> Option<&str>
    ensures { option_map (λ path. path.now) result ≡ reference_in text.now }
{
    if text.starts_with('@') {
        Some(path_of(&text[1..]))
    } else {
        None
    }
}

/// A path, or `-` for one of standard input, which is read as `@-` reads it: a byte at a time, once.
fn path_of(path: &str) -> &str
    ensures { result.now ≡ path_of path.now }
{
    if path == "/dev/stdin" || path == "/dev/fd/0" || path == "/proc/self/fd/0" {
        "-"
    } else {
        path
    }
}

/// Whether a text refers to standard input.
pub(crate) fn refers_to_input(text: &str) -> bool
    ensures { IsTrue result → RefersToInput text.now }
{
    match path_in(text) {
        Some(path) => path == "-",
        None => false,
    }
}

/// The texts that those of a request stand for which may be references, in its order. The first that is
/// not read is the fault.
pub(crate) fn read_texts<S: FileSystem, R: Source>(
    alloc: Global,
    files: &S,
    request: &Request<'_>,
    input: &mut R,
) -> Result<Vec<String>, SecretFault>
    ensures read { IfOk result (λ texts. AreRead (S.held files.now) (secrets_in request.now)
        (map string_bytes texts.items) (supply (R.known input.old) (R.reads input.old))
        (supply (R.known input.new) (R.reads input.new))) }
    ensures refused { IfErr result (IsSecretFault (S.held files.now)
        (supply (R.known input.old) (R.reads input.old))
        (supply (R.known input.new) (R.reads input.new)) request.now) }
{
    let references = match references(alloc, request) {
        Ok(references) => references,
        Err(_) => return Err(SecretFault::NoMemory),
    };
    let mut texts = Vec::new(alloc);
    let mut input_is_read = false;
    for place in 0..references.len() {
        let written = references[place].text;
        let secret = secret_at(request.command(), references[place].name, place);
        let text = match read_secret(alloc, files, input, &mut input_is_read, secret, written) {
            Ok(text) => text,
            Err(why) => return Err(why),
        };
        match texts.push(text) {
            Ok(()) => {}
            Err(_) => return Err(SecretFault::NoMemory),
        }
    }
    Ok(texts)
}

/// The reference at a place of those of a command, under a name.
fn secret_at(command: CommandName, name: &'static str, place: usize) -> Secret
    ensures name { result.name.now ≡ help_name name.now (row_of command) }
    ensures place { result.place ≡ place }
{
    Secret {
        name: help_name(command, name),
        place,
    }
}

/// The text that a secret stands for: itself, or the line that it refers to, without its end.
///
/// Refused with `CannotRead` (no such file, one that cannot be read, or standard input again),
/// `TooLong` (a line of more than 4,096 bytes) or `NotUtf8`, and where memory is refused.
pub(crate) fn read_secret<S: FileSystem, R: Source>(
    alloc: Global,
    files: &S,
    input: &mut R,
    input_is_read: &mut bool,
    secret: Secret,
    written: &str,
) -> Result<String, SecretFault>
    ensures read { IfOk result (λ text. IsSecretRead (S.held files.now) input_is_read.old
        input_is_read.new (supply (R.known input.old) (R.reads input.old))
        (supply (R.known input.new) (R.reads input.new)) written.now (string_bytes text)) }
    ensures refused { IfErr result (IsSecretRefused (S.held files.now) input_is_read.old
        (supply (R.known input.old) (R.reads input.old))
        (supply (R.known input.new) (R.reads input.new)) secret written.now) }
{
    let Some(path) = path_in(written) else {
        return String::from_str(alloc, written).map_err(|_| SecretFault::NoMemory);
    };
    if path == "-" {
        let line = read_input_once(alloc, input, input_is_read);
        text_of(alloc, secret, line)
    } else {
        let line = files.read_line(alloc, path, LONGEST_LINE);
        text_of(alloc, secret, line)
    }
}

/// The text of a line, where that is read.
fn text_of(
    alloc: Global,
    secret: Secret,
    line: Result<Vec<u8>, FileFault>,
) -> Result<String, SecretFault>
    ensures text { IfOk result (λ text. IsOkAnd line
        (λ line. string_bytes text ≡ line.items)) }
    ensures refused { IfErr result (λ why. MatchResult line
        (λ line. IsTextRefused secret line.items why)
        (λ fault. why ≡ line_fault secret fault)) }
{
    match line {
        Ok(line) => text_of_line(alloc, secret, line.as_slice()),
        Err(FileFault::NoMemory) => Err(SecretFault::NoMemory),
        Err(FileFault::TooLong) => Err(SecretFault::Unread(secret, Unread::TooLong)),
        Err(FileFault::CannotRead) => Err(SecretFault::Unread(secret, Unread::CannotRead)),
    }
}

/// The text of a line that is read.
fn text_of_line(alloc: Global, secret: Secret, line: &[u8]) -> Result<String, SecretFault>
    ensures text { IfOk result (λ text. string_bytes text ≡ line.now) }
    ensures refused { IfErr result (IsTextRefused secret line.now) }
{
    match str::from_utf8(line) {
        Ok(text) => String::from_str(alloc, text).map_err(|_| SecretFault::NoMemory),
        Err(_) => Err(SecretFault::Unread(secret, Unread::NotUtf8)),
    }
}

/// The first line of the input without its end, LF or CR LF, where it was not read before. A byte is
/// read at a time, so that what is behind the line is left in the input.
fn read_input_once<R: Source>(
    alloc: Global,
    input: &mut R,
    input_is_read: &mut bool,
) -> Result<Vec<u8>, FileFault>
    ensures read { IfOk result (λ line. IsReadOnce input_is_read.old input_is_read.new
        (supply (R.known input.old) (R.reads input.old))
        (supply (R.known input.new) (R.reads input.new)) line.items) }
    ensures refused { IfErr result (IsOnceUnread input_is_read.old
        (supply (R.known input.old) (R.reads input.old))
        (supply (R.known input.new) (R.reads input.new))) }
{
    if *input_is_read {
        return Err(FileFault::CannotRead);
    }
    *input_is_read = true;
    let line = read_input_line(alloc, input)?;
    if line.len() > LONGEST_LINE {
        return Err(FileFault::TooLong);
    }
    Ok(line)
}

/// The same of any input; of one without an end no more bytes than tell that the line is too long.
fn read_input_line<R: Source>(alloc: Global, input: &mut R) -> Result<Vec<u8>, FileFault>
    ensures read { IfOk result (λ line. HasLineTaken
        (supply (R.known input.old) (R.reads input.old))
        (supply (R.known input.new) (R.reads input.new)) line.items) }
    ensures refused { IfErr result (IsAnyLineUnread
        (supply (R.known input.old) (R.reads input.old))
        (supply (R.known input.new) (R.reads input.new))) }
{
    duk_io::laws::reads();
    let mut line = Vec::new(alloc);
    for _ in 0..MOST_TAKEN {
        let Ok(next) = read_input_byte(input) else {
            return Err(FileFault::CannotRead);
        };
        let Some(byte) = next else {
            return Ok(line);
        };
        if byte == b'\n' {
            strip_return(&mut line);
            return Ok(line);
        }
        if line.push(byte).is_err() {
            return Err(FileFault::NoMemory);
        }
    }
    Ok(line)
}

/// The next byte of the input, or none at its end.
fn read_input_byte<R: Source>(input: &mut R) -> io::Result<Option<u8>>
    ensures byte { IfOk result (IsNextByte (R.known input.old) (R.known input.new)) }
    ensures failed { OnErr result (IsBroken (R.known input.old) (R.known input.new) []) }
    ensures one_read { AreReadsMade (R.reads input.old) (R.reads input.new) 1 }
{
    let mut byte = [0];
    let count = input.get(&mut byte)?;
    if count == 0 {
        return Ok(None);
    }
    Ok(Some(byte[0]))
}
