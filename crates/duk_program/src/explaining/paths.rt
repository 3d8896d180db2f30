//! The paths that an explanation names.

ghost use Rattle.std.specs.Prelude.{◌≡◌, false};
ghost use Rattle.std.specs.Char.{is_ascii_digit, is_ascii_hexdigit};
ghost use Rattle.std.specs.List.{list_all};
ghost use Rattle.duk_program.specs.inner.Explain.{is_length_of_digits, is_length_of_key, may_be_secret};

use crate::command_line::{Entry, Request, may_refer};
use crate::explaining::seen::{Found, Seen};
use crate::explaining::texts::{entry_of, text_of};
use crate::references::is_reference;
use duk_service::FileSystem;
use std::fmt;

/// The most bytes of a path that is told.
const LONGEST_PATH: usize = 512;

/// Whose path is told.
#[derive(Clone, Copy)]
pub(crate) enum File {
    /// That of the file which the argument with this name has.
    Under(&'static str),
    /// The reference that is not read.
    Reference,
    /// The text of an argument, where a file has that name: its `@` was forgotten.
    Forgotten,
}

/// A path that may be told.
#[derive(Clone, Copy)]
pub(crate) struct Path<'a> {
    /// The path: neither empty nor too long for a line, and no secret.
    pub(crate) text: &'a str,
    /// Whether an `@` is told before it.
    pub(crate) is_reference: bool,
    ghost no_secret: { may_be_secret text.now ≡ false },
}

impl fmt::Display for Path<'_> {
    /// Writes it, with `\x` and two digits in place of a control character.
    fn fmt<W: fmt::Write>(&self, f: &mut fmt::Formatter<W>) -> fmt::Result {
        f.write_str(if self.is_reference { "@" } else { "" })?;
        for character in self.text.chars() {
            if character.is_control() {
                write!(f, "\\x{:02X}", character as u32)?;
            } else {
                write!(f, "{character}")?;
            }
        }
        Ok(())
    }
}

/// The path that is told beside what was seen, as it stands in a request that was written: that of
/// the file which the request names, or of the one whose name an argument is.
pub(crate) fn told_path<'a, S: FileSystem>(
    files: &S,
    written: &Request<'a>,
    seen: &Seen,
) -> Option<Path<'a>> {
    let text = written_path(files, written, seen)?;
    if text.is_empty() || text.len() > LONGEST_PATH || may_be_secret(text) {
        return None;
    }
    let is_reference = !matches!(seen.file, File::Under(_));
    Some(Path { text, is_reference })
}

/// The same, however long it is.
fn written_path<'a, S: FileSystem>(
    files: &S,
    written: &Request<'a>,
    seen: &Seen,
) -> Option<&'a str> {
    match seen.file {
        File::Under(argument) => word_in(written, entry_under(written, argument)?),
        File::Reference => path_behind(entry_of(written, seen.name, seen.place)?),
        File::Forgotten => forgotten(files, written, seen),
    }
}

/// Whether a text may be a key of 8, 16 or 24 bytes, a PIN or a PAN.
fn may_be_secret(text: &str) -> bool
    ensures { result ≡ may_be_secret text.now }
{
    (is_length_of_key(text.len()) && is_hexadecimal(text))
        || (is_length_of_digits(text.len()) && is_decimal(text))
}

/// Whether a PIN or a PAN has so many digits.
fn is_length_of_digits(length: usize) -> bool
    ensures { result ≡ is_length_of_digits length }
{
    4 <= length && length <= 19
}

/// Whether a key has so many digits.
fn is_length_of_key(length: usize) -> bool
    ensures { result ≡ is_length_of_key length }
{
    length == 16 || length == 32 || length == 48
}

/// Whether all bytes of a text are hexadecimal digits.
fn is_hexadecimal(text: &str) -> bool
    ensures { result ≡ list_all is_ascii_hexdigit text.now }
{
    text.as_bytes().iter().all(u8::is_ascii_hexdigit)
}

/// Whether all bytes of a text are decimal digits.
fn is_decimal(text: &str) -> bool
    ensures { result ≡ list_all is_ascii_digit text.now }
{
    text.as_bytes().iter().all(u8::is_ascii_digit)
}

/// The path of the file that a request names, as it was read.
pub(crate) fn path_of<'a>(about: &Request<'a>, seen: &Seen) -> Option<&'a str> {
    match seen.file {
        File::Under(argument) => about.value(argument),
        File::Reference => text_of(about, seen.name, seen.place).strip_prefix('@'),
        File::Forgotten => None,
    }
}

/// The text of an argument that may be a reference, is none and is refused, where a file of that name
/// can be read.
fn forgotten<'a, S: FileSystem>(files: &S, written: &Request<'a>, seen: &Seen) -> Option<&'a str> {
    let Found::Text(_, _) = seen.found else {
        return None;
    };
    let entry = entry_of(written, seen.name, seen.place)?;
    let path = word_in(written, entry)?;
    let is_there = path != "-" && files.reading_reason(path).is_none();
    if takes_reference(written, entry) && is_there {
        Some(path)
    } else {
        None
    }
}

/// The text of the argument that was seen, where it is no reference.
pub(crate) fn word_of<'a>(written: &Request<'a>, seen: &Seen) -> Option<&'a str> {
    word_in(written, entry_of(written, seen.name, seen.place)?)
}

/// The text of an entry, where it is no reference.
fn word_in<'a>(written: &Request<'a>, entry: Entry<'a>) -> Option<&'a str> {
    if takes_reference(written, entry) && is_reference(entry.text) {
        None
    } else {
        Some(entry.text)
    }
}

/// Whether the text of an entry may be a reference: TEXT, of which it stands for bytes, or another one.
fn takes_reference(written: &Request<'_>, entry: Entry<'_>) -> bool {
    matches!(entry.name, "TEXT" | "text") || may_refer(written.command(), entry.name)
}

/// The path behind the `@` of an entry.
fn path_behind(entry: Entry<'_>) -> Option<&str> {
    if entry.text.starts_with('@') {
        Some(&entry.text[1..])
    } else {
        None
    }
}

/// The entry of a request under the name of an argument.
fn entry_under<'a>(written: &Request<'a>, argument: &str) -> Option<Entry<'a>> {
    for entry in written.entries() {
        if entry.name == argument {
            return Some(*entry);
        }
    }
    None
}
