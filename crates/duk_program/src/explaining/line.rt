//! The line that explains a fault.

use crate::explaining::paths::Path;
use crate::explaining::seen::{Found, Seen};
use duk_commands::Lines;
use duk_service::{Reason, RecordFormat};
use std::io::{self, Write};

/// The line of what is told, LF at its end, which has room for all of it. A path stands behind the
/// name of a file, or where an argument is the name of one.
pub(crate) fn line_of(seen: &Seen, path: Option<Path<'_>>) -> Lines {
    let mut line = Lines::new();
    let _ = write_line(&mut line, seen, path);
    line
}

/// Writes the line.
fn write_line(line: &mut Lines, seen: &Seen, path: Option<Path<'_>>) -> io::Result<()> {
    if let Found::Foreign(_) = seen.found {
        write!(line, "no ")?;
    }
    write!(line, "{}", seen.name)?;
    if seen.is_one_of_several {
        write!(line, " {}", seen.place.saturating_add(1))?;
    }
    match (seen.found, path) {
        (Found::Text(length, _), Some(path)) => {
            write_found(line, Found::Text(length, None))?;
            write!(line, ", a file of that name is there: {path}")?;
        }
        (found, Some(path)) => {
            write!(line, " {path}")?;
            write_found(line, found)?;
        }
        (found, None) => write_found(line, found)?,
    }
    write!(line, "; wanted: ")?;
    if let Some(left) = seen.left {
        write!(line, "1 to {left}, ")?;
    }
    write!(line, "{}{}\n", seen.wanted, way(seen))
}

/// Writes what was found.
fn write_found(line: &mut Lines, found: Found) -> io::Result<()> {
    write!(line, ": ")?;
    match found {
        Found::Text(1, None) => write!(line, "1 byte"),
        Found::Text(1, Some(place)) => write!(line, "1 byte, wrong at {place}"),
        Found::Text(length, None) => write!(line, "{length} bytes"),
        Found::Text(length, Some(place)) => write!(line, "{length} bytes, wrong at {place}"),
        Found::Count(number, digits) => write!(line, "{number:0digits$}"),
        Found::Number(number, words) => {
            for byte in number {
                write!(line, "{byte:02X}")?;
            }
            write!(line, "{words}")
        }
        Found::Ones(count) => write!(line, "{count} one bits in its counter"),
        Found::Words(words) | Found::Config(words) => write!(line, "{words}"),
        Found::Records(_, words) => write!(line, "{words}"),
        Found::Unread(why) | Found::Unopened(why) | Found::Unmade(why) => {
            write!(line, "{}", reason_text(why))
        }
        Found::Empty(_) => write!(line, "empty"),
        Found::Record(place) => write!(line, "record {place}"),
        Found::Foreign(place) => write!(line, "record {place} is neither open nor zero"),
        Found::EqualKeys(first, second) => {
            write!(line, "entries {first} and {second} of bdk have one key")
        }
        Found::Line(number) => write!(line, "line {number}"),
    }
}

/// What the system says of a file, in words.
fn reason_text(reason: Reason) -> &'static str {
    match reason {
        Reason::Missing => "no such file",
        Reason::NoPermission => "no permission",
        Reason::Folder => "a folder",
        Reason::InUse => "in use",
        Reason::There => "there already",
        Reason::NoFolder => "no such folder",
        Reason::Other => "the system refuses it",
    }
}

/// What helps.
fn way(seen: &Seen) -> &'static str {
    match seen.found {
        Found::Empty(RecordFormat::Log) => "; make it by dukpt new-log FILE RECORDS",
        Found::Empty(RecordFormat::Journal) => "; make it by dukpt new-journal FILE RECORDS",
        Found::Empty(RecordFormat::Ledger) => "; make it by dukpt new-ledger FILE RECORDS",
        Found::Text(16, None) if seen.name.ends_with("KSN") => "; write FFFF before it",
        _ => "",
    }
}
