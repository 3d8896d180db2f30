//! What files tell of a fault when they are asked once more.

ghost use Rattle.duk_program.specs.Own.{MayUseOwn};

use crate::command_line::{CommandName, Entry, Request, references};
use crate::commands::show::LONGEST_LOG;
use crate::explaining::paths::path_of;
use crate::explaining::places::line_of_fault;
use crate::explaining::records::wrong_record_in;
use crate::explaining::seen::{Found, Seen};
use crate::explaining::texts::text_of;
use crate::fault::Fault;
use crate::message::{Message, message_of};
use crate::references::{path_in, refers_to_input};
use crate::secrets::SecretFault;
use duk_config::LONGEST_FILE;
use duk_service::{Access, FileSystem, LogFiles, Reason, RecordFormat, Strange, strange_in};
use std::alloc::Global;

/// What files tell of a fault beside what is seen of it. No file is opened to be written, and none
/// is made, but the request's own.
pub(crate) fn found_in_files<S: FileSystem + LogFiles>(
    alloc: Global,
    files: &S,
    about: &Request<'_>,
    why: &Fault,
    seen: &Seen,
) -> Option<Found>
    requires { MayUseOwn (S.may_write files.now) (S.may_make files.now) about.now }
{
    match seen.found {
        Found::Config(_) => found_in_config(alloc, files, about, why, seen),
        Found::Records(format, _) => {
            wrong_records(alloc, files, about, path_of(about, seen)?, format)
        }
        Found::Unread(_) => found_unread(alloc, files, about, why, seen),
        Found::Unopened(_) => unopened_reason(files, about).map(Found::Unopened),
        Found::Unmade(_) => unmade_reason(files, about).map(Found::Unmade),
        _ => None,
    }
}

/// The line of the configuration that is wrong.
fn found_in_config<S: FileSystem>(
    alloc: Global,
    files: &S,
    about: &Request<'_>,
    why: &Fault,
    seen: &Seen,
) -> Option<Found> {
    let Fault::Script(why) = why else {
        return None;
    };
    let config = files.read_again(alloc, path_of(about, seen)?, LONGEST_FILE)?;
    line_of_fault(alloc, config.as_slice(), why).map(Found::Line)
}

/// Why a file is not read: that of the reference which was not, or else that of the fault.
fn found_unread<S: FileSystem>(
    alloc: Global,
    files: &S,
    about: &Request<'_>,
    why: &Fault,
    seen: &Seen,
) -> Option<Found> {
    if let Fault::Secret(SecretFault::Unread(secret, _)) = why {
        let references = references(alloc, about).ok()?;
        return found_in_reference(files, references.as_slice(), secret.place);
    }
    if let Fault::Text(_) = why {
        return found_in_message(files, text_of(about, "TEXT", 0));
    }
    let path = path_of(about, seen).unwrap_or(seen.name);
    files.reading_reason(path).map(Found::Unread)
}

/// Why the reference at a place is not read.
fn found_in_reference<S: FileSystem>(
    files: &S,
    references: &[Entry<'_>],
    place: usize,
) -> Option<Found> {
    let path = path_in(references.get(place)?.text)?;
    let mut before = references.iter().take(place);
    if path != "-" {
        files.reading_reason(path).map(Found::Unread)
    } else if before.any(|entry| refers_to_input(entry.text)) {
        Some(Found::Words("standard input, read before"))
    } else {
        None
    }
}

/// Why the bytes of a TEXT are not read.
fn found_in_message<S: FileSystem>(files: &S, text: &str) -> Option<Found> {
    match message_of(text) {
        Message::Own(_) => None,
        Message::File(path) => files.reading_reason(path).map(Found::Unread),
        Message::Input => Some(Found::Words("a read failed")),
    }
}

/// Why the log, the ledger or the journal of the request cannot be opened and locked. One that is
/// copied is only read.
fn unopened_reason<S: LogFiles>(files: &S, about: &Request<'_>) -> Option<Reason>
    requires { MayUseOwn (S.may_write files.now) (S.may_make files.now) about.now }
{
    match about.command() {
        CommandName::CopyJournal | CommandName::CopyLedger => {
            Some(files.opening_reason(about.text("OLD"), Access::Read))
        }
        CommandName::GrowJournal => Some(files.opening_reason(about.text("FILE"), Access::Write)),
        CommandName::Issue => Some(files.opening_reason(about.text("ledger"), Access::Write)),
        CommandName::Serve => match about.value("log") {
            Some(path) => Some(files.opening_reason(path, Access::Write)),
            None => Some(files.opening_reason(about.value("journal")?, Access::Write)),
        },
        _ => None,
    }
}

/// Why the new file of the request cannot be made.
fn unmade_reason<S: LogFiles>(files: &S, about: &Request<'_>) -> Option<Reason>
    requires { MayUseOwn (S.may_write files.now) (S.may_make files.now) about.now }
{
    match about.command() {
        CommandName::NewLog | CommandName::NewJournal | CommandName::NewLedger => {
            Some(files.making_reason(about.text("FILE")))
        }
        CommandName::CopyJournal | CommandName::CopyLedger => {
            Some(files.making_reason(about.text("NEW")))
        }
        CommandName::Issue => Some(files.making_reason(about.value("out")?)),
        _ => None,
    }
}

/// What the log, the ledger or the journal is that is none, or else the first record that is wrong
/// of a log, or of a ledger that is copied, where it can be read.
fn wrong_records<S: FileSystem + LogFiles>(
    alloc: Global,
    files: &S,
    about: &Request<'_>,
    path: &str,
    format: RecordFormat,
) -> Option<Found> {
    match strange_in(files, path, format) {
        Some(Strange::Empty) => Some(empty(about, format)),
        Some(Strange::Record(place)) => Some(Found::Foreign(place)),
        None if has_form_of_log(about, format) => {
            let log = files.read_again(alloc, path, LONGEST_LOG)?;
            wrong_record_in(alloc, about, log.as_slice()).map(Found::Record)
        }
        None => None,
    }
}

/// What an empty file is. A ledger that is copied is not to be made anew.
fn empty(about: &Request<'_>, format: RecordFormat) -> Found {
    match (format, about.command()) {
        (RecordFormat::Ledger, CommandName::CopyLedger) => Found::Words("empty"),
        _ => Found::Empty(format),
    }
}

/// Whether a file has the form of a log: a log, or a ledger that is copied.
fn has_form_of_log(about: &Request<'_>, format: RecordFormat) -> bool {
    match (format, about.command()) {
        (RecordFormat::Log, _) | (RecordFormat::Ledger, CommandName::CopyLedger) => true,
        _ => false,
    }
}
