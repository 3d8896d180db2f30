//! What is told of faults of files and streams, before any file is asked.

use crate::explaining::arguments::{DOUBLE, DOUBLE_OR_TRIPLE};
use crate::explaining::paths::File;
use crate::explaining::seen::{Found, Seen, words};
use duk_config::{ConfigKey, ScriptFault};
use duk_host::HostFault;
use duk_service::{OpenFault, Reason, RecordFormat, ServeFault};

/// What is told of a configuration whose line is not found.
const NO_LINE: &str = "the line was not found";

/// What is wanted of a configuration or a script that is too long.
const MOST_TEXT: &str = "at most 1048576 bytes";

/// A configuration or a script.
pub(crate) fn of_script(why: &ScriptFault) -> Seen {
    match why {
        ScriptFault::ConfigTooLong => longer("CONFIG").wanted(MOST_TEXT),
        ScriptFault::NotToml => config("other text").wanted("TOML in UTF-8"),
        ScriptFault::UnknownKey(_) => config("another key").wanted(
            "lmk, zone, loading, terminals, log, stores, bdk and card",
        ),
        ScriptFault::BadKey(key) => config(NO_LINE).wanted(wanted_of(*key)),
        ScriptFault::BadEntry(key, _) => config(NO_LINE).wanted(wanted_of_entry(*key)),
        ScriptFault::CannotRead => unread("SCRIPT"),
        ScriptFault::TooLong => longer("SCRIPT").wanted(MOST_TEXT),
        ScriptFault::NotAnEvent(line) => under("SCRIPT", "SCRIPT", Found::Line(*line)).wanted(
            "an event, a comment after # or an empty line",
        ),
        ScriptFault::WriteFailed => output(),
        ScriptFault::NoMemory => memory(),
    }
}

/// What is wanted of a key of a configuration.
fn wanted_of(key: ConfigKey) -> &'static str {
    match key {
        ConfigKey::Lmk | ConfigKey::Zone => DOUBLE_OR_TRIPLE,
        ConfigKey::Loading => DOUBLE,
        ConfigKey::Terminals => "1 to 16",
        ConfigKey::Log => "1 to 100000",
        ConfigKey::Stores => "memory or disk",
        ConfigKey::Bdk => "1 to 8 tables",
        ConfigKey::Card => "at most 1000 tables",
    }
}

/// What is wanted of an entry of such a key.
fn wanted_of_entry(key: ConfigKey) -> &'static str {
    match key {
        ConfigKey::Bdk => "prefix, 10 hexadecimal digits, and key, 32; each prefix once",
        _ => "pan, 12 to 19 digits, pin, 4 to 12, and limit up to 4294967295; each pan once",
    }
}

/// A service.
pub(crate) fn of_serve(why: ServeFault) -> Seen {
    match why {
        ServeFault::NotOpened(format, OpenFault::Unopened) => {
            unopened(name_of(format), name_of(format), format)
        }
        ServeFault::NotOpened(format, OpenFault::OldVersion) => {
            old_version(name_of(format), format)
        }
        ServeFault::NotOpened(format, OpenFault::Failed | OpenFault::Foreign)
        | ServeFault::Host(format, HostFault::Store(_) | HostFault::Stopped)
        | ServeFault::StoreAndAnswers(format) => failed(name_of(format), format),
        ServeFault::Host(_, HostFault::Read) => words("input", "a read failed").wanted("frames"),
        ServeFault::Host(_, HostFault::Truncated) => {
            words("input", "a part of a frame").wanted("whole frames")
        }
        ServeFault::Host(_, HostFault::TooLong) => {
            words("input", "a length above 62").wanted("frames of requests")
        }
        ServeFault::Host(_, HostFault::Write) => output(),
        ServeFault::Host(_, HostFault::NoMemory) => memory(),
    }
}

/// What a file of this format is called, also where it is an argument of `serve`.
pub(crate) fn name_of(format: RecordFormat) -> &'static str {
    match format {
        RecordFormat::Log => "log",
        RecordFormat::Journal => "journal",
        RecordFormat::Ledger => "ledger",
    }
}

/// What was found of the file under an argument, by the name that it has in a fault.
pub(crate) fn under(argument: &'static str, name: &'static str, found: Found) -> Seen {
    Seen::new(name, found).of(File::Under(argument))
}

/// A configuration.
fn config(told: &'static str) -> Seen {
    under("CONFIG", "CONFIG", Found::Config(told))
}

/// A file that is not read.
pub(crate) fn unread(name: &'static str) -> Seen {
    under(name, name, Found::Unread(Reason::Other)).wanted("a file that can be read")
}

/// A file that is too long.
pub(crate) fn longer(name: &'static str) -> Seen {
    under(name, name, Found::Words("a longer file"))
}

/// A log, a ledger or a journal that is not opened and locked.
pub(crate) fn unopened(argument: &'static str, name: &'static str, format: RecordFormat) -> Seen {
    under(argument, name, Found::Unopened(Reason::Other)).wanted(match format {
        RecordFormat::Log => "a log, as new-log makes one, that no other uses",
        RecordFormat::Journal => "a journal, as new-journal makes one, that no other uses",
        RecordFormat::Ledger => "a ledger, as new-ledger makes one, that no other uses",
    })
}

/// A log, a journal or a ledger that failed.
pub(crate) fn failed(argument: &'static str, format: RecordFormat) -> Seen {
    let found = Found::Records(format, "wrong records, or a step that failed");
    under(argument, name_of(format), found).wanted(match format {
        RecordFormat::Log => "a log as it was kept, on a device that works",
        RecordFormat::Journal => "a journal as it was kept, on a device that works",
        RecordFormat::Ledger => "a ledger of version 1 as it was kept, on a device that works",
    })
}

/// A journal or a ledger of version 1.
pub(crate) fn old_version(argument: &'static str, format: RecordFormat) -> Seen {
    under(argument, name_of(format), Found::Words("version 1")).wanted(match format {
        RecordFormat::Ledger => "one of version 2; make it by dukpt copy-ledger OLD NEW",
        _ => "one of version 2; make it by dukpt copy-journal OLD NEW",
    })
}

/// A ledger of version 2, which needs no copy.
pub(crate) fn new_version(argument: &'static str) -> Seen {
    under(argument, "ledger", Found::Words("version 2")).wanted(
        "one of version 1; issue takes this one as it is",
    )
}

/// A file that is not made.
pub(crate) fn unmade(argument: &'static str, name: &'static str) -> Seen {
    under(argument, name, Found::Unmade(Reason::Other)).wanted(
        "a name that no file has, in a folder with room",
    )
}

/// A journal that is not made larger, or only in part.
pub(crate) fn ungrown() -> Seen {
    words("journal", "a write or a sync failed, or too many records").wanted(
        "a device with room for RECORDS more, of 32 bytes each",
    )
}

/// An output that is not written.
pub(crate) fn output() -> Seen {
    words("output", "a write failed").wanted("a device with room, or a reader")
}

/// Memory that is refused.
pub(crate) fn memory() -> Seen {
    words("memory", "refused").wanted("more memory")
}
