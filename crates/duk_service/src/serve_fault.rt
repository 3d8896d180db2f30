//! Why the input of a service is not served to its end, and the line of each fault.

ghost use Rattle.std.specs.Prelude.{◌≡◌};
ghost use Rattle.duk_service.specs.Serve.{is_of_store, serve_line};
ghost use Rattle.duk_service.specs.ServeFault.{host_line, open_line, serve_fault_line};

use crate::left_records::RecordFormat;
use crate::own_files::OpenFault;
use duk_host::HostFault;

/// Why the input of a service is not served to its end.
#[derive(Clone, Copy, Debug, PartialEq, Eq)]
pub enum ServeFault {
    /// The file of its log or its journal is not opened.
    NotOpened(RecordFormat, OpenFault),
    /// Its host, over a log or a journal, does not serve.
    Host(RecordFormat, HostFault),
    /// Its log or its journal failed, and the answers before that could not be handed on.
    StoreAndAnswers(RecordFormat),
}

impl ServeFault {
    /// The line of the fault, LF at its end, or both lines of two.
    pub fn line(self) -> &'static str
        ensures { result.now ≡ serve_fault_line self }
    {
        match self {
            ServeFault::NotOpened(format, why) => open_line(format, why),
            ServeFault::Host(format, why) => host_line(format, why),
            ServeFault::StoreAndAnswers(RecordFormat::Log) => "log: failed\nserve: write failed\n",
            ServeFault::StoreAndAnswers(RecordFormat::Journal) => {
                "journal: failed\nserve: write failed\n"
            }
            ServeFault::StoreAndAnswers(RecordFormat::Ledger) => {
                "ledger: failed\nserve: write failed\n"
            }
        }
    }
}

/// The line where a file is not opened: one that no log leaves, or no journal, is as a damaged one, and
/// one that a journal of version 1 leaves is to be copied.
fn open_line(format: RecordFormat, why: OpenFault) -> &'static str
    ensures { result.now ≡ open_line format why }
{
    match (format, why) {
        (RecordFormat::Log, OpenFault::Unopened) => "log: cannot open\n",
        (RecordFormat::Log, _) => "log: failed\n",
        (RecordFormat::Journal, OpenFault::Unopened) => "journal: cannot open\n",
        (RecordFormat::Journal, OpenFault::OldVersion) => "journal: version 1, use copy-journal\n",
        (RecordFormat::Journal, _) => "journal: failed\n",
        (RecordFormat::Ledger, OpenFault::Unopened) => "ledger: cannot open\n",
        (RecordFormat::Ledger, OpenFault::OldVersion) => "ledger: version 1, use copy-ledger\n",
        (RecordFormat::Ledger, _) => "ledger: failed\n",
    }
}

/// The line of the fault of a host over a log or a journal. A host that was stopped is one whose
/// store failed.
fn host_line(format: RecordFormat, why: HostFault) -> &'static str
    ensures { result.now ≡ host_line format why }
{
    match (format, why) {
        (RecordFormat::Journal, HostFault::Store(_) | HostFault::Stopped) => "journal: failed\n",
        (RecordFormat::Ledger, HostFault::Store(_) | HostFault::Stopped) => "ledger: failed\n",
        (_, why) => log_host_line(why),
    }
}

/// The line of the fault of a host over a log.
fn log_host_line(why: HostFault) -> &'static str
    ensures { result.now ≡ serve_line why }
{
    match why {
        HostFault::NoMemory => "out of memory\n",
        HostFault::Store(_) | HostFault::Stopped => "log: failed\n",
        HostFault::Read => "serve: read failed\n",
        HostFault::Write => "serve: write failed\n",
        HostFault::Truncated => "serve: input ends in a frame\n",
        HostFault::TooLong => "serve: frame too long\n",
    }
}

/// Whether a host's fault is one of its log or journal.
pub(crate) fn is_of_store(why: HostFault) -> bool
    ensures { result ≡ is_of_store why }
{
    match why {
        HostFault::Store(_) | HostFault::Stopped => true,
        HostFault::NoMemory
        | HostFault::Read
        | HostFault::Write
        | HostFault::Truncated
        | HostFault::TooLong => false,
    }
}
