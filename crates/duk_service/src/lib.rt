//! The service of a host over a log or a journal, the commands that make these, and the files that
//! they stand on.
#![tactic(auto)]

pub mod copy_journal;
pub mod copy_ledger;
mod file_end;
mod file_system;
pub mod grow_journal;
mod growable;
mod left_records;
mod line_file;
mod log_files;
pub mod new_file;
mod new_files;
mod own_files;
mod reason;
mod serve;
mod serve_end;
mod serve_fault;
mod serve_journal;
mod serve_journal_files;
mod serve_log_files;

pub use file_end::{FileEnd, RealEnd};
pub use file_system::{FileFault, FileSystem, strip_return};
pub use left_records::RecordFormat;
pub use log_files::{Access, LogFiles};
pub use own_files::{OpenFault, open_own, strange_in};
pub use reason::{Reason, Strange};
pub use serve::{serve_over_log, serve_with};
pub use serve_fault::ServeFault;
pub use serve_journal::serve_over_journal;
pub use serve_journal_files::serve_on_journal;
pub use serve_log_files::{serve_in_memory, serve_on_file};
