//! Why the program ends with status 1.

ghost use Rattle.duk_io.specs.Sink.{IsTried};
ghost use Rattle.duk_program.specs.Fault.{fault_text};

use crate::message::text_fault_line;
use crate::random::IdentityFault;
use crate::secrets::SecretFault;
use duk_commands::issue::IssueFault;
use duk_commands::{BatchFault, FindFault, tell};
use duk_components::ComponentFault;
use duk_config::ScriptFault;
use duk_io::Sink;
use duk_script::print_fault;
use duk_service::copy_journal::CopyJournalFault;
use duk_service::copy_ledger::CopyLedgerFault;
use duk_service::grow_journal::GrowJournalFault;
use duk_service::new_file::NewFileFault;
use duk_service::{FileFault, RecordFormat, ServeFault};
use duk_show::ShowFault;

/// Why the program ends with status 1. A fault has nothing of an argument but the key of a
/// configuration that is none, and the serial number of a terminal.
#[derive(Drop)]
pub enum Fault {
    /// Of a command over keys, MACs, PINs, key blocks and frames.
    Command(duk_commands::Fault),
    /// Of `find`.
    Find(FindFault),
    /// Of `show`.
    Show(ShowFault),
    /// Of the components of `lmk`.
    Lmk(ComponentFault),
    /// Of `issue`.
    Issue(IssueFault),
    /// Of a command over the lines of the input.
    Batch(BatchFault),
    /// Of a secret that is given by reference.
    Secret(SecretFault),
    /// A TEXT whose bytes are not read.
    Text(FileFault),
    /// The file of the configuration cannot be read.
    ConfigUnread,
    /// Of a configuration or a script.
    Script(ScriptFault),
    /// Of `serve`.
    Serve(ServeFault),
    /// Of the identity of a new journal or ledger.
    Identity(IdentityFault),
    /// Of `new-log`, `new-journal` and `new-ledger`.
    NewFile(RecordFormat, NewFileFault),
    /// Of `grow-journal`.
    GrowJournal(GrowJournalFault),
    /// Of `copy-journal`.
    CopyJournal(CopyJournalFault),
    /// Of `copy-ledger`.
    CopyLedger(CopyLedgerFault),
}

impl Fault {
    /// Writes the line of the fault, LF at its end, or both lines of two. What cannot be written of
    /// them is lost.
    pub(crate) fn tell<F: Sink>(&self, fault: &mut F)
        ensures { IsTried (F.known fault.old) (F.known fault.new) (fault_text self.now) }
    {
        match self {
            Fault::Command(why) => tell(fault, why.line().as_slice()),
            Fault::Find(why) => tell(fault, why.line().as_slice()),
            Fault::Show(why) => tell(fault, why.line().as_slice()),
            Fault::Lmk(why) => tell(fault, why.line().as_slice()),
            Fault::Issue(why) => tell(fault, why.line().as_slice()),
            Fault::Batch(why) => tell(fault, why.line().as_slice()),
            Fault::Secret(why) => tell(fault, why.line().as_slice()),
            Fault::Text(why) => tell(fault, text_fault_line(*why).as_bytes()),
            Fault::ConfigUnread => tell(fault, b"config: cannot read\n"),
            Fault::Script(why) => print_fault(why, fault),
            Fault::Serve(why) => tell(fault, why.line().as_bytes()),
            Fault::Identity(why) => tell(fault, why.line().as_bytes()),
            Fault::NewFile(format, why) => tell(fault, why.line(*format).as_bytes()),
            Fault::GrowJournal(why) => tell(fault, why.line().as_bytes()),
            Fault::CopyJournal(why) => tell(fault, why.line().as_bytes()),
            Fault::CopyLedger(why) => tell(fault, why.line().as_bytes()),
        }
    }
}
