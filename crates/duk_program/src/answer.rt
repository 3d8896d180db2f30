//! Does the command of a request whose secrets are written as they are.

ghost use Rattle.std.specs.Prelude.{◌≡◌, IfErr, OnOk, codes};
ghost use Rattle.duk_arguments.specs.Request.{text_in};
ghost use Rattle.duk_io.specs.Known.{Known};
ghost use Rattle.duk_io.specs.Sink.{IsHandedOn};
ghost use Rattle.duk_program.specs.Meant.{AreAllAnswered, AreItemsDone, AreItemsNotDone, AreNotAllAnswered, IsAnswered, IsDoneAlone, IsDoneOverMessage, IsDoneUntold, IsNotAnswered, IsNotDoneAlone, IsNotDoneOverMessage, IsNotDoneUntold};
ghost use Rattle.duk_program.specs.NewJournal.{IsCopyMade, IsCopyUnmade, IsLedgerCopyMade, IsLedgerCopyUnmade, IsNewJournalMade, IsNewJournalUnmade, IsNewLedgerMade, IsNewLedgerUnmade};
ghost use Rattle.duk_program.specs.Random.{random_device};
ghost use Rattle.duk_program.specs.Own.{MayUseOwn};
ghost use Rattle.duk_program.specs.Scene.{scene};
ghost use Rattle.duk_program.specs.declared.fault.Fault.TheVariants.{NewFile as OfNewFile};
ghost use Rattle.duk_program.specs.inner.Commands.{IsOverMessage, TellsNothing};
ghost use Rattle.duk_program.specs.inner.Items.{items_in};
ghost use Rattle.duk_service.specs.NewFile.{HasMadeFile, IsNewFileRefused, format_of};
ghost use Rattle.duk_service.specs.Serve.{serving_of};
ghost use Rattle.duk_service.specs.declared.new_file.NewFileFault.{NewFileFault};

use crate::command_line::{CommandName, Request};
use crate::commands::find::find_made;
use crate::commands::issue::issue_files;
use crate::commands::lmk::lmk_asked;
use crate::commands::run::run_files;
use crate::commands::serve::serve_files;
use crate::commands::show::show_asked;
use crate::commands::{do_command, do_over_message};
use crate::fault::Fault;
use crate::items::{LineItems, line_command};
use crate::message::read_message;
use crate::random::draw_identity;
use duk_commands::{BatchFault, do_batch, hand_on};
use duk_io::{Sink, Source};
use duk_service::copy_journal::copy_journal;
use duk_service::copy_ledger::copy_ledger;
use duk_service::grow_journal::grow_journal;
use duk_service::new_file::{NewFile, new_file};
use duk_service::{FileSystem, LogFiles};
use std::alloc::Global;

/// Does the command of a request, over each line of the input where an argument says so, and hands on
/// what it writes. With `explain` the fault of an item is explained behind it. On `fault` stand the
/// progress of a search, and how many numbers were passed over.
pub(crate) fn answer<S: FileSystem + LogFiles, R: Source, W: Sink, F: Sink>(
    alloc: Global,
    files: &S,
    request: &Request<'_>,
    explain: bool,
    input: &mut R,
    output: &mut W,
    fault: &mut F,
) -> Result<(), Fault>
    requires { MayUseOwn (S.may_write files.now) (S.may_make files.now) request.now }
    ensures done { OnOk result (IsAnswered explain S.Disk.meaning (scene (S.held files.now)
        (S.disks files.now) (S.making files.now) (serving_of R.known R.reads W.known input.old
        input.new output.old output.new) (F.known fault.old) (F.known fault.new)) request.now) }
    ensures handed_on { OnOk result
        (IsHandedOn (W.held_back output.old) → IsHandedOn (W.held_back output.new)) }
    ensures not_done { IfErr result (IsNotAnswered explain S.Disk.meaning (scene
        (S.held files.now) (S.disks files.now) (S.making files.now) (serving_of R.known R.reads
        W.known input.old input.new output.old output.new) (F.known fault.old)
        (F.known fault.new)) request.now) }
{
    duk_io::laws::writes();
    match line_command(request) {
        Some(command) => {
            let items = LineItems {
                request,
                command,
                explain,
            };
            answer_items(alloc, &items, input, output)
        }
        None => answer_alone(alloc, files, request, input, output, fault),
    }
}

/// Does a command over each line of the input. What it has beside its items is tested before anything
/// is read.
fn answer_items<R: Source, W: Sink>(
    alloc: Global,
    items: &LineItems<'_>,
    input: &mut R,
    output: &mut W,
) -> Result<(), Fault>
    ensures done { OnOk result (AreItemsDone items.now.explain (items_in items.now.command)
        (serving_of R.known R.reads W.known input.old input.new output.old output.new)) }
    ensures handed_on { OnOk result (IsHandedOn (W.held_back output.new)) }
    ensures not_done { IfErr result (AreItemsNotDone items.now.explain
        (items_in items.now.command)
        (serving_of R.known R.reads W.known input.old input.new output.old output.new)) }
{
    match items.command.ready() {
        Ok(()) => match answer_all(alloc, items, input, output) {
            Ok(()) => Ok(()),
            Err(why) => Err(Fault::Batch(why)),
        },
        Err(why) => Err(Fault::Command(why)),
    }
}

/// Answers each line of the input, and hands the answers on.
fn answer_all<R: Source, W: Sink>(
    alloc: Global,
    items: &LineItems<'_>,
    input: &mut R,
    output: &mut W,
) -> Result<(), BatchFault>
    ensures done { OnOk result (AreAllAnswered items.now.explain (items_in items.now.command)
        (serving_of R.known R.reads W.known input.old input.new output.old output.new)) }
    ensures handed_on { OnOk result (IsHandedOn (W.held_back output.new)) }
    ensures not_done { IfErr result (AreNotAllAnswered items.now.explain
        (items_in items.now.command)
        (serving_of R.known R.reads W.known input.old input.new output.old output.new)) }
{
    let ended = do_batch(alloc, items, input, output);
    hand_on(ended, BatchFault::WriteFailed, output)
}

/// Does the command of a request over its arguments, files and streams alone.
fn answer_alone<S: FileSystem + LogFiles, R: Source, W: Sink, F: Sink>(
    alloc: Global,
    files: &S,
    request: &Request<'_>,
    input: &mut R,
    output: &mut W,
    fault: &mut F,
) -> Result<(), Fault>
    requires { MayUseOwn (S.may_write files.now) (S.may_make files.now) request.now }
    ensures done { OnOk result (IsDoneAlone S.Disk.meaning (scene (S.held files.now)
        (S.disks files.now) (S.making files.now) (serving_of R.known R.reads W.known input.old
        input.new output.old output.new) (F.known fault.old) (F.known fault.new)) request.now) }
    ensures handed_on { OnOk result
        (IsHandedOn (W.held_back output.old) → IsHandedOn (W.held_back output.new)) }
    ensures not_done { IfErr result (IsNotDoneAlone S.Disk.meaning (scene
        (S.held files.now) (S.disks files.now) (S.making files.now) (serving_of R.known R.reads
        W.known input.old input.new output.old output.new) (F.known fault.old)
        (F.known fault.new)) request.now) }
{
    duk_io::laws::writes();
    match request.command() {
        CommandName::Find => find_made(alloc, files, request, input, output, fault),
        CommandName::Issue => match issue_files(alloc, files, request, output, fault) {
            Ok(()) => Ok(()),
            Err(why) => Err(Fault::Issue(why)),
        },
        _ => answer_untold(alloc, files, request, input, output),
    }
}

/// The same of a request that tells nothing beside its answer.
fn answer_untold<S: FileSystem + LogFiles, R: Source, W: Sink>(
    alloc: Global,
    files: &S,
    request: &Request<'_>,
    input: &mut R,
    output: &mut W,
) -> Result<(), Fault>
    requires own { MayUseOwn (S.may_write files.now) (S.may_make files.now) request.now }
    requires untold { TellsNothing request.now.command }
    ensures done { (before after : Known) → OnOk result (IsDoneUntold S.Disk.meaning
        (scene (S.held files.now) (S.disks files.now) (S.making files.now) (serving_of R.known
        R.reads W.known input.old input.new output.old output.new) before after)
        request.now.command request.now) }
    ensures handed_on { OnOk result
        (IsHandedOn (W.held_back output.old) → IsHandedOn (W.held_back output.new)) }
    ensures not_done { (before after : Known) → IfErr result (IsNotDoneUntold S.Disk.meaning
        (scene (S.held files.now) (S.disks files.now) (S.making files.now) (serving_of R.known
        R.reads W.known input.old input.new output.old output.new) before after)
        request.now.command request.now) }
{
    match request.command() {
        CommandName::Run => run_files(
            alloc,
            files,
            request.text("CONFIG"),
            request.text("SCRIPT"),
            request.flag("journal"),
            output,
        ),
        CommandName::Serve => serve_files(alloc, files, request, input, output),
        CommandName::NewLog => make_file(alloc, files, NewFile::Log, request),
        CommandName::NewJournal => make_journal(alloc, files, request),
        CommandName::NewLedger => make_ledger(alloc, files, request),
        CommandName::GrowJournal => {
            match grow_journal(files, request.text("FILE"), request.text("RECORDS")) {
                Ok(()) => Ok(()),
                Err(why) => Err(Fault::GrowJournal(why)),
            }
        }
        CommandName::CopyJournal => make_copy(alloc, files, request),
        CommandName::CopyLedger => make_ledger_copy(alloc, files, request),
        CommandName::Show => show_asked(alloc, files, request, output),
        CommandName::Lmk => lmk_asked(alloc, request, output),
        CommandName::Mac | CommandName::Data => {
            answer_message(alloc, files, request, input, output)
        }
        _ => do_command(alloc, request, output),
    }
}

/// Does `mac` or `data` over the bytes that its TEXT stands for.
fn answer_message<S: FileSystem, R: Source, W: Sink>(
    alloc: Global,
    files: &S,
    request: &Request<'_>,
    input: &mut R,
    output: &mut W,
) -> Result<(), Fault>
    requires { IsOverMessage request.now.command }
    ensures done { OnOk result (IsDoneOverMessage (S.held files.now) (serving_of R.known R.reads
        W.known input.old input.new output.old output.new) request.now) }
    ensures handed_on { OnOk result (IsHandedOn (W.held_back output.new)) }
    ensures not_done { IfErr result (IsNotDoneOverMessage (S.held files.now) (serving_of R.known
        R.reads W.known input.old input.new output.old output.new) request.now) }
{
    duk_io::laws::writes();
    let message = match read_message(alloc, files, request.text("TEXT"), input) {
        Ok(message) => message,
        Err(why) => return Err(Fault::Text(why)),
    };
    do_over_message(alloc, request, message.as_slice(), output)
}

/// Makes the file of a journal, with an identity that is drawn first.
fn make_journal<S: FileSystem + LogFiles>(
    alloc: Global,
    files: &S,
    request: &Request<'_>,
) -> Result<(), Fault>
    requires { S.may_make files.now (text_in (codes "FILE") request.now) }
    ensures made { OnOk result (IsNewJournalMade S.Disk.meaning
        (S.held files.now random_device)
        (S.making files.now (text_in (codes "FILE") request.now))
        (text_in (codes "RECORDS") request.now)) }
    ensures refused { IfErr result (IsNewJournalUnmade S.Disk.meaning
        (S.held files.now random_device)
        (S.making files.now (text_in (codes "FILE") request.now))
        (text_in (codes "RECORDS") request.now)) }
{
    match draw_identity(alloc, files) {
        Ok(identity) => make_file(alloc, files, NewFile::Journal { identity }, request),
        Err(why) => Err(Fault::Identity(why)),
    }
}

/// Makes the file of a ledger, with an identity that is drawn first.
fn make_ledger<S: FileSystem + LogFiles>(
    alloc: Global,
    files: &S,
    request: &Request<'_>,
) -> Result<(), Fault>
    requires { S.may_make files.now (text_in (codes "FILE") request.now) }
    ensures made { OnOk result (IsNewLedgerMade S.Disk.meaning
        (S.held files.now random_device)
        (S.making files.now (text_in (codes "FILE") request.now))
        (text_in (codes "RECORDS") request.now)) }
    ensures refused { IfErr result (IsNewLedgerUnmade S.Disk.meaning
        (S.held files.now random_device)
        (S.making files.now (text_in (codes "FILE") request.now))
        (text_in (codes "RECORDS") request.now)) }
{
    match draw_identity(alloc, files) {
        Ok(identity) => make_file(alloc, files, NewFile::Ledger { identity }, request),
        Err(why) => Err(Fault::Identity(why)),
    }
}

/// Makes the copy of a journal, with an identity that is drawn first.
fn make_copy<S: FileSystem + LogFiles>(
    alloc: Global,
    files: &S,
    request: &Request<'_>,
) -> Result<(), Fault>
    requires { S.may_make files.now (text_in (codes "NEW") request.now) }
    ensures made { OnOk result (IsCopyMade S.Disk.meaning (S.held files.now random_device)
        (S.disks files.now (text_in (codes "OLD") request.now))
        (S.making files.now (text_in (codes "NEW") request.now))) }
    ensures refused { IfErr result (IsCopyUnmade S.Disk.meaning (S.held files.now random_device)
        (S.disks files.now (text_in (codes "OLD") request.now))
        (S.making files.now (text_in (codes "NEW") request.now))) }
{
    let identity = match draw_identity(alloc, files) {
        Ok(identity) => identity,
        Err(why) => return Err(Fault::Identity(why)),
    };
    match copy_journal(
        alloc,
        files,
        request.text("OLD"),
        request.text("NEW"),
        identity,
    ) {
        Ok(()) => Ok(()),
        Err(why) => Err(Fault::CopyJournal(why)),
    }
}

/// Makes the copy of a ledger, with an identity that is drawn first.
fn make_ledger_copy<S: FileSystem + LogFiles>(
    alloc: Global,
    files: &S,
    request: &Request<'_>,
) -> Result<(), Fault>
    requires { S.may_make files.now (text_in (codes "NEW") request.now) }
    ensures made { OnOk result (IsLedgerCopyMade S.Disk.meaning (S.held files.now random_device)
        (S.disks files.now (text_in (codes "OLD") request.now))
        (S.making files.now (text_in (codes "NEW") request.now))) }
    ensures refused { IfErr result (IsLedgerCopyUnmade S.Disk.meaning
        (S.held files.now random_device)
        (S.disks files.now (text_in (codes "OLD") request.now))
        (S.making files.now (text_in (codes "NEW") request.now))) }
{
    let identity = match draw_identity(alloc, files) {
        Ok(identity) => identity,
        Err(why) => return Err(Fault::Identity(why)),
    };
    match copy_ledger(
        alloc,
        files,
        request.text("OLD"),
        request.text("NEW"),
        identity,
    ) {
        Ok(()) => Ok(()),
        Err(why) => Err(Fault::CopyLedger(why)),
    }
}

/// Makes the file of a log, a journal or a ledger.
fn make_file<S: LogFiles>(
    alloc: Global,
    files: &S,
    new: NewFile,
    request: &Request<'_>,
) -> Result<(), Fault>
    requires { S.may_make files.now (text_in (codes "FILE") request.now) }
    ensures made { OnOk result
        (HasMadeFile new S.Disk.meaning
        (S.making files.now (text_in (codes "FILE") request.now))
        (text_in (codes "RECORDS") request.now)) }
    ensures refused { IfErr result (λ why. (cause : NewFileFault)
        × (why ≡ OfNewFile (format_of new) cause)
        × IsNewFileRefused new S.Disk.meaning
        (S.making files.now (text_in (codes "FILE") request.now))
        (text_in (codes "RECORDS") request.now) cause) }
{
    match new_file(
        alloc,
        files,
        new,
        request.text("FILE"),
        request.text("RECORDS"),
    ) {
        Ok(()) => Ok(()),
        Err(why) => Err(Fault::NewFile(new.format(), why)),
    }
}
