//! The command `serve` over a journal in a file: opens it, and serves.

ghost use Rattle.std.specs.Prelude.{IfErr, OnOk};
ghost use Rattle.duk_io.specs.Sink.{IsHandedOn};
ghost use Rattle.duk_journal.specs.DiskJournal.{disk_journal_meaning, new_disk_journal};
ghost use Rattle.duk_service.specs.HostSize.{IsSmall};
ghost use Rattle.duk_service.specs.Serve.{serving_of};
ghost use Rattle.duk_service.specs.ServeJournal.{HasNotServedJournal, HasServedJournal, journal_host_of, over_journal};
ghost use Rattle.duk_service.specs.ServeJournalFiles.{IsServedOnJournal, IsUnservedOnJournal};

use crate::left_records::RecordFormat;
use crate::log_files::{Access, LogFiles};
use crate::own_files::open_own;
use crate::serve_fault::ServeFault;
use crate::serve_journal::serve_over_journal;
use duk_config::Config;
use duk_host::HostFault;
use duk_io::{Sink, Source};
use duk_journal::DiskJournal;
use duk_store::Disk;
use std::alloc::Global;

/// Serves over a journal in the file under a path, which is opened where a journal left it. What the
/// configuration says of the log's room is not used.
pub fn serve_on_journal<S: LogFiles, R: Source, W: Sink>(
    alloc: Global,
    files: &S,
    config: &Config,
    path: &str,
    input: &mut R,
    output: &mut W,
) -> Result<(), ServeFault>
    requires { S.may_write files.now path.now }
    ensures done { OnOk result (IsServedOnJournal S.Disk.meaning (S.disks files.now path.now)
        config.now (serving_of R.known R.reads W.known input.old input.new output.old output.new)) }
    ensures handed_on { OnOk result (IsHandedOn (W.held_back output.new)) }
    ensures not_done { IfErr result (IsUnservedOnJournal S.Disk.meaning
        (S.disks files.now path.now) config.now
        (serving_of R.known R.reads W.known input.old input.new output.old output.new)) }
{
    match open_own(files, path, RecordFormat::Journal, Access::Write) {
        Ok(disk) => serve_over_disk(alloc, config, disk, input, output),
        Err(why) => Err(ServeFault::NotOpened(RecordFormat::Journal, why)),
    }
}

/// Serves over a journal on a disk. Where memory for its pieces is refused, nothing is read.
fn serve_over_disk<D: Disk, R: Source, W: Sink>(
    alloc: Global,
    config: &Config,
    disk: D,
    input: &mut R,
    output: &mut W,
) -> Result<(), ServeFault>
    requires small { IsSmall D.row }
    ensures done { OnOk result (HasServedJournal (over_journal (disk_journal_meaning D.meaning))
        (journal_host_of config.now (new_disk_journal disk))
        (serving_of R.known R.reads W.known input.old input.new output.old output.new)) }
    ensures handed_on { OnOk result (IsHandedOn (W.held_back output.new)) }
    ensures not_done { IfErr result (HasNotServedJournal
        (over_journal (disk_journal_meaning D.meaning))
        (journal_host_of config.now (new_disk_journal disk))
        (serving_of R.known R.reads W.known input.old input.new output.old output.new)) }
{
    duk_io::laws::writes();
    match DiskJournal::new(alloc, disk) {
        Ok(journal) => serve_over_journal(alloc, config, journal, input, output),
        Err(_) => Err(ServeFault::Host(RecordFormat::Journal, HostFault::NoMemory)),
    }
}
