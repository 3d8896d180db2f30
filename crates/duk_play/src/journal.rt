//! Makes the host of a configuration, over a new journal.

ghost use Rattle.std.specs.Prelude.{◌≡◌, [], IfOk, IfErr};
ghost use Rattle.duk_play.specs.Opening.{journal_meaning, new_host_over, new_journal};
ghost use Rattle.duk_store.specs.StoreState.{IsNew};
ghost use Rattle.duk_tdes.specs.KeyBytes.{bytes_of};
ghost use Rattle.duk_tdes.specs.Tdes.{IsTdesLength};

use duk_config::{Config, ScriptFault, open_hsm};
use duk_host::TableIssuer;
use duk_journal::{DiskJournal, RECORD_LENGTH, journal_header};
use duk_journal_host::JournalHost;
use duk_store::MemDisk;
use duk_tdes::Key;
use std::alloc::{AllocError, Global};

/// The identity of the journal. No record comes from another disk, so one does for each run.
const IDENTITY: u64 = 0;

/// The journal of a host, on a disk in memory.
pub(crate) type PlayJournal = DiskJournal<MemDisk>;

/// A new journal on a new disk with room for so many entries. Refused with `NoMemory`.
pub(crate) fn disk_journal(alloc: Global, room: u32) -> Result<PlayJournal, ScriptFault>
    ensures made { IfOk result (λ journal. journal ≡ new_journal room) }
    ensures new { IfOk result (λ journal. IsNew (journal_meaning.state_of journal) []) }
    ensures refused { IfErr result (λ why. why ≡ ScriptFault.NoMemory) }
{
    duk_journal::laws::new_disk_journal();
    let header = journal_header(IDENTITY);
    let size = RECORD_LENGTH * (1 + room as usize);
    let Ok(disk) = MemDisk::with_front(alloc, header.as_slice(), size) else {
        return Err(ScriptFault::NoMemory);
    };
    let Ok(journal) = DiskJournal::new(alloc, disk) else {
        return Err(ScriptFault::NoMemory);
    };
    Ok(journal)
}

/// The host of a configuration over a journal, as it is made: stopped, with the security module and
/// the cards of the configuration. `lmk` is the configuration's local master key.
pub(crate) fn new_host<const N: usize>(
    alloc: Global,
    lmk: &Key<N>,
    config: &Config,
    journal: PlayJournal,
) -> Result<JournalHost<N, PlayJournal, TableIssuer>, AllocError>
    requires length { IsTdesLength N }
    requires lmk { lmk.now ≡ bytes_of config.now.lmk }
    ensures { IfOk result (λ host. host ≡ new_host_over config.now journal) }
{
    let hsm = open_hsm(lmk, config).unwrap();
    let cards = config.cards.clone()?;
    let issuer = TableIssuer::new(config.zone, cards);
    Ok(JournalHost::new(alloc, hsm, issuer, journal))
}
