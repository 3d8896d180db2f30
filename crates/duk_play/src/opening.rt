//! Makes the tills and the host of a configuration, and restarts them.

ghost use Rattle.std.specs.Prelude.{◌≡◌, IfOk, IfErr, OnOk, length};
ghost use Rattle.duk_books.specs.Books.{meanings_of};
ghost use Rattle.duk_play.specs.Opening.{AreEndsBroughtUp, StartsCalm, in_memory, new_disk_books, new_memory_books, on_disk, opening};
ghost use Rattle.duk_tdes.specs.KeyBytes.{bytes_of};
ghost use Rattle.duk_tdes.specs.Tdes.{IsTdesLength};

use crate::journal::{PlayJournal, disk_journal, new_host};
use crate::tills::{disk_tills, memory_tills};
use duk_books::{Books, Event, run};
use duk_config::{Config, ScriptFault};
use duk_host::{Issuer, TableIssuer};
use duk_journal::Journal;
use duk_script::DiskCell;
use duk_store::{Cell, MemCell};
use duk_tdes::Key;
use std::alloc::Global;

/// The tills and the host of a configuration over cells in memory, brought up. Refused with
/// `NoMemory`.
pub(crate) fn open_in_memory<const N: usize>(
    alloc: Global,
    lmk: &Key<N>,
    config: &Config,
) -> Result<Books<N, MemCell, MemCell, PlayJournal, TableIssuer>, ScriptFault>
    requires length { IsTdesLength N }
    requires lmk { lmk.now ≡ bytes_of config.now.lmk }
    ensures starts { IfOk result (λ _. StartsCalm in_memory (new_memory_books config.now)) }
    ensures opened { IfOk result (AreEndsBroughtUp in_memory (new_memory_books config.now)) }
    ensures refused { IfErr result (λ why. why ≡ ScriptFault.NoMemory) }
{
    let tills = memory_tills(alloc, config.terminals)?;
    let journal = disk_journal(alloc, config.log)?;
    let host = new_host(alloc, lmk, config, journal)?;
    let mut books = Books::new(alloc, host, config.loading, tills);
    bring_up(alloc, &mut books, config.terminals)?;
    Ok(books)
}

/// The tills and the host of a configuration over cells on disks in memory, brought up. Refused with
/// `NoMemory`.
pub(crate) fn open_on_disk<const N: usize>(
    alloc: Global,
    lmk: &Key<N>,
    config: &Config,
) -> Result<Books<N, DiskCell, DiskCell, PlayJournal, TableIssuer>, ScriptFault>
    requires length { IsTdesLength N }
    requires lmk { lmk.now ≡ bytes_of config.now.lmk }
    ensures starts { IfOk result (λ _. StartsCalm on_disk (new_disk_books config.now)) }
    ensures opened { IfOk result (AreEndsBroughtUp on_disk (new_disk_books config.now)) }
    ensures refused { IfErr result (λ why. why ≡ ScriptFault.NoMemory) }
{
    let tills = disk_tills(alloc, config.terminals)?;
    let journal = disk_journal(alloc, config.log)?;
    let host = new_host(alloc, lmk, config, journal)?;
    let mut books = Books::new(alloc, host, config.loading, tills);
    bring_up(alloc, &mut books, config.terminals)?;
    Ok(books)
}

/// Brings the host and all tills up, over which nothing happened yet. Refused with `NoMemory`.
fn bring_up<const N: usize, C: Cell, B: Cell, J: Journal, I: Issuer>(
    alloc: Global,
    books: &mut Books<N, C, B, J, I>,
    tills: u32,
) -> Result<(), ScriptFault>
    requires starts { StartsCalm
        (meanings_of C.meaning B.meaning J.meaning I.decides) books.old }
    requires count { length books.old.tills ≡ tills }
    ensures opened { OnOk result (AreEndsBroughtUp
        (meanings_of C.meaning B.meaning J.meaning I.decides) books.old books.new) }
    ensures refused { IfErr result (λ why. why ≡ ScriptFault.NoMemory) }
{
    let events = restarts(alloc, tills)?;
    let mut outcomes = Vec::new(alloc);
    match run(books, events.as_slice(), &mut outcomes) {
        Ok(()) => Ok(()),
        Err(_) => Err(ScriptFault::NoMemory),
    }
}

/// The restarts of the host and of so many tills.
fn restarts(alloc: Global, tills: u32) -> Result<Vec<Event>, ScriptFault>
    ensures events { IfOk result (λ events. events.items ≡ opening tills) }
    ensures refused { IfErr result (λ why. why ≡ ScriptFault.NoMemory) }
{
    let mut events = Vec::new(alloc);
    events.push(Event::RestartHost)?;
    for t in 0..tills {
        events.push(Event::RestartTill { t: t + 1 })?;
    }
    Ok(events)
}
