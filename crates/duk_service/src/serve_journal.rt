//! The command `serve` over a journal, without its files: the host of a configuration answers the
//! frames of its input in groups.
//!
//! That a host over its journal fits in memory is required, as of one over its log.

ghost use Rattle.std.specs.Prelude.{◌≡◌, IfErr, IfOk, OnOk};
ghost use Rattle.duk_io.specs.Sink.{IsHandedOn};
ghost use Rattle.duk_journal_host.specs.Host.{host_meaning_of};
ghost use Rattle.duk_service.specs.HostSize.{JournalHostFits, JournalHostsFit};
ghost use Rattle.duk_service.specs.Serve.{serving_of};
ghost use Rattle.duk_service.specs.ServeJournal.{HasNotServedJournal, HasServedJournal, IsJournalServed, JournalServiceRefused, journal_host_of, over_journal};
ghost use Rattle.duk_service.specs.ServeFault.{IsLossIn};
ghost use Rattle.duk_tdes.specs.KeyBytes.{bytes_of};
ghost use Rattle.duk_tdes.specs.Tdes.{IsTdesLength};

use crate::left_records::RecordFormat;
use crate::serve_end::end_service;
use crate::serve_fault::ServeFault;
use duk_config::{Config, open_hsm};
use duk_host::{HostFault, Issuer, TableIssuer};
use duk_io::{Sink, Source};
use duk_journal::Journal;
use duk_journal_host::{JournalHost, Workspace, serve};
use duk_tdes::{Key, KeyBytes};
use std::alloc::{AllocError, Global};

/// Serves the frames of `input` with the host of a configuration over a journal, which is brought up
/// first, and writes an answer to `output` for each, until the input ends between two frames.
///
/// A host over such a journal has to fit in memory, as one over any journal of this library does.
///
/// The faults: `journal: failed` where the journal does not come up, and then nothing is read; then,
/// as they come, `serve: read failed`, `serve: input ends in a frame`, `serve: frame too long`,
/// `journal: failed`, and `serve: write failed`. Where memory is refused, the line is `out of memory`;
/// but where that is at a frame, and the answers to those before it cannot be written, it is `serve:
/// write failed`. At the end `output` is flushed; where it cannot hand on what it holds back, `serve:
/// write failed` stands in place of any but `journal: failed`, and behind that.
pub fn serve_over_journal<J: Journal, R: Source, W: Sink>(
    alloc: Global,
    config: &Config,
    journal: J,
    input: &mut R,
    output: &mut W,
) -> Result<(), ServeFault>
    requires fits { JournalHostsFit J.row J.Journal }
    ensures done { OnOk result (HasServedJournal (over_journal J.meaning)
        (journal_host_of config.now journal)
        (serving_of R.known R.reads W.known input.old input.new output.old output.new)) }
    ensures handed_on { OnOk result (IsHandedOn (W.held_back output.new)) }
    ensures not_done { IfErr result (HasNotServedJournal (over_journal J.meaning)
        (journal_host_of config.now journal)
        (serving_of R.known R.reads W.known input.old input.new output.old output.new)) }
    ensures handed_on_at_fault { IfErr result
        (IsLossIn (IsHandedOn (W.held_back output.new))) }
{
    let ended = serve_config(alloc, config, journal, input, output);
    end_service(RecordFormat::Journal, ended, output)
}

/// Brings the host of a configuration up over a journal, and serves.
fn serve_config<J: Journal, R: Source, W: Sink>(
    alloc: Global,
    config: &Config,
    journal: J,
    input: &mut R,
    output: &mut W,
) -> Result<(), HostFault>
    requires fits { JournalHostsFit J.row J.Journal }
    ensures served { OnOk result (IsJournalServed (over_journal J.meaning)
        (journal_host_of config.now journal)
        (serving_of R.known R.reads W.known input.old input.new output.old output.new)) }
    ensures refused { IfErr result (JournalServiceRefused (over_journal J.meaning)
        (journal_host_of config.now journal)
        (serving_of R.known R.reads W.known input.old input.new output.old output.new)) }
{
    match &config.lmk {
        KeyBytes::Double(lmk) => serve_under(alloc, lmk, config, journal, input, output),
        KeyBytes::Triple(lmk) => serve_under(alloc, lmk, config, journal, input, output),
    }
}

/// Does what `serve_config` does, under this local master key.
fn serve_under<const N: usize, J: Journal, R: Source, W: Sink>(
    alloc: Global,
    lmk: &Key<N>,
    config: &Config,
    journal: J,
    input: &mut R,
    output: &mut W,
) -> Result<(), HostFault>
    requires length { IsTdesLength N }
    requires lmk { lmk.now ≡ bytes_of config.now.lmk }
    requires fits { JournalHostFits N.row J.row J.Journal }
    ensures served { OnOk result (IsJournalServed (over_journal J.meaning)
        (journal_host_of config.now journal)
        (serving_of R.known R.reads W.known input.old input.new output.old output.new)) }
    ensures refused { IfErr result (JournalServiceRefused (over_journal J.meaning)
        (journal_host_of config.now journal)
        (serving_of R.known R.reads W.known input.old input.new output.old output.new)) }
{
    match new_journal_host(alloc, lmk, config, journal) {
        Ok(mut host) => serve_host(alloc, &mut host, input, output),
        Err(AllocError) => Err(HostFault::NoMemory),
    }
}

/// The host of a configuration over a journal, as it is made: stopped, with the security module and
/// the cards of the configuration. `lmk` is the configuration's local master key.
fn new_journal_host<const N: usize, J: Journal>(
    alloc: Global,
    lmk: &Key<N>,
    config: &Config,
    journal: J,
) -> Result<JournalHost<N, J, TableIssuer>, AllocError>
    requires length { IsTdesLength N }
    requires lmk { lmk.now ≡ bytes_of config.now.lmk }
    ensures { IfOk result (λ host. host ≡ journal_host_of config.now journal) }
{
    let hsm = open_hsm(lmk, config).unwrap();
    let cards = config.cards.clone()?;
    let issuer = TableIssuer::new(config.zone, cards);
    Ok(JournalHost::new(alloc, hsm, issuer, journal))
}

/// Takes the memory of a service, brings a host up, and serves. Where memory is refused or the host
/// does not come up, nothing is read.
fn serve_host<const N: usize, J: Journal, I: Issuer, R: Source, W: Sink>(
    alloc: Global,
    host: &mut JournalHost<N, J, I>,
    input: &mut R,
    output: &mut W,
) -> Result<(), HostFault>
    ensures served { OnOk result (IsJournalServed (host_meaning_of J.meaning I.decides) host.old
        (serving_of R.known R.reads W.known input.old input.new output.old output.new)) }
    ensures refused { IfErr result (JournalServiceRefused (host_meaning_of J.meaning I.decides)
        host.old (serving_of R.known R.reads W.known input.old input.new output.old output.new)) }
{
    let Ok(mut work) = Workspace::new(alloc) else {
        return Err(HostFault::NoMemory);
    };
    match host.restart() {
        Ok(_) => serve(host, &mut work, input, output),
        Err(why) => Err(why),
    }
}
