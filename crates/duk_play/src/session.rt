//! Plays a script: from its bytes to the lines of its outcomes.

ghost use Rattle.std.specs.Prelude.{◌≡◌, ◌⊎◌, false, true, OnOk, IfErr};
ghost use Rattle.duk_books.specs.Books.{meanings_of};
ghost use Rattle.duk_io.specs.Sink.{IsCut, IsWritten};
ghost use Rattle.duk_play.specs.OutcomeText.{lines_of};
ghost use Rattle.duk_play.specs.Play.{ArePlayed, ArePlayedOn, IsPlayed, PlayRefused};
ghost use Rattle.duk_play.specs.Session.{IsScriptDone, IsScriptRefused};
ghost use Rattle.duk_play.specs.inner.Play.{EventsRefused, HaveOutcomes};
ghost use Rattle.duk_tdes.specs.KeyBytes.{bytes_of};
ghost use Rattle.duk_tdes.specs.Tdes.{IsTdesLength};

use crate::opening::{open_in_memory, open_on_disk};
use crate::outcome_lines::write_lines;
use crate::script::parse_script;
use duk_books::{Books, Event, Outcome, run};
use duk_config::{Config, ScriptFault};
use duk_host::Issuer;
use duk_io::Sink;
use duk_journal::Journal;
use duk_store::Cell;
use duk_tdes::{Key, KeyBytes};
use std::alloc::Global;

/// Plays the script with these bytes under a configuration: over tills whose cells are newly made, on
/// disks in memory or in memory itself, as the configuration says, and a host over a new journal on a
/// disk in memory, which has room for as many entries as the configuration gives the log. Writes a
/// line for what comes of each event. Every end is restarted first, without a line.
///
/// However the events are, what the merchants were told as approved stands at the host, and once a
/// till is at rest nothing else of it does (`laws::books_agree`).
///
/// `NotAnEvent` is of the script's first bad line, and then nothing is written. After `NoMemory`
/// the lines of the events done are written. After `WriteFailed` a part of the lines is.
pub fn play_script<W: Sink>(
    alloc: Global,
    config: &Config,
    script: &[u8],
    writer: &mut W,
) -> Result<(), ScriptFault>
    ensures done { OnOk result
        (IsScriptDone config.now script.now (W.known writer.old) (W.known writer.new)) }
    ensures refused { IfErr result
        (IsScriptRefused config.now script.now (W.known writer.old) (W.known writer.new)) }
{
    duk_io::laws::writes();
    let events = parse_script(alloc, script)?;
    play(alloc, config, events.as_slice(), writer)
}

/// Plays events over the tills and the host of a configuration, and writes what comes of them.
fn play<W: Sink>(
    alloc: Global,
    config: &Config,
    events: &[Event],
    writer: &mut W,
) -> Result<(), ScriptFault>
    ensures done { OnOk result
        (IsPlayed (ArePlayed config.now) events.now (W.known writer.old) (W.known writer.new)) }
    ensures refused { IfErr result
        (PlayRefused (ArePlayed config.now) events.now (W.known writer.old) (W.known writer.new)) }
{
    match &config.lmk {
        KeyBytes::Double(lmk) => play_under(alloc, lmk, config, events, writer),
        KeyBytes::Triple(lmk) => play_under(alloc, lmk, config, events, writer),
    }
}

/// Plays events over those of a configuration with this local master key.
fn play_under<const N: usize, W: Sink>(
    alloc: Global,
    lmk: &Key<N>,
    config: &Config,
    events: &[Event],
    writer: &mut W,
) -> Result<(), ScriptFault>
    requires length { IsTdesLength N }
    requires lmk { lmk.now ≡ bytes_of config.now.lmk }
    ensures done { OnOk result
        (IsPlayed (ArePlayed config.now) events.now (W.known writer.old) (W.known writer.new)) }
    ensures refused { IfErr result
        (PlayRefused (ArePlayed config.now) events.now (W.known writer.old) (W.known writer.new)) }
{
    if config.disk {
        play_on_disk(alloc, lmk, config, events, writer)
    } else {
        play_in_memory(alloc, lmk, config, events, writer)
    }
}

/// Plays events over tills on disks.
fn play_on_disk<const N: usize, W: Sink>(
    alloc: Global,
    lmk: &Key<N>,
    config: &Config,
    events: &[Event],
    writer: &mut W,
) -> Result<(), ScriptFault>
    requires length { IsTdesLength N }
    requires lmk { lmk.now ≡ bytes_of config.now.lmk }
    ensures done { OnOk result (IsPlayed (ArePlayedOn true config.now) events.now
        (W.known writer.old) (W.known writer.new)) }
    ensures refused { IfErr result (PlayRefused (ArePlayedOn true config.now) events.now
        (W.known writer.old) (W.known writer.new)) }
{
    let mut books = open_on_disk(alloc, lmk, config)?;
    play_in(alloc, &mut books, events, writer)
}

/// Plays events over tills in memory.
fn play_in_memory<const N: usize, W: Sink>(
    alloc: Global,
    lmk: &Key<N>,
    config: &Config,
    events: &[Event],
    writer: &mut W,
) -> Result<(), ScriptFault>
    requires length { IsTdesLength N }
    requires lmk { lmk.now ≡ bytes_of config.now.lmk }
    ensures done { OnOk result (IsPlayed (ArePlayedOn false config.now) events.now
        (W.known writer.old) (W.known writer.new)) }
    ensures refused { IfErr result (PlayRefused (ArePlayedOn false config.now) events.now
        (W.known writer.old) (W.known writer.new)) }
{
    let mut books = open_in_memory(alloc, lmk, config)?;
    play_in(alloc, &mut books, events, writer)
}

/// Plays events over tills and a host, and writes what comes of them.
fn play_in<const N: usize, C: Cell, B: Cell, J: Journal, I: Issuer, W: Sink>(
    alloc: Global,
    books: &mut Books<N, C, B, J, I>,
    events: &[Event],
    writer: &mut W,
) -> Result<(), ScriptFault>
    ensures done { OnOk result (IsPlayed
        (HaveOutcomes (meanings_of C.meaning B.meaning J.meaning I.decides) books.old books.new)
        events.now (W.known writer.old) (W.known writer.new)) }
    ensures refused { IfErr result (EventsRefused
        (meanings_of C.meaning B.meaning J.meaning I.decides) books.old books.new
        events.now (W.known writer.old) (W.known writer.new)) }
{
    let mut outcomes = Vec::new(alloc);
    match run(books, events, &mut outcomes) {
        Ok(()) => write_lines(writer, outcomes.as_slice()),
        Err(_) => Err(write_done(writer, outcomes.as_slice())),
    }
}

/// Writes the lines of the events that were done before memory was refused. Gives the fault to
/// report: that, or that the lines could not be written.
fn write_done<W: Sink>(writer: &mut W, outcomes: &[Outcome]) -> ScriptFault
    ensures { ((result ≡ ScriptFault.NoMemory)
        × IsWritten (W.known writer.old) (W.known writer.new) (lines_of outcomes.now))
        ⊎ ((result ≡ ScriptFault.WriteFailed)
        × IsCut (W.known writer.old) (W.known writer.new) (lines_of outcomes.now)) }
{
    match write_lines(writer, outcomes) {
        Ok(()) => ScriptFault::NoMemory,
        Err(why) => why,
    }
}
