//! Runs a script: from its bytes to the lines of its outcomes.

ghost use Rattle.std.specs.Prelude.{◌≡◌, ◌⊎◌, false, true, OnOk, IfErr};
ghost use Rattle.duk_io.specs.Sink.{IsCut, IsWritten};
ghost use Rattle.duk_net.specs.World.{meanings_of};
ghost use Rattle.duk_script.specs.OutcomeText.{lines_of};
ghost use Rattle.duk_script.specs.Play.{ArePlayed, ArePlayedOn, IsPlayed, PlayRefused};
ghost use Rattle.duk_script.specs.inner.Play.{EventsRefused, HaveOutcomes};
ghost use Rattle.duk_script.specs.Session.{IsRunDone, IsRunRefused, IsScriptDone, IsScriptRefused, session};
ghost use Rattle.duk_tdes.specs.KeyBytes.{bytes_of};
ghost use Rattle.duk_tdes.specs.Tdes.{IsTdesLength};

use crate::opening::{open_in_memory, open_on_disk};
use crate::outcome_lines::write_lines;
use crate::script::parse_script;
use crate::whole_text::read_text;
use duk_config::{Config, ScriptFault, read_config};
use duk_host::Issuer;
use duk_io::{Sink, Source};
use duk_net::{Event, Outcome, World, run};
use duk_store::{Cell, UsedLog};
use duk_tdes::{Key, KeyBytes};
use std::alloc::Global;

/// Runs a script under the configuration with these bytes, over the stores that it names, and
/// writes a line for what comes of each event.
///
/// The configuration is tested before anything of the script is read, and the whole script is read
/// and parsed before the first event. Refused with the first of these: what `read_config` refuses,
/// and then nothing is read or written; `CannotRead`, where a read of the script failed, and
/// `TooLong`, above 1,048,576 bytes, and then nothing is written; what `play_script` refuses.
pub fn run_script<R: Source, W: Sink>(
    alloc: Global,
    config: &[u8],
    reader: &mut R,
    writer: &mut W,
) -> Result<(), ScriptFault>
    ensures done { OnOk result (IsRunDone config.now
        (session (R.known reader.old) (R.known reader.new)
        (W.known writer.old) (W.known writer.new))) }
    ensures refused { IfErr result (IsRunRefused config.now
        (session (R.known reader.old) (R.known reader.new)
        (W.known writer.old) (W.known writer.new))) }
{
    duk_io::laws::writes();
    let config = read_config(alloc, config)?;
    let script = read_text(alloc, reader)?;
    play_script(alloc, &config, script.as_slice(), writer)
}

/// Plays the script with these bytes under a configuration, over stores that are newly made: on
/// disks in memory, or in memory itself, as the configuration says. Writes a line for what comes of
/// each event. Every end is restarted first, without a line.
///
/// `NotAnEvent` is of the script's first bad line, and then nothing is written. After `NoMemory`
/// the lines of the events done are written. After `WriteFailed` a part of the lines is.
pub fn play_script<W: Sink>(
    alloc: Global,
    config: &Config,
    script: &[u8],
    writer: &mut W,
) -> Result<(), ScriptFault>
    ensures done { OnOk result
        (IsScriptDone config.now script.now (W.known writer.old) (W.known writer.new)) }
    ensures refused { IfErr result
        (IsScriptRefused config.now script.now (W.known writer.old) (W.known writer.new)) }
{
    duk_io::laws::writes();
    let events = parse_script(alloc, script)?;
    play(alloc, config, events.as_slice(), writer)
}

/// Plays events in the world of a configuration, and writes what comes of them.
fn play<W: Sink>(
    alloc: Global,
    config: &Config,
    events: &[Event],
    writer: &mut W,
) -> Result<(), ScriptFault>
    ensures done { OnOk result
        (IsPlayed (ArePlayed config.now) events.now (W.known writer.old) (W.known writer.new)) }
    ensures refused { IfErr result
        (PlayRefused (ArePlayed config.now) events.now (W.known writer.old) (W.known writer.new)) }
{
    match &config.lmk {
        KeyBytes::Double(lmk) => play_under(alloc, lmk, config, events, writer),
        KeyBytes::Triple(lmk) => play_under(alloc, lmk, config, events, writer),
    }
}

/// Plays events in the world of a configuration with this local master key.
fn play_under<const N: usize, W: Sink>(
    alloc: Global,
    lmk: &Key<N>,
    config: &Config,
    events: &[Event],
    writer: &mut W,
) -> Result<(), ScriptFault>
    requires length { IsTdesLength N }
    requires lmk { lmk.now ≡ bytes_of config.now.lmk }
    ensures done { OnOk result
        (IsPlayed (ArePlayed config.now) events.now (W.known writer.old) (W.known writer.new)) }
    ensures refused { IfErr result
        (PlayRefused (ArePlayed config.now) events.now (W.known writer.old) (W.known writer.new)) }
{
    if config.disk {
        play_on_disk(alloc, lmk, config, events, writer)
    } else {
        play_in_memory(alloc, lmk, config, events, writer)
    }
}

/// Plays events in the world of a configuration over stores on disks.
fn play_on_disk<const N: usize, W: Sink>(
    alloc: Global,
    lmk: &Key<N>,
    config: &Config,
    events: &[Event],
    writer: &mut W,
) -> Result<(), ScriptFault>
    requires length { IsTdesLength N }
    requires lmk { lmk.now ≡ bytes_of config.now.lmk }
    ensures done { OnOk result (IsPlayed (ArePlayedOn true config.now) events.now
        (W.known writer.old) (W.known writer.new)) }
    ensures refused { IfErr result (PlayRefused (ArePlayedOn true config.now) events.now
        (W.known writer.old) (W.known writer.new)) }
{
    let mut world = open_on_disk(alloc, lmk, config)?;
    play_in(alloc, &mut world, events, writer)
}

/// Plays events in the world of a configuration over stores in memory.
fn play_in_memory<const N: usize, W: Sink>(
    alloc: Global,
    lmk: &Key<N>,
    config: &Config,
    events: &[Event],
    writer: &mut W,
) -> Result<(), ScriptFault>
    requires length { IsTdesLength N }
    requires lmk { lmk.now ≡ bytes_of config.now.lmk }
    ensures done { OnOk result (IsPlayed (ArePlayedOn false config.now) events.now
        (W.known writer.old) (W.known writer.new)) }
    ensures refused { IfErr result (PlayRefused (ArePlayedOn false config.now) events.now
        (W.known writer.old) (W.known writer.new)) }
{
    let mut world = open_in_memory(alloc, lmk, config)?;
    play_in(alloc, &mut world, events, writer)
}

/// Plays events in a world, and writes what comes of them.
fn play_in<const N: usize, C: Cell, L: UsedLog, I: Issuer, W: Sink>(
    alloc: Global,
    world: &mut World<N, C, L, I>,
    events: &[Event],
    writer: &mut W,
) -> Result<(), ScriptFault>
    ensures done { OnOk result (IsPlayed
        (HaveOutcomes (meanings_of C.meaning L.meaning I.decides) world.old world.new)
        events.now (W.known writer.old) (W.known writer.new)) }
    ensures refused { IfErr result (EventsRefused
        (meanings_of C.meaning L.meaning I.decides) world.old world.new
        events.now (W.known writer.old) (W.known writer.new)) }
{
    let mut outcomes = Vec::new(alloc);
    match run(world, events, &mut outcomes) {
        Ok(()) => write_lines(writer, outcomes.as_slice()),
        Err(_) => Err(write_done(writer, outcomes.as_slice())),
    }
}

/// Writes the lines of the events that were done before memory was refused. Gives the fault to
/// report: that, or that the lines could not be written.
fn write_done<W: Sink>(writer: &mut W, outcomes: &[Outcome]) -> ScriptFault
    ensures { ((result ≡ ScriptFault.NoMemory)
        × IsWritten (W.known writer.old) (W.known writer.new) (lines_of outcomes.now))
        ⊎ ((result ≡ ScriptFault.WriteFailed)
        × IsCut (W.known writer.old) (W.known writer.new) (lines_of outcomes.now)) }
{
    match write_lines(writer, outcomes) {
        Ok(()) => ScriptFault::NoMemory,
        Err(why) => why,
    }
}
