//! Plays a script under the bytes of a configuration, and writes its lines into a slice.

ghost use Rattle.std.specs.Prelude.{◌≡◌, IfErr, IfOk};
ghost use Rattle.duk_calls.specs.Answer.{buffer};
ghost use Rattle.dukpt_player.specs.Run.{IsRun, IsRunUnder, RunAnswers};
ghost use Rattle.dukpt_player.specs.inner.Run.{IsRefused, IsRefusedUnder, Tells, WritesFront};

use crate::ending::Ending;
use duk_config::{Config, ScriptFault, read_config};
use std::alloc::Global;

/// Does what `dukpt_run` does, and gives how the run ends.
pub(crate) fn run(
    alloc: Global,
    config: &[u8],
    script: &[u8],
    journal: bool,
    text: &mut [u8],
    length: &mut u64,
) -> Ending
    ensures { RunAnswers journal config.now script.now (buffer text.old length.old)
        (buffer text.new length.new) result }
{
    match lines_of_run(alloc, config, script, journal) {
        Ok(lines) => {
            if write_front(lines.as_slice(), text, length) {
                Ending::Played
            } else {
                Ending::NoRoom
            }
        }
        Err(why) => tell(alloc, &why, text, length),
    }
}

/// The lines of the outcomes of a script under the bytes of a configuration.
fn lines_of_run(
    alloc: Global,
    config: &[u8],
    script: &[u8],
    journal: bool,
) -> Result<Vec<u8>, ScriptFault>
    ensures played { IfOk result (λ lines. IsRun journal config.now script.now lines.items) }
    ensures refused { IfErr result (IsRefused journal config.now script.now) }
{
    let config = read_config(alloc, config)?;
    lines_under(alloc, &config, script, journal)
}

/// The lines of the outcomes of a script under a configuration.
fn lines_under(
    alloc: Global,
    config: &Config,
    script: &[u8],
    journal: bool,
) -> Result<Vec<u8>, ScriptFault>
    ensures played { IfOk result (λ lines. IsRunUnder journal config.now script.now lines.items) }
    ensures refused { IfErr result (IsRefusedUnder journal script.now) }
{
    let mut lines = Vec::new(alloc);
    if journal {
        duk_play::play_script(alloc, config, script, &mut lines)?;
    } else {
        duk_script::play_script(alloc, config, script, &mut lines)?;
    }
    Ok(lines)
}

/// Writes why a script is not played in the front of a slice, and gives how its run ends.
fn tell(alloc: Global, why: &ScriptFault, text: &mut [u8], length: &mut u64) -> Ending
    ensures { Tells why.now (buffer text.old length.old) (buffer text.new length.new) result }
{
    let ending = match why {
        ScriptFault::NoMemory | ScriptFault::WriteFailed => return Ending::NoMemory,
        ScriptFault::NotAnEvent(line) => Ending::NotAnEvent(*line),
        _ => Ending::BadConfig,
    };
    let Ok(words) = format!(in alloc; "{why}") else {
        return Ending::NoMemory;
    };
    if write_front(words.as_bytes(), text, length) {
        ending
    } else {
        Ending::NoRoom
    }
}

/// Writes bytes in the front of a slice, and how many they are, and gives whether they fit: else it
/// writes nothing.
fn write_front(front: &[u8], text: &mut [u8], length: &mut u64) -> bool
    ensures { WritesFront front.now (buffer text.old length.old) (buffer text.new length.new) result }
{
    if front.len() > text.len() {
        return false;
    }
    text[..front.len()].copy_from_slice(front);
    *length = front.len() as u64;
    true
}
