//! The command `run`: plays a script under a configuration.

ghost use Rattle.std.specs.Prelude.{◌≡◌, ◌⊎◌, IfErr, OnOk};
ghost use Rattle.duk_program.specs.CommandLine.{row_of};
ghost use Rattle.duk_program.specs.inner.CommandLine.{row_of_usage};
ghost use Rattle.duk_config.specs.declared.fault.ScriptFault.{ScriptFault};
ghost use Rattle.duk_io.specs.Sink.{IsHandedOn, IsUntouched};
ghost use Rattle.duk_program.specs.Run.{HasNotPlayed, HasPlayed, HasReportedRun, IsDoneOver, IsRefusedOver};
ghost use Rattle.duk_script.specs.Session.{IsRunDone, IsRunRefused, session};
ghost use Rattle.duk_program.specs.RunFiles.{HasNotRunFiles, HasRunFiles, file_run};

use crate::command_line::CommandName;
use crate::command_line::arguments::Form::Plain;
use crate::command_line::arguments::{Argument, Usage, Way};
use crate::configuration::read_configuration;
use crate::fault::Fault;
use crate::shape::{Answers, Shape};
use duk_commands::hand_on;
use duk_config::{Config, LONGEST_FILE, ScriptFault};
use duk_io::{Sink, Source};
use duk_script::{play_script, print_fault, run_script};
use duk_service::{FileFault, FileSystem};
use std::alloc::Global;

/// `run CONFIG SCRIPT [--journal]`
pub(crate) fn usage<'a>() -> Usage<'a>
    ensures { row_of_usage result ≡ row_of CommandName.Run }
{
    Usage {
        name: "run",
        way: Way::Files,
        answers: Answers::Are(Shape::Text),
        about: "Runs a script of events, and prints what comes of each",
        after_help: HELP,
        conflict: None,
        arguments: &[
            Argument::Needed(Plain, "CONFIG", "The file of the configuration, in TOML"),
            Argument::Needed(
                Plain,
                "SCRIPT",
                "The file of the script, an event on each line",
            ),
            Argument::Flag(
                "journal",
                "Plays it over tills, which reverse payments, and a host with a journal",
            ),
        ],
    }
}

/// Runs the script that a reader gives, under the configuration with these bytes, and writes a line
/// to `output` for what comes of each event. Gives the status: 0, or 1 with a line on `fault`.
///
/// The faults, in this order: those of the configuration, before which nothing is read; those of
/// the script, before which nothing is written; then, as they come, `out of memory` and `script:
/// write failed`. At the end `output` is flushed; where it cannot hand on what it holds back, that is
/// reported, as `script: write failed`, in place of any other.
pub fn run_status<R: Source, W: Sink, F: Sink>(
    alloc: Global,
    config: &[u8],
    reader: &mut R,
    output: &mut W,
    fault: &mut F,
) -> u8
    ensures status { (result ≡ 0) ⊎ (result ≡ 1) }
    ensures handed_on { result ≡ 0 → IsHandedOn (W.held_back output.new) }
    ensures done { result ≡ 0 → HasPlayed (λ output'. IsRunDone config.now
        (session (R.known reader.old) (R.known reader.new) (W.known output.old) output'))
        (W.known output.new) }
    ensures no_fault { result ≡ 0 → IsUntouched (F.known fault.old) (F.known fault.new) }
    ensures not_done { result ≡ 1 → HasReportedRun (λ output'. IsRunDone config.now
        (session (R.known reader.old) (R.known reader.new) (W.known output.old) output'))
        (λ why output'. IsRunRefused config.now
        (session (R.known reader.old) (R.known reader.new) (W.known output.old) output') why)
        (W.known output.new) (F.known fault.old) (F.known fault.new) }
{
    duk_io::laws::writes();
    let ended = run_script(alloc, config, reader, output);
    match hand_on(ended, ScriptFault::WriteFailed, output) {
        Ok(()) => 0,
        Err(why) => {
            print_fault(&why, fault);
            1
        }
    }
}

/// Plays a script of these bytes under a configuration, and hands on the lines of its events; with
/// `journal` over tills and a host with a journal.
pub(crate) fn play_whole<W: Sink>(
    alloc: Global,
    config: &Config,
    script: &[u8],
    journal: bool,
    output: &mut W,
) -> Result<(), ScriptFault>
    ensures done { OnOk result (HasPlayed
        (IsDoneOver journal config.now script.now (W.known output.old)) (W.known output.new)) }
    ensures handed_on { OnOk result (IsHandedOn (W.held_back output.new)) }
    ensures not_done { IfErr result (λ why. HasNotPlayed
        (IsDoneOver journal config.now script.now (W.known output.old))
        (λ why output'. IsRefusedOver journal config.now script.now (W.known output.old) output' why)
        why (W.known output.new)) }
{
    let ended = play(alloc, config, script, journal, output);
    hand_on(ended, ScriptFault::WriteFailed, output)
}

/// Plays a script under a configuration: over tills and a host with a journal, or over terminals and a
/// host with a log.
fn play<W: Sink>(
    alloc: Global,
    config: &Config,
    script: &[u8],
    journal: bool,
    output: &mut W,
) -> Result<(), ScriptFault>
    ensures done { OnOk result
        (IsDoneOver journal config.now script.now (W.known output.old) (W.known output.new)) }
    ensures refused { IfErr result
        (IsRefusedOver journal config.now script.now (W.known output.old) (W.known output.new)) }
{
    if journal {
        duk_play::play_script(alloc, config, script, output)
    } else {
        play_script(alloc, config, script, output)
    }
}

/// Runs the script of one file under the configuration of another. With `journal` it is played over
/// tills and a host with a journal.
///
/// The configuration is read and tested before the script is read. The faults, in this order:
/// `config: cannot read` and `config: too long`; those of the configuration; `script: cannot read`
/// and `script: too long`; those of the script and of its lines, as `run_status` reports them. A
/// file cannot be read where it cannot be opened or a read fails, so a folder cannot. Where the
/// cause is that memory was refused, the fault is `out of memory` instead.
pub(crate) fn run_files<S: FileSystem, W: Sink>(
    alloc: Global,
    files: &S,
    config: &str,
    script: &str,
    journal: bool,
    output: &mut W,
) -> Result<(), Fault>
    ensures done { OnOk result (HasRunFiles (file_run (S.held files.now config.now)
        (S.held files.now script.now) journal (W.known output.old) (W.known output.new))) }
    ensures handed_on { OnOk result (IsHandedOn (W.held_back output.new)) }
    ensures not_done { IfErr result (HasNotRunFiles (file_run (S.held files.now config.now)
        (S.held files.now script.now) journal (W.known output.old) (W.known output.new))) }
{
    duk_io::laws::writes();
    let config = read_configuration(alloc, files, config)?;
    let script = match files.read_file(alloc, script, LONGEST_FILE) {
        Ok(script) => script,
        Err(FileFault::CannotRead) => return Err(Fault::Script(ScriptFault::CannotRead)),
        Err(FileFault::TooLong) => return Err(Fault::Script(ScriptFault::TooLong)),
        Err(FileFault::NoMemory) => return Err(Fault::Script(ScriptFault::NoMemory)),
    };
    match play_whole(alloc, &config, script.as_slice(), journal, output) {
        Ok(()) => Ok(()),
        Err(why) => Err(Fault::Script(why)),
    }
}

/// At the end of its help.
const HELP: &str = "\
A frame is delivered only where SCRIPT says so. What a terminal or the host refuses is a line, and no
fault.

With --journal each terminal is a till: it has one purchase open at a time, whose outcome a second store
keeps, its book. The host keeps what it decided in a journal. SCRIPT may have two more lines: `reverse T`
sends the reversal of the open purchase, and `arm T book N` lets the book fail.

Example:
  $ dukpt run examples/bank.toml examples/payment.script
  t1 loaded FFFF9876543210E00000
  t1 sent 1 FFFF9876543210E00001
  answer 1 accepted FFFF9876543210E00001 00
  t1 done FFFF9876543210E00001 00
  t1 sent 2 FFFF9876543210E00002
  answer 2 accepted FFFF9876543210E00002 51
  t1 done FFFF9876543210E00002 51

Of a script whose reply is lost, with --journal:
  t1 sent 1 FFFF9876543210E00001
  answer 1 accepted FFFF9876543210E00001 00
  t1 reversing 2 FFFF9876543210E00002 of FFFF9876543210E00001
  answer 2 undone FFFF9876543210E00002 of FFFF9876543210E00001 01
  t1 undone FFFF9876543210E00001

Faults, on standard error with status 1, the first alone; --explain says more:
  config: ..             The configuration: cannot read, too long, not TOML, unknown KEY, bad KEY
  script: cannot read    SCRIPT cannot be opened or read
  script: too long       SCRIPT has more than 1048576 bytes
  line I: not an event   The first line of SCRIPT that is none
  script: write failed   Standard output takes no more
  out of memory          Memory was refused";
