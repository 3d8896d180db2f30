//! Writes the line of a fault of a configuration or a script.

ghost use Rattle.std.specs.Prelude.{◌≡◌, ◌++◌, ◌≤◌, codes, length, OnOk, OnErr};
ghost use Rattle.duk_config.specs.ConfigKeys.{key_name};
ghost use Rattle.duk_script.specs.FaultLine.{fault_line};
ghost use Rattle.duk_script.specs.inner.FaultLine.{unknown_line};
ghost use Rattle.duk_io.specs.Sink.{IsCut, IsTried, IsWritten};

use crate::line::{Line, LineText};
use duk_config::{ConfigKey, ScriptFault};
use duk_io::{Sink, WriteFailed, write_text};

/// Writes the line of a fault, LF at its end. What cannot be written of the line is lost.
pub fn print_fault<F: Sink>(why: &ScriptFault, fault: &mut F)
    ensures line { IsTried (F.known fault.old) (F.known fault.new) (fault_line why.now) }
{
    match why {
        ScriptFault::ConfigTooLong => report(fault, b"config: too long\n"),
        ScriptFault::NotToml => report(fault, b"config: not TOML\n"),
        ScriptFault::UnknownKey(name) => report_unknown(fault, name.as_bytes()),
        ScriptFault::BadKey(key) => report(fault, bad_key(*key).end().as_slice()),
        ScriptFault::BadEntry(key, place) => report(fault, bad_entry(*key, *place).as_slice()),
        ScriptFault::CannotRead => report(fault, b"script: cannot read\n"),
        ScriptFault::TooLong => report(fault, b"script: too long\n"),
        ScriptFault::NotAnEvent(line) => report(fault, not_an_event(*line).as_slice()),
        ScriptFault::WriteFailed => report(fault, b"script: write failed\n"),
        ScriptFault::NoMemory => report(fault, b"out of memory\n"),
    }
}

/// Writes a line, as far as that can be done.
fn report<F: Sink>(fault: &mut F, line: &[u8])
    ensures line { IsTried (F.known fault.old) (F.known fault.new) line.now }
{
    let _ = write_text(fault, line);
}

/// Writes the line of an unknown key, as far as that can be done.
fn report_unknown<F: Sink>(fault: &mut F, name: &[u8])
    ensures line { IsTried (F.known fault.old) (F.known fault.new) (unknown_line name.now) }
{
    let _ = write_unknown(fault, name);
}

/// Writes the line of an unknown key, which may have any length.
fn write_unknown<F: Sink>(fault: &mut F, name: &[u8]) -> Result<(), WriteFailed>
    ensures written { OnOk result
        (IsWritten (F.known fault.old) (F.known fault.new) (unknown_line name.now)) }
    ensures cut { OnErr result
        (IsCut (F.known fault.old) (F.known fault.new) (unknown_line name.now)) }
{
    duk_io::laws::writes();
    write_text(fault, b"config: unknown ")?;
    write_text(fault, name)?;
    write_text(fault, b"\n")
}

/// The line of a key with a wrong value, but for its end.
#[tactic(auto, using(crate::proofs::ShortNames::short_name))]
fn bad_key(key: ConfigKey) -> Line
    ensures text { result ≡ codes "config: bad " ++ key_name key }
    ensures bound { length result ≤ 30 }
{
    Line::of_token(b"config:")
        .token(b"bad")
        .token(key.name().as_bytes())
}

/// The line of an entry with a wrong value.
fn bad_entry(key: ConfigKey, place: u64) -> LineText
    ensures { result.items ≡ fault_line (ScriptFault.BadEntry key place) }
{
    bad_key(key).number(place).end()
}

/// The line of a line that is no event.
fn not_an_event(line: u64) -> LineText
    ensures { result.items ≡ fault_line (ScriptFault.NotAnEvent line) }
{
    Line::of_token(b"line")
        .number(line)
        .colon()
        .token(b"not")
        .token(b"an")
        .token(b"event")
        .end()
}
