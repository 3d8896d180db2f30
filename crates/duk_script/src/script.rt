//! Reads a script: from its bytes to its events.

ghost use Rattle.std.specs.Prelude.{◌≡◌, ◌⊎◌, ◌+◌, ◌<◌, ◌∷◌, ◌++◌, ◌==◌, [], ℕ, List, length, position, IsTrue, IfOk, IfErr, OnOk, MatchResult};
ghost use Rattle.std.specs.Str.Lines.{lines, strip_carriage_return};
ghost use Rattle.duk_net.specs.declared.event.Event.{Event};
ghost use Rattle.duk_script.specs.Script.{IsQuiet, IsLawful, IsEventLine, IsScript, IsNoScript};
ghost use Rattle.duk_script.specs.inner.Reading.{AddsLine};

use crate::event_line::read_event;
use duk_config::ScriptFault;
use duk_net::Event;
use std::alloc::Global;

/// The events of a script, line by line.
///
/// Lines end with LF, which the last may lack, and one CR before an LF is dropped. A line that is
/// empty or begins with `#` says nothing. Any other is `load T IKSN`, `begin T PAN PIN AMOUNT`, `up
/// K`, `down K T`, `restart T`, `restart host`, `arm T N` or `arm host N`, with one space between
/// each two tokens and none at its ends: T is `t` and a number from 1 to 16, and numbers are
/// decimal, at most 4,294,967,295, without leading zeros. So bytes that are no UTF-8 may stand in
/// comments alone.
///
/// Errors: `NotAnEvent` reports the first line that is none of these, counting all lines from 1;
/// `NoMemory` comes where the list of events could not grow. No other comes from here.
pub fn parse_script(alloc: Global, text: &[u8]) -> Result<Vec<Event>, ScriptFault>
    ensures events { IfOk result (λ events. IsScript text.now events.items) }
    ensures refused { IfErr result (λ fault. (fault ≡ ScriptFault.NoMemory)
        ⊎ ((line : ℕ) × (fault ≡ ScriptFault.NotAnEvent line) × IsNoScript text.now line)) }
    ensures every { (events : List Event) → IsScript text.now events
        → MatchResult result (λ read. read.items ≡ events) (λ fault. fault ≡ ScriptFault.NoMemory) }
    ensures first { (line : ℕ) → IsNoScript text.now line → MatchResult result (λ _. ⊥)
        (λ fault. (fault ≡ ScriptFault.NotAnEvent line) ⊎ (fault ≡ ScriptFault.NoMemory)) }
{
    let mut events = Vec::new(alloc);
    let mut rest = text;
    let mut number = 0;
    while !rest.is_empty() {
        let (line, after) = split_line(rest);
        number += 1;
        add_line(&mut events, line, number)?;
        rest = after;
    }
    Ok(events)
}

/// Adds the event of a line, unless it says nothing.
fn add_line(events: &mut Vec<Event>, line: &[u8], number: u64) -> Result<(), ScriptFault>
    ensures added { OnOk result (AddsLine line.now events.old.items events.new.items) }
    ensures refused { IfErr result (λ fault. (fault ≡ ScriptFault.NoMemory)
        ⊎ ((fault ≡ ScriptFault.NotAnEvent number) × ¬ IsLawful line.now)) }
{
    if is_quiet(line) {
        return Ok(());
    }
    let event = read_event(line).ok_or(ScriptFault::NotAnEvent(number))?;
    events.push(event)?;
    Ok(())
}

/// Whether a line says nothing.
pub fn is_quiet(line: &[u8]) -> bool
    ensures quiet { IsTrue result → IsQuiet line.now }
    ensures every { IsQuiet line.now → IsTrue result }
{
    match line {
        [] | [b'#', ..] => true,
        _ => false,
    }
}

/// The first line of a text that is not empty, and the text after it.
pub fn split_line(text: &[u8]) -> (&[u8], &[u8])
    requires { 0 < length text.now }
    ensures first { lines text.now ≡ result.0.now ∷ lines result.1.now }
    ensures shorter { length result.1.now < length text.now }
{
    match line_end(text) {
        Some(end) => (without_return(&text[..end]), &text[end + 1..]),
        None => (text, &[]),
    }
}

/// The place of the first LF.
fn line_end(text: &[u8]) -> Option<usize>
    ensures { result ≡ position (λ byte. byte == 10) text.now }
{
    text.iter().position(|byte| *byte == b'\n')
}

/// A line without the one CR at its end.
fn without_return(line: &[u8]) -> &[u8]
    ensures { result.now ≡ strip_carriage_return line.now }
{
    match line {
        [front @ .., b'\r'] => front,
        _ => line,
    }
}
