//! Reads a script: from its bytes to its events.

ghost use Rattle.std.specs.Prelude.{◌≡◌, ◌⊎◌, ℕ, List, IfOk, IfErr, OnOk, MatchResult};
ghost use Rattle.duk_books.specs.declared.event.Event.{Event as EventValue};
ghost use Rattle.duk_play.specs.Script.{IsLawful, IsNoScript, IsScript};
ghost use Rattle.duk_play.specs.inner.Reading.{AddsLine};

use crate::event_line::read_event;
use duk_books::Event;
use duk_config::ScriptFault;
use duk_script::{is_quiet, split_line};
use std::alloc::Global;

/// The events of a script, line by line.
///
/// Its lines are those of a script of terminals (`duk_script::parse_script`), and `reverse T` and
/// `arm T book N`.
///
/// Errors: `NotAnEvent` reports the first line that is none of these, counting all lines from 1;
/// `NoMemory` comes where the list of events could not grow. No other comes from here.
pub fn parse_script(alloc: Global, text: &[u8]) -> Result<Vec<Event>, ScriptFault>
    ensures events { IfOk result (λ events. IsScript text.now events.items) }
    ensures refused { IfErr result (λ fault. (fault ≡ ScriptFault.NoMemory)
        ⊎ ((line : ℕ) × (fault ≡ ScriptFault.NotAnEvent line) × IsNoScript text.now line)) }
    ensures every { (events : List EventValue) → IsScript text.now events
        → MatchResult result (λ read. read.items ≡ events) (λ fault. fault ≡ ScriptFault.NoMemory) }
    ensures first { (line : ℕ) → IsNoScript text.now line → MatchResult result (λ _. ⊥)
        (λ fault. (fault ≡ ScriptFault.NotAnEvent line) ⊎ (fault ≡ ScriptFault.NoMemory)) }
{
    let mut events = Vec::new(alloc);
    let mut rest = text;
    let mut number = 0;
    while !rest.is_empty() {
        let (line, after) = split_line(rest);
        number += 1;
        add_line(&mut events, line, number)?;
        rest = after;
    }
    Ok(events)
}

/// Adds the event of a line, unless it says nothing.
fn add_line(events: &mut Vec<Event>, line: &[u8], number: u64) -> Result<(), ScriptFault>
    ensures added { OnOk result (AddsLine line.now events.old.items events.new.items) }
    ensures refused { IfErr result (λ fault. (fault ≡ ScriptFault.NoMemory)
        ⊎ ((fault ≡ ScriptFault.NotAnEvent number) × ¬ IsLawful line.now)) }
{
    if is_quiet(line) {
        return Ok(());
    }
    let event = read_event(line).ok_or(ScriptFault::NotAnEvent(number))?;
    events.push(event)?;
    Ok(())
}
