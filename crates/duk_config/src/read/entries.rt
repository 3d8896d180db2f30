//! The entries of an array of tables, read one after the other.

ghost use Rattle.std.specs.Prelude.{◌≡◌, IfOk, IfErr, MatchOption, length, map};
ghost use Rattle.toml.specs.View.{view};
ghost use Rattle.duk_config.specs.inner.EntryFaults.{IsEntriesFault};
ghost use Rattle.duk_config.specs.Entries.{AreEntries, IsBadAfter};
ghost use Rattle.duk_config.specs.inner.Entries.{IsNextEntry};

use super::entry::Entry;
use crate::fault::{ConfigKey, ScriptFault};
use std::alloc::Global;
use toml::Value;

/// The entries of the array at a key, one for each of its values, each tested wholly before the
/// next.
pub(crate) fn read_entries<E: Entry>(
    alloc: Global,
    key: ConfigKey,
    values: &[Value],
) -> Result<Vec<E>, ScriptFault>
    ensures read { IfOk result
        (λ entries. AreEntries E.States E.Repeats (map view values.now) entries.items) }
    ensures count { IfOk result (λ entries. length entries.items ≡ length values.now) }
    ensures refused { IfErr result (IsEntriesFault E.States E.Repeats key (map view values.now)) }
{
    let mut entries: Vec<E> = Vec::new(alloc);
    for (i, value) in values.iter().enumerate() {
        let Some(entry) = next_entry(value, entries.as_slice()) else {
            return Err(ScriptFault::BadEntry(key, i as u64 + 1));
        };
        entries.push(entry)?;
    }
    Ok(entries)
}

/// The entry that a value states, where it repeats none of these.
fn next_entry<E: Entry>(value: &Value, earlier: &[E]) -> Option<E>
    ensures { MatchOption result (IsBadAfter E.States E.Repeats earlier.now (view value.now))
        (IsNextEntry E.States E.Repeats earlier.now (view value.now)) }
{
    let entry = E::read(value)?;
    if earlier.iter().any(|other| entry.repeats(other)) {
        return None;
    }
    Some(entry)
}
