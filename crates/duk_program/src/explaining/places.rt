//! The line of a configuration that a fault is about.

use duk_config::ScriptFault;
use std::alloc::Global;
use std::str;

/// The line of a configuration that a fault is about, from 1, where there is such a line.
///
/// Of what is no TOML it is the line at which its reader stops; of a key the first that gives it a
/// value, or is the header of its table; of an entry, counted from 1, the header of that number. A
/// key that is quoted there is not found.
pub(crate) fn line_of_fault(alloc: Global, config: &[u8], why: &ScriptFault) -> Option<u64> {
    match why {
        ScriptFault::NotToml => line_of_stop(alloc, config),
        ScriptFault::UnknownKey(key) => line_of_key(config, key.as_str()),
        ScriptFault::BadKey(key) => line_of_key(config, key.name()),
        ScriptFault::BadEntry(key, entry) => line_of_entry(config, key.name(), *entry),
        _ => None,
    }
}

/// The line at which the reader of TOML stops in what is none. None also where memory is refused.
fn line_of_stop(alloc: Global, config: &[u8]) -> Option<u64> {
    let stop = toml::table_from_slice(alloc, config).err()?.span()?.start;
    let ends = config[..stop].iter().filter(|byte| **byte == b'\n');
    Some(number_of(ends.count()))
}

/// The first line about a key.
fn line_of_key(config: &[u8], key: &str) -> Option<u64> {
    let mut lines = str::from_utf8(config).ok()?.lines();
    lines.position(|line| is_about(line, key)).map(number_of)
}

/// The header of an entry of a key.
fn line_of_entry(config: &[u8], key: &str, entry: u64) -> Option<u64> {
    let mut left = entry;
    for (place, line) in str::from_utf8(config).ok()?.lines().enumerate() {
        if is_header(line, "[[", key, "]]") {
            left = left.saturating_sub(1);
            if left == 0 {
                return Some(number_of(place));
            }
        }
    }
    None
}

/// The number of the line at a place, from 1.
fn number_of(place: usize) -> u64 {
    (place as u64).saturating_add(1)
}

/// Whether a line gives a key its value, or is the header of its table or of an entry.
fn is_about(line: &str, key: &str) -> bool {
    let value = line.split_once('=');
    value.is_some_and(|(front, _)| front.trim() == key)
        || is_header(line, "[", key, "]")
        || is_header(line, "[[", key, "]]")
}

/// Whether a line is a key between brackets, with blanks anywhere, and perhaps a comment.
fn is_header(line: &str, opening: &str, key: &str, closing: &str) -> bool {
    let front = line.split_once('#').map_or(line, |(front, _)| front).trim();
    let behind = front.strip_prefix(opening);
    let inner = behind.and_then(|behind| behind.strip_suffix(closing));
    inner.is_some_and(|inner| inner.trim() == key)
}
