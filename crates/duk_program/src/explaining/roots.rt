//! What is told of a configuration in which two prefixes have one key.

use crate::command_line::Request;
use crate::explaining::line::line_of;
use crate::explaining::paths::{File, told_path};
use crate::explaining::seen::{Found, Seen};
use duk_commands::Lines;
use duk_config::{LONGEST_FILE, read_config};
use duk_service::FileSystem;
use duk_tdes::Key;
use std::alloc::Global;

/// The line, LF at its end, that tells of the first two entries of the configuration of a request whose
/// base derivation keys are one. None where there are no two, and where the file is none that can be
/// read again, as a pipe.
pub(crate) fn equal_roots<S: FileSystem>(
    alloc: Global,
    files: &S,
    written: &Request<'_>,
    about: &Request<'_>,
) -> Option<Lines> {
    let bytes = files.read_again(alloc, about.text("CONFIG"), LONGEST_FILE)?;
    let config = read_config(alloc, bytes.as_slice()).ok()?;
    let (first, second) = equal_pair(config.bdks.as_slice())?;
    let seen = Seen::new("CONFIG", Found::EqualKeys(first, second))
        .of(File::Under("CONFIG"))
        .wanted("a key of its own for each prefix");
    Some(line_of(&seen, told_path(files, written, &seen)))
}

/// The numbers, from 1, of the first two entries whose keys are one.
fn equal_pair(bdks: &[([u8; 5], Key<16>)]) -> Option<(u64, u64)> {
    for (second, (_, key)) in bdks.iter().enumerate() {
        for (first, (_, other)) in bdks.iter().take(second).enumerate() {
            if are_one(key, other) {
                return Some((number_of(first), number_of(second)));
            }
        }
    }
    None
}

/// Whether two keys are one, whatever their parity bits are.
fn are_one(one: &Key<16>, other: &Key<16>) -> bool {
    let difference = one.xor(&other.bytes()).bytes();
    difference.iter().all(|byte| *byte < 2)
}

/// The number of the entry at a place, from 1.
fn number_of(place: usize) -> u64 {
    (place as u64).saturating_add(1)
}
