//! The first record that is wrong of a log, or of a ledger in the form of a log: damaged, or with a
//! number that it does not have.

ghost use Rattle.std.specs.Prelude.{◌≡◌, length};

use crate::command_line::{CommandName, Request};
use duk_host::UsedNumbers;
use duk_show::{damaged_record, take_in};
use duk_store::RECORD_LENGTH;
use duk_tdes::array_of;
use duk_tree::Ksn;
use std::alloc::Global;

/// The first record that is wrong of the log of a request, or of the ledger that it copies: the first
/// that is damaged, or else the first with a number that stands in no such file, or not behind those
/// before it.
pub(crate) fn wrong_record_in(alloc: Global, about: &Request<'_>, log: &[u8]) -> Option<u64> {
    match damaged_record(log) {
        Some(place) => Some(place),
        None => wrong_number(alloc, about, log),
    }
}

/// The place of the first number that has a counter in a ledger, or that numbers no transaction in a
/// log or stands there before. None also where memory is refused.
fn wrong_number(alloc: Global, about: &Request<'_>, log: &[u8]) -> Option<u64> {
    let mut used = UsedNumbers::new(alloc);
    for (place, record) in log.chunks_exact(RECORD_LENGTH).enumerate() {
        let ksn = number_in(record)?;
        let is_right = match about.command() {
            CommandName::CopyLedger => ksn.counter() == 0,
            _ => take_in(&mut used, ksn).ok()?,
        };
        if !is_right {
            return Some(place as u64);
        }
    }
    None
}

/// The number of a record, where it has one.
fn number_in(bytes: &[u8]) -> Option<Ksn>
    requires { length bytes.now ≡ 16 }
{
    if bytes[0] != 1 {
        return None;
    }
    Some(Ksn::from_bytes(array_of(&bytes[1..11])))
}
