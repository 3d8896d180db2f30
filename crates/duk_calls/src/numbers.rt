//! Key serial numbers, and the order in which a terminal uses them (ANSI X9.24-1:2009 annex A).

ghost use Rattle.duk_calls.specs.Numbers.{CheckUsableAnswers, NextNumberAnswers};

use crate::arguments::{serial_number, write_front};
use crate::fault::Fault;
use duk_tree::{next_usable, usable};

/// Whether a key serial number (10 bytes) numbers a transaction: its counter has one to ten one
/// bits.
///
/// Refused with, in this order: `Length`; `NotUsable`.
pub fn check_usable(ksn: &[u8]) -> Result<(), Fault>
    ensures { CheckUsableAnswers ksn.now result }
{
    if ksn.len() != 10 {
        return Err(Fault::Length);
    }
    if usable(serial_number(ksn).counter()) {
        Ok(())
    } else {
        Err(Fault::NotUsable)
    }
}

/// Writes the key serial number that a terminal uses after this one (10 bytes), that with the least
/// usable counter above its own, in the front of a slice of at least 10 bytes.
///
/// Refused with, in this order: `Length`; `Spent`.
pub fn next_number(ksn: &[u8], next: &mut [u8]) -> Result<(), Fault>
    ensures { NextNumberAnswers ksn.now next.old next.new result }
{
    if ksn.len() != 10 || next.len() < 10 {
        return Err(Fault::Length);
    }
    duk_tree::laws::bits();
    let ksn = serial_number(ksn);
    let Some(counter) = next_usable(ksn.counter()) else {
        return Err(Fault::Spent);
    };
    write_front(&ksn.with_counter(counter).bytes(), next);
    Ok(())
}
