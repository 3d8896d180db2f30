//! Which numbers stand in one log: those of a host, or those of a ledger.

ghost use Rattle.std.specs.Prelude.{◌≡◌, IfOk, MatchOption};
ghost use Rattle.duk_show.specs.Log.{AreOfOneLog, IsFirstOther, IsTaken};
ghost use Rattle.duk_show.specs.inner.OneLog.{AreUsableAs, as_used, kept_of};

use duk_host::UsedNumbers;
use duk_tree::{Ksn, usable};
use std::alloc::{AllocError, Global};

/// Which numbers a log keeps.
#[derive(Clone, Copy)]
pub(crate) enum Keeps {
    /// Those of transactions, as a host's.
    Used,
    /// Initial key serial numbers, as a ledger.
    Issued,
}

/// The place of the first number that is not of one log with those before it; `None` where all are.
pub(crate) fn first_other(alloc: Global, numbers: &[Ksn]) -> Result<Option<usize>, AllocError>
    ensures { IfOk result (λ place. MatchOption place (AreOfOneLog numbers.now)
        (IsFirstOther AreOfOneLog numbers.now)) }
{
    first_unusable(alloc, kept_of(numbers), numbers)
}

/// What a log keeps that begins with these numbers.
fn kept_of(numbers: &[Ksn]) -> Keeps
    ensures { result ≡ kept_of numbers.now }
{
    match numbers {
        [first, ..] if first.counter() == 0 => Keeps::Issued,
        _ => Keeps::Used,
    }
}

/// The place of the first number that a log which keeps such does not keep, or keeps already.
fn first_unusable(alloc: Global, keeps: Keeps, numbers: &[Ksn]) -> Result<Option<usize>, AllocError>
    ensures { IfOk result (λ place. MatchOption place (AreUsableAs keeps numbers.now)
        (IsFirstOther (AreUsableAs keeps) numbers.now)) }
{
    let mut used = UsedNumbers::new(alloc);
    for place in 0..numbers.len() {
        let number = as_used(keeps, numbers[place]);
        match take_in(&mut used, number) {
            Ok(true) => {}
            Ok(false) => return Ok(Some(place)),
            Err(refused) => return Err(refused),
        }
    }
    Ok(None)
}

/// A number of a log as one that a host may have used: an initial key serial number with counter 1.
fn as_used(keeps: Keeps, number: Ksn) -> Ksn
    ensures { result ≡ as_used keeps number }
{
    match keeps {
        Keeps::Used => number,
        Keeps::Issued => number.with_counter(u32::from(number.counter() == 0)),
    }
}

/// Adds a number to those before it, and reports whether it goes with them: it numbers a
/// transaction, and is not among them.
pub fn take_in(used: &mut UsedNumbers, ksn: Ksn) -> Result<bool, AllocError>
    ensures { IfOk result (IsTaken used.old ksn used.new) }
{
    if !usable(ksn.counter()) {
        return Ok(false);
    }
    used.insert(ksn)
}
