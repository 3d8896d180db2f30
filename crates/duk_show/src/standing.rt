//! The numbers that the entries of a journal use and reverse, and the payments of them that stand.

ghost use Rattle.std.specs.Prelude.{◌≡◌, ◌≤◌, ◌<◌, ◌^◌, All, IfErr, IfOk, OnOk, cond, false, true};
ghost use Rattle.duk_journal.specs.Entry.{MayStandUnder};
ghost use Rattle.duk_journal.specs.Groups.{Entries};
ghost use Rattle.duk_journal.specs.Standing.{amount_approved, amount_if_approved, is_approval, is_paid, reversed_in, reversed_numbers, was_approved};
ghost use Rattle.duk_show.specs.declared.fault.ShowFault.TheVariants.{OutOfMemory};
ghost use Rattle.duk_show.specs.inner.Journal.{AddsAll, AreThose};
ghost use Rattle.duk_show.specs.inner.JournalTallies.{IsSmall, share_if, share_of};

use crate::fault::ShowFault;
use crate::journal_tallies::Share;
use duk_frame::Code;
use duk_host::UsedNumbers;
use duk_journal::{Decided, Entry};
use std::alloc::Global;

/// The numbers that entries reverse.
pub(crate) fn reversed_by_all(alloc: Global, entries: &[Entry]) -> Result<UsedNumbers, ShowFault>
    requires { All (λ entry. MayStandUnder entry.number entry.decided) entries.now }
    ensures reversed { IfOk result (AreThose (reversed_numbers entries.now)) }
    ensures refused { IfErr result (λ why. why ≡ OutOfMemory) }
{
    let mut reversed = UsedNumbers::new(alloc);
    for entry in entries {
        take_reversed(&mut reversed, entry)?;
    }
    Ok(reversed)
}

/// Takes the number that an entry reverses, where it is a reversal.
pub(crate) fn take_reversed(numbers: &mut UsedNumbers, entry: &Entry) -> Result<(), ShowFault>
    requires { MayStandUnder entry.now.number entry.now.decided }
    ensures taken { OnOk result (AddsAll (reversed_in entry.now.number entry.now.decided)
        numbers.old numbers.new) }
    ensures refused { IfErr result (λ why. why ≡ OutOfMemory) }
{
    duk_tree::laws::paths();
    let Decided::Reversal { counter, .. } = entry.decided else {
        return Ok(());
    };
    match numbers.insert(entry.number.with_counter(counter)) {
        Ok(_) => Ok(()),
        Err(_) => Err(ShowFault::OutOfMemory),
    }
}

/// What an entry adds to the line of its terminal, where these numbers were reversed.
pub(crate) fn share_of(entry: &Entry, reversed: &UsedNumbers) -> Share
    ensures share { (all : Entries) → AreThose (reversed_numbers all) reversed.now
        → result ≡ share_of all entry.now }
    ensures small { IsSmall result }
{
    duk_journal::laws::totals();
    if reversed.contains(entry.number) {
        reversed_share(entry.decided)
    } else {
        standing_share(entry.decided)
    }
}

/// What an entry adds whose number was reversed.
fn reversed_share(decided: Decided) -> Share
    ensures share { result ≡ share_if true decided }
    ensures small { IsSmall result }
{
    Share {
        payments: payments_in(decided),
        approved: 0,
        undone: approvals_in(decided),
    }
}

/// What one adds whose number was not.
fn standing_share(decided: Decided) -> Share
    ensures share { result ≡ share_if false decided }
    ensures small { IsSmall result }
{
    Share {
        payments: payments_in(decided),
        approved: amount_approved(decided),
        undone: 0,
    }
}

/// 1 where a payment was decided, or 0.
pub(crate) fn payments_in(decided: Decided) -> usize
    ensures one { result ≡ cond (is_paid decided) 1 0 }
    ensures fits { result ≤ 1 }
{
    match decided {
        Decided::Payment { .. } => 1,
        Decided::Reversal { .. } => 0,
    }
}

/// 1 where a payment was approved, or 0.
fn approvals_in(decided: Decided) -> usize
    ensures one { result ≡ cond (was_approved decided) 1 0 }
    ensures fits { result ≤ 1 }
{
    match decided {
        Decided::Payment { code, .. } => approvals_of(code),
        Decided::Reversal { .. } => 0,
    }
}

/// 1 where a code approves, or 0.
fn approvals_of(code: Code) -> usize
    ensures one { result ≡ cond (is_approval code) 1 0 }
    ensures fits { result ≤ 1 }
{
    match code {
        Code::Approved => 1,
        _ => 0,
    }
}

/// The amount of a payment that was approved, or 0.
fn amount_approved(decided: Decided) -> u128
    ensures amount { result ≡ amount_approved decided }
    ensures fits { result < 2 ^ 32 }
{
    match decided {
        Decided::Payment { amount, code } => amount_if_approved(code, amount),
        Decided::Reversal { .. } => 0,
    }
}

/// An amount, where its code approves, or 0.
fn amount_if_approved(code: Code, amount: u32) -> u128
    ensures amount { result ≡ amount_if_approved code amount }
    ensures fits { result < 2 ^ 32 }
{
    match code {
        Code::Approved => amount as u128,
        _ => 0,
    }
}
