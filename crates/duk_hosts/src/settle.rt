//! How a candidate is settled by the entries of a book without bound: each of them is looked at.

ghost use Rattle.std.specs.Prelude.{◌≡◌, ◌≢◌, ◌↔◌, Contains, IfNone, IfSome, IsTrue};
ghost use Rattle.duk_frame.specs.declared.code.Code.{Code};
ghost use Rattle.duk_journal.specs.Standing.{numbers_in, reversed_in, reversed_numbers, used_by};
ghost use Rattle.duk_reversal.specs.declared.state.ReversalState.{ReversalState};
ghost use Rattle.duk_journal_host.specs.Judgement.{FindsState, reversal_entry};
ghost use Rattle.duk_journal_host.specs.Steps.{IsUnknown};
ghost use Rattle.duk_journal_host.specs.declared.candidate.Candidate.TheVariants as candidate;
ghost use Rattle.duk_journal_host.specs.declared.settlement.Settled.TheVariants as settled;
ghost use Rattle.duk_hosts.specs.Book.{IsSettledIn, KnowsPurchase, KnowsReversal, NoBound};
ghost use Rattle.duk_hosts.specs.inner.Kept.{IsApprovalOf, IsPaymentOf, IsPaymentKept};

use duk_frame::Code;
use duk_journal::{Decided, Entry};
use duk_journal_host::{Candidate, Purchase, Settled, Settlement};
use duk_reversal::{Reversal, ReversalState};
use duk_tree::Ksn;

/// Settles a candidate by these entries.
pub(crate) fn settle_one(entries: &[Entry], candidate: &Candidate) -> Settled
    ensures { IsSettledIn NoBound entries.now candidate.now result }
{
    match candidate {
        Candidate::Payment(purchase, code) => {
            Settled::Payment(*purchase, settle_purchase(entries, purchase, *code))
        }
        Candidate::Reversal(reversal) => {
            Settled::Reversal(*reversal, settle_reversal(entries, reversal))
        }
    }
}

/// Settles a purchase, which has this code where it is kept.
fn settle_purchase(entries: &[Entry], purchase: &Purchase, code: Code) -> Settlement<Code>
    ensures { IsSettledIn NoBound entries.now (candidate.Payment purchase.now code)
        (settled.Payment purchase.now result) }
{
    if let Some(kept) = code_kept(entries, purchase) {
        return Settlement::KnownAgain(kept);
    }
    if is_used(entries, purchase.number) {
        return Settlement::Used;
    }
    Settlement::Kept(code)
}

/// Settles a reversal.
fn settle_reversal(entries: &[Entry], reversal: &Reversal) -> Settlement<ReversalState>
    ensures { IsSettledIn NoBound entries.now (candidate.Reversal reversal.now)
        (settled.Reversal reversal.now result) }
{
    if let Some(state) = state_kept(entries, reversal) {
        return Settlement::KnownAgain(state);
    }
    if is_used(entries, reversal.numbers.ksn()) {
        return Settlement::Used;
    }
    Settlement::Kept(state_found(entries, reversal.numbers.reversed()))
}

/// The code of the same purchase, if it is kept and not undone.
fn code_kept(entries: &[Entry], purchase: &Purchase) -> Option<Code>
    ensures found { IfSome result (KnowsPurchase NoBound entries.now purchase.now) }
    ensures none { IfNone result (IsUnknown (KnowsPurchase NoBound entries.now purchase.now)) }
{
    let code = code_paid(entries, purchase)?;
    if is_reversed(entries, purchase.number) {
        return None;
    }
    Some(code)
}

/// The code of the same purchase, if it is kept, whether or not it is undone.
fn code_paid(entries: &[Entry], purchase: &Purchase) -> Option<Code>
    ensures found { IfSome result (IsPaymentKept entries.now purchase.now) }
    ensures none { IfNone result (IsUnknown (IsPaymentKept entries.now purchase.now)) }
{
    for entry in entries {
        if let Some(code) = code_in(entry, purchase) {
            return Some(code);
        }
    }
    None
}

/// The code of an entry, if it is one of the same purchase.
fn code_in(entry: &Entry, purchase: &Purchase) -> Option<Code>
    ensures found { IfSome result (λ code. IsPaymentOf purchase.now code entry.now) }
    ensures none { IfNone result ((code : Code) → ¬ IsPaymentOf purchase.now code entry.now) }
{
    if entry.number != purchase.number || entry.mac != purchase.mac {
        return None;
    }
    match entry.decided {
        Decided::Payment { code, .. } => Some(code),
        Decided::Reversal { .. } => None,
    }
}

/// What the same reversal found, if it is kept.
fn state_kept(entries: &[Entry], reversal: &Reversal) -> Option<ReversalState>
    ensures found { IfSome result (KnowsReversal NoBound entries.now reversal.now) }
    ensures none { IfNone result (IsUnknown (KnowsReversal NoBound entries.now reversal.now)) }
{
    for entry in entries {
        if let Some(state) = state_in(entry, reversal) {
            return Some(state);
        }
    }
    None
}

/// What the reversal of an entry found, if it is the same one.
fn state_in(entry: &Entry, reversal: &Reversal) -> Option<ReversalState>
    ensures found { IfSome result (λ state. entry.now ≡ reversal_entry reversal.now state) }
    ensures none { IfNone result
        ((state : ReversalState) → entry.now ≢ reversal_entry reversal.now state) }
{
    let numbers = reversal.numbers;
    if entry.number != numbers.ksn() || entry.mac != reversal.mac {
        return None;
    }
    match entry.decided {
        Decided::Reversal { counter, state } if counter == numbers.reversed().counter() => {
            Some(state)
        }
        _ => None,
    }
}

/// What a reversal of this number finds.
fn state_found(entries: &[Entry], number: Ksn) -> ReversalState
    ensures { FindsState entries.now number result }
{
    for entry in entries {
        if is_approval(entry, number) {
            return ReversalState::Undone;
        }
    }
    ReversalState::NoneStands
}

/// Whether an entry is an approved payment of this number.
fn is_approval(entry: &Entry, number: Ksn) -> bool
    ensures { IsTrue result ↔ IsApprovalOf number entry.now }
{
    if entry.number != number {
        return false;
    }
    match entry.decided {
        Decided::Payment {
            code: Code::Approved,
            ..
        } => true,
        _ => false,
    }
}

/// Whether an entry uses a number.
fn is_used(entries: &[Entry], number: Ksn) -> bool
    ensures { IsTrue result ↔ Contains (used_by entries.now) number }
{
    for entry in entries {
        if uses(entry, number) {
            return true;
        }
    }
    false
}

/// Whether an entry uses a number: as its own, or as the one that it reverses.
fn uses(entry: &Entry, number: Ksn) -> bool
    ensures { IsTrue result ↔ Contains (numbers_in entry.now) number }
{
    entry.number == number || reverses(entry, number)
}

/// Whether a number is reversed.
fn is_reversed(entries: &[Entry], number: Ksn) -> bool
    ensures { IsTrue result ↔ Contains (reversed_numbers entries.now) number }
{
    for entry in entries {
        if reverses(entry, number) {
            return true;
        }
    }
    false
}

/// Whether an entry is a reversal of this number.
fn reverses(entry: &Entry, number: Ksn) -> bool
    ensures { IsTrue result ↔ Contains (reversed_in entry.now.number entry.now.decided) number }
{
    match entry.decided {
        Decided::Payment { .. } => false,
        Decided::Reversal { counter, .. } => {
            entry.number.iksn() == number.iksn() && counter == number.counter()
        }
    }
}
