//! How authentic frames are settled by what is kept.

ghost use Rattle.std.specs.Prelude.{◌≡◌, ◌≤◌, ℕ, IfNone, IfOk, IfSome, IsSome, OnErr, length};
ghost use Rattle.duk_frame.specs.declared.code.Code.{Code};
ghost use Rattle.duk_host.specs.Judgement.{IsCodeOf};
ghost use Rattle.duk_hsm.specs.Keys.{HsmKeys};
ghost use Rattle.duk_hsm.specs.TransactionKeys.{AreTransactionKeys};
ghost use Rattle.duk_journal.specs.Groups.{Entries};
ghost use Rattle.duk_reversal.specs.declared.state.ReversalState.{ReversalState};
ghost use Rattle.duk_tree.specs.Path.{IsUsable};
ghost use Rattle.duk_journal_host.specs.Host.{HasSets, IsIndexOf};
ghost use Rattle.duk_journal_host.specs.Judgement.{FindsState, room_for_payments};
ghost use Rattle.duk_journal_host.specs.Steps.{IsAdmissible, added_by, purchase_of};
ghost use Rattle.duk_journal_host.specs.inner.Judged.{IsCodeKept, IsStateKept};
ghost use Rattle.duk_journal_host.specs.inner.Steps.{HasRoomFor, IsItsCode, IsOf, IsOpenedUnder, SettlesPurchase, SettlesReversal, SettlesTo, number_of, room_for};

use crate::authentic::{Authentic, Purchase};
use crate::index::Index;
use crate::settlement::{Settled, Settlement, reversal_entry};
use duk_frame::Code;
use duk_host::{Issuer, Payment, code_for};
use duk_journal::Decided;
use duk_reversal::{Reversal, ReversalState};
use duk_tree::Ksn;
use std::alloc::AllocError;

/// For how many more entries there is room, and for how many payments: the last of the room is for
/// reversals.
#[derive(Clone, Copy)]
pub(crate) struct Room {
    pub(crate) entries: u64,
    pub(crate) payments: u64,
}

/// Settles an authentic frame by the index of what is kept, and takes its entry into the index where
/// it is kept from now on. The issuer is asked there alone, and memory is refused there alone.
pub(crate) fn settle<I: Issuer>(
    index: &mut Index,
    room: Room,
    issuer: &I,
    authentic: &Authentic,
) -> Result<Settled, AllocError>
    requires opened { (keys : HsmKeys) × IsSome keys.zone × IsOpenedUnder keys authentic.now }
    ensures asked { IfOk result (IsOf authentic.now) }
    ensures settled { IfOk result (λ settled. (keys : HsmKeys) (capacity : ℕ)
        → IsOpenedUnder keys authentic.now
        → room.payments ≡ room_for_payments capacity room.entries
        → SettlesTo capacity room.entries (IsItsCode keys (I.decides issuer.now) authentic.now)
        index.old index.new settled) }
    ensures fits { room.payments ≤ room.entries
        → IfOk result (λ settled. length (added_by settled) ≤ room.entries) }
    ensures refused { OnErr result ((capacity : ℕ)
        → room.payments ≡ room_for_payments capacity room.entries → (entries : Entries)
        → IsIndexOf entries index.old → IsAdmissible entries (number_of authentic.now)
        (room_for authentic.now capacity room.entries)) }
{
    match authentic {
        Authentic::Payment(payment) => {
            let settlement = settle_payment(index, room.payments, issuer, payment)?;
            Ok(Settled::Payment(Purchase::of(&payment.request), settlement))
        }
        Authentic::Reversal(reversal) => {
            let settlement = settle_reversal(index, room.entries, reversal)?;
            Ok(Settled::Reversal(*reversal, settlement))
        }
    }
}

/// Settles a request, where there is room for so many payments.
fn settle_payment<I: Issuer>(
    index: &mut Index,
    room: u64,
    issuer: &I,
    payment: &Payment,
) -> Result<Settlement<Code>, AllocError>
    requires opened { (keys : HsmKeys)
        × AreTransactionKeys keys payment.now.request.ksn payment.now.transaction }
    requires zone { IsSome payment.now.transaction.zone }
    requires usable { IsUsable payment.now.request.ksn.counter }
    ensures settled { IfOk result (λ settlement. (keys : HsmKeys)
        → AreTransactionKeys keys payment.now.request.ksn payment.now.transaction
        → SettlesPurchase room (purchase_of payment.now.request)
        (IsCodeOf keys (I.decides issuer.now) payment.now.request) index.old index.new
        settlement) }
    ensures fits { IfOk result (λ settlement. HasRoomFor settlement room) }
    ensures refused { OnErr result ((entries : Entries) → IsIndexOf entries index.old
        → IsAdmissible entries payment.now.request.ksn room) }
{
    let purchase = Purchase::of(&payment.request);
    if let Some(code) = code_kept(index, purchase.number, purchase.mac) {
        return Ok(Settlement::KnownAgain(code));
    }
    if index.used().contains(purchase.number) {
        return Ok(Settlement::Used);
    }
    if room == 0 {
        return Ok(Settlement::Full);
    }
    let code = code_for(payment, issuer);
    index.take(&purchase.entry(code))?;
    Ok(Settlement::Kept(code))
}

/// Settles a reversal, where there is room for so many entries.
fn settle_reversal(
    index: &mut Index,
    room: u64,
    reversal: &Reversal,
) -> Result<Settlement<ReversalState>, AllocError>
    requires usable { IsUsable reversal.now.numbers.ksn.counter }
    ensures settled { IfOk result (SettlesReversal room reversal.now index.old index.new) }
    ensures fits { IfOk result (λ settlement. HasRoomFor settlement room) }
    ensures refused { OnErr result ((entries : Entries) → IsIndexOf entries index.old
        → IsAdmissible entries reversal.now.numbers.ksn room) }
{
    if let Some(state) = state_kept(index, reversal) {
        return Ok(Settlement::KnownAgain(state));
    }
    if index.used().contains(reversal.numbers.ksn()) {
        return Ok(Settlement::Used);
    }
    if room == 0 {
        return Ok(Settlement::Full);
    }
    let state = state_of(index, reversal.numbers.reversed());
    index.take(&reversal_entry(reversal, state))?;
    Ok(Settlement::Kept(state))
}

/// The code of the payment with this number and this MAC, if it can be answered again: it is one of
/// the latest entries, and not undone.
fn code_kept(index: &Index, ksn: Ksn, mac: [u8; 8]) -> Option<Code>
    ensures found { IfSome result (IsCodeKept index.now ksn mac) }
    ensures none { IfNone result ((code : Code) → ¬ IsCodeKept index.now ksn mac code) }
{
    let code = match index.decided(ksn, mac)? {
        Decided::Payment { code, .. } => code,
        Decided::Reversal { .. } => return None,
    };
    if index.is_reversed(ksn) {
        return None;
    }
    Some(code)
}

/// What the same reversal found, if it can be answered again: it is one of the latest entries.
fn state_kept(index: &Index, reversal: &Reversal) -> Option<ReversalState>
    ensures found { IfSome result (IsStateKept index.now reversal.now) }
    ensures none { IfNone result
        ((state : ReversalState) → ¬ IsStateKept index.now reversal.now state) }
{
    let numbers = reversal.numbers;
    let (counter, state) = match index.decided(numbers.ksn(), reversal.mac)? {
        Decided::Reversal { counter, state } => (counter, state),
        Decided::Payment { .. } => return None,
    };
    if counter != numbers.reversed().counter() {
        return None;
    }
    Some(state)
}

/// What a reversal of this number finds.
fn state_of(index: &Index, number: Ksn) -> ReversalState
    ensures { (entries : Entries) → HasSets entries index.now → FindsState entries number result }
{
    if index.has_approved(number) {
        ReversalState::Undone
    } else {
        ReversalState::NoneStands
    }
}
