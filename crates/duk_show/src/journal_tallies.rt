//! What a journal has of each terminal, found by its initial key serial number.

ghost use Rattle.std.specs.Prelude.{◌≡◌, [], IfErr, IfOk, IfSome, OnOk, Some, flat_map, nat_eq};
ghost use Rattle.duk_journal.specs.Standing.{reversed_numbers};
ghost use Rattle.duk_show.specs.Journal.{payer_lines};
ghost use Rattle.duk_show.specs.declared.fault.ShowFault.TheVariants.{OutOfMemory};
ghost use Rattle.duk_show.specs.inner.Journal.{AreThose};
ghost use Rattle.duk_show.specs.inner.JournalTallies.{HasRoom, IsSmall, payer_line, with_share};
ghost use Rattle.indexmap.specs.IndexMap.{IsUnique, Updates, get, insert_entry, values};

use crate::fault::ShowFault;
use crate::standing::share_of;
use duk_host::UsedNumbers;
use duk_journal::Entry;
use duk_tree::Ksn;
use indexmap::IndexMap;
use std::alloc::Global;

/// What a journal has of one terminal.
#[derive(Clone, Copy)]
pub(crate) struct Payer {
    /// The first of its numbers.
    pub(crate) first: Ksn,
    /// The last of its numbers.
    pub(crate) last: Ksn,
    /// How many payments of its own there are.
    pub(crate) payments: usize,
    /// The sum of the amounts that stand.
    pub(crate) approved: u128,
    /// How many of its payments are undone.
    pub(crate) undone: usize,
}

/// What an entry adds to what there is of its terminal.
#[derive(Clone, Copy)]
pub(crate) struct Share {
    /// 1 for a payment, 0 for a reversal.
    pub(crate) payments: usize,
    /// The amount, where it stands, or 0.
    pub(crate) approved: u128,
    /// 1 for a payment that is undone, or 0.
    pub(crate) undone: usize,
}

/// The terminals, in the order of their first entries, each under the number that its initial key
/// serial number is.
pub(crate) type Payers = IndexMap<u128, Payer>;

/// The terminals of these entries, of which these numbers were reversed, in a time that grows with
/// the entries alone.
pub(crate) fn payers_of(
    alloc: Global,
    entries: &[Entry],
    reversed: &UsedNumbers,
) -> Result<Payers, ShowFault>
    requires { AreThose (reversed_numbers entries.now) reversed.now }
    ensures lines { IfOk result (λ payers. flat_map payer_line (values payers)
        ≡ payer_lines entries.now [] entries.now) }
    ensures refused { IfErr result (λ why. why ≡ OutOfMemory) }
{
    let mut payers = IndexMap::new(alloc);
    for entry in entries {
        let share = share_of(entry, reversed);
        count_entry(&mut payers, entry.number, share)?;
    }
    Ok(payers)
}

/// Counts the share of an entry for the terminal of its number.
fn count_entry(payers: &mut Payers, number: Ksn, share: Share) -> Result<(), ShowFault>
    requires fits { IfSome (get nat_eq payers.old number.iksn) HasRoom }
    requires small { IsSmall share }
    ensures entries { OnOk result (payers.new.entries ≡ insert_entry nat_eq payers.old.entries
        number.iksn (with_share (get nat_eq payers.old number.iksn) number share)) }
    ensures updates { OnOk result (Updates nat_eq payers.old payers.new number.iksn
        (Some (with_share (get nat_eq payers.old number.iksn) number share))) }
    ensures unique { OnOk result (IsUnique nat_eq payers.new) }
    ensures refused { IfErr result (λ why. why ≡ OutOfMemory) }
{
    let key = number.iksn().number();
    let payer = match payers.get(&key) {
        Some(payer) => one_more(payer, number, share),
        None => Payer {
            first: number,
            last: number,
            payments: share.payments,
            approved: share.approved,
            undone: share.undone,
        },
    };
    match payers.insert(key, payer) {
        Ok(_) => Ok(()),
        Err(_) => Err(ShowFault::OutOfMemory),
    }
}

/// A terminal with one entry more: its number, and its share.
fn one_more(payer: &Payer, number: Ksn, share: Share) -> Payer
    requires room { HasRoom payer.now }
    requires small { IsSmall share }
    ensures { result ≡ with_share (Some payer.now) number share }
{
    Payer {
        first: payer.first,
        last: number,
        payments: payer.payments + share.payments,
        approved: payer.approved + share.approved,
        undone: payer.undone + share.undone,
    }
}
