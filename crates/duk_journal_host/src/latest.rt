//! The entries that can be answered again.
//!
//! They are in a map by their numbers. Once there are as many as can be, its places are a ring: an
//! entry takes the place of the oldest, and the one behind that is then the oldest. A restart takes
//! them into a queue, and fills the map from it.

ghost use Rattle.std.specs.Prelude.{◌≡◌, ◌<◌, ◌≤◌, ◌+◌, [], nat_eq, Contains, IfSome, OnOk, Some, length};
ghost use Rattle.std.specs.VecDeque.{deque_capacity};
ghost use Rattle.indexmap.specs.IndexMap.{IsUnique, spare};
ghost use Rattle.duk_journal.specs.declared.entry.Decided.{Decided};
ghost use Rattle.duk_tree.specs.Serial.{IsSerial, serial_number};
ghost use Rattle.duk_journal_host.specs.Latest.{most_latest};
ghost use Rattle.duk_journal_host.specs.inner.Gathered.{HaveOwnNumbers};
ghost use Rattle.duk_journal_host.specs.inner.Latest.{HasNoNumber, IsRing, entries_in, entry_under, kept_of, with_latest};

use duk_journal::{Decided, Entry};
use duk_tree::Ksn;
use indexmap::IndexMap;
use std::alloc::AllocError;
use std::collections::VecDeque;

/// How many entries can be answered again.
pub(crate) const MOST_LATEST: usize = 1_048_576;

/// What is kept of an entry beside its number.
#[derive(Clone, Copy)]
pub(crate) struct Kept {
    decided: Decided,
    mac: [u8; 8],
}

/// What was decided of the request with this number and this MAC.
pub(crate) fn decided(
    map: &IndexMap<u128, Kept>,
    oldest: usize,
    ksn: Ksn,
    mac: [u8; 8],
) -> Option<Decided>
    requires unique { IsUnique nat_eq map.now }
    ensures found { IfSome result (λ decided. Contains (entries_in oldest map.now.entries)
        (entry_under ksn mac decided)) }
    ensures every { (decided : Decided) → Contains (entries_in oldest map.now.entries)
        (entry_under ksn mac decided) → result ≡ Some decided }
{
    let kept = map.get(&ksn.number())?;
    if kept.mac == mac {
        Some(kept.decided)
    } else {
        None
    }
}

/// Puts an entry last, where there is room in the map, and drops the oldest where there were as many
/// as can be. Gives where the oldest is then.
pub(crate) fn push(map: &mut IndexMap<u128, Kept>, oldest: usize, entry: &Entry) -> usize
    requires unique { IsUnique nat_eq map.old }
    requires ring { IsRing oldest (length map.old.entries) }
    requires room { 0 < spare map.old }
    requires new { HasNoNumber (entries_in oldest map.old.entries) entry.now.number }
    ensures unique { IsUnique nat_eq map.new }
    ensures ring { IsRing result (length map.new.entries) }
    ensures last { entries_in result map.new.entries
        ≡ with_latest (entries_in oldest map.old.entries) entry.now }
    ensures spare { spare map.old ≤ spare map.new + 1 }
{
    map.insert(entry.number.number(), kept_of(entry)).unwrap();
    if map.len() <= MOST_LATEST {
        return oldest;
    }
    map.swap_remove_index(oldest);
    place_after(oldest)
}

/// Makes room for one more entry in a queue, where there are fewer than can be answered again.
pub(crate) fn make_room(latest: &mut VecDeque<Entry>) -> Result<(), AllocError>
    ensures same { latest.new.items ≡ latest.old.items }
    ensures room { OnOk result (length latest.new.items < most_latest
        → length latest.new.items < deque_capacity latest.new) }
{
    if latest.len() < MOST_LATEST {
        latest.reserve(1)
    } else {
        Ok(())
    }
}

/// Puts an entry last in a queue, and drops the first where there were as many as can be answered
/// again.
pub(crate) fn push_last(latest: &mut VecDeque<Entry>, entry: &Entry)
    requires few { length latest.old.items ≤ most_latest }
    requires room { length latest.old.items < most_latest
        → length latest.old.items < deque_capacity latest.old }
    ensures last { latest.new.items ≡ with_latest latest.old.items entry.now }
{
    if latest.len() == MOST_LATEST {
        latest.pop_front();
    }
    latest.push_back_reserved(*entry);
}

/// Puts entries into an empty map that has room for them, and gives where the oldest is.
pub(crate) fn fill(map: &mut IndexMap<u128, Kept>, latest: &[Entry]) -> usize
    requires unique { IsUnique nat_eq map.old }
    requires empty { map.old.entries ≡ [] }
    requires room { length latest.now ≤ spare map.old }
    requires few { length latest.now ≤ most_latest }
    requires own { HaveOwnNumbers latest.now }
    ensures unique { IsUnique nat_eq map.new }
    ensures ring { IsRing result (length map.new.entries) }
    ensures all { entries_in result map.new.entries ≡ latest.now }
{
    let mut oldest = 0;
    for entry in latest {
        oldest = push(map, oldest, entry);
    }
    oldest
}

/// What is kept of an entry beside its number.
fn kept_of(entry: &Entry) -> Kept
    ensures { result ≡ kept_of entry.now }
{
    let mac = entry.mac;
    Kept {
        decided: entry.decided,
        mac,
    }
}

/// The place of the ring after one.
fn place_after(place: usize) -> usize
    requires { place < 1048576 }
    ensures next { place + 1 < 1048576 → result ≡ place + 1 }
    ensures around { place + 1 ≡ 1048576 → result ≡ 0 }
{
    if place + 1 == MOST_LATEST {
        0
    } else {
        place + 1
    }
}
