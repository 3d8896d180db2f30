//! Laws of journals, each the contract of a function that does nothing.

ghost use Rattle.std.specs.Prelude.{◌≡◌, ◌⊎◌, ◌↔◌, ◌<◌, ◌≤◌, ◌*◌, ◌^◌, ◌++◌, ◌∷◌, ℕ, List, [], All, Contains, IsTrue, drop, length};
ghost use Rattle.duk_store.specs.MemoryDisk.{memory_disk_meaning, new_disk_with};
ghost use Rattle.duk_store.specs.StoreState.{IsNew};
ghost use Rattle.duk_tree.specs.Serial.{Serial};
ghost use Rattle.duk_journal.specs.DiskJournal.{disk_journal_meaning, new_disk_journal};
ghost use Rattle.duk_journal.specs.CheckSum.{check_sum_of};
ghost use Rattle.duk_journal.specs.CheckedFormat.{IsChecked, SaysChecked};
ghost use Rattle.duk_journal.specs.Entry.{AreFields, kind_of};
ghost use Rattle.duk_journal.specs.Groups.{Entries, HasContents, KeepsChecked, KeepsEntries};
ghost use Rattle.duk_journal.specs.Header.{header_of, identity_of, journal_kind};
ghost use Rattle.duk_journal.specs.Standing.{AddsAmount, StandsWith, is_reversed, reversed_numbers, standing_amount};
ghost use Rattle.duk_journal.specs.declared.entry.Entry.{Entry};

use crate::checked_format::CheckedFormat;
use crate::record_format::EntryFormat;

/// The bytes of a journal's disk keep one list of entries at most.
pub fn one_list()
    ensures { (bytes : List ℕ) (one two : Entries) → KeepsChecked bytes one
        → KeepsChecked bytes two → one ≡ two }
{
    duk_store::laws::one_list(&CheckedFormat {});
}

/// And so do those of version 1.
pub fn one_unchecked_list()
    ensures { (bytes : List ℕ) (one two : Entries) → KeepsEntries bytes one
        → KeepsEntries bytes two → one ≡ two }
{
    duk_store::laws::one_list(&EntryFormat {});
}

/// A record has the contents of one entry at most, and says one number of followers.
pub fn one_contents()
    ensures { (followers others : ℕ) (one two : Entry) (record_bytes : List ℕ)
        → HasContents followers one record_bytes → HasContents others two record_bytes
        → (followers ≡ others) × (one ≡ two) }
{
    duk_tree::laws::serials();
}

/// Of contents that differ in one byte one at most have the check sum of a record.
pub fn one_checked()
    ensures { (identity place : ℕ) (before after : List ℕ) (byte changed : ℕ)
        → All (λ byte. byte < 2 ^ 8) (before ++ byte ∷ after) → changed < 2 ^ 8
        → IsChecked identity place (before ++ byte ∷ after)
        → IsChecked identity place (before ++ changed ∷ after) → byte ≡ changed }
{
    duk_crc::laws::one_byte();
}

/// A header has the bytes of a record, and gives its identity.
pub fn headers()
    ensures length { (kind identity : ℕ) → length (header_of kind identity) ≡ 32 }
    ensures identity { (kind identity : ℕ) → identity < 2 ^ 64
        → identity_of (header_of kind identity) ≡ identity }
{}

/// A record with one changed byte behind its gate has no contents, so that such a change is always
/// found as damage. Of other changes one in 2^32 passes.
pub fn changed_byte()
    ensures { (identity place followers others : ℕ) (one other : Entry) (before after : List ℕ)
        (byte changed : ℕ) → All (λ byte. byte < 2 ^ 8) (before ++ byte ∷ after)
        → changed < 2 ^ 8 → SaysChecked identity place followers one (before ++ byte ∷ after)
        → SaysChecked identity place others other (before ++ changed ∷ after)
        → byte ≡ changed }
{
    one_checked();
}

/// What stands behind the kind of a record tells the kind: no code is written as a state is. So where
/// a write of the kind alone is torn, the record has its own contents, or none.
pub fn one_kind()
    ensures { (followers others : ℕ) (one two : Entry) (first second : List ℕ)
        → HasContents followers one first → HasContents others two second
        → drop 2 first ≡ drop 2 second → kind_of one.decided ≡ kind_of two.decided }
{
    duk_tree::laws::serials();
}

/// Lists that differ in one entry have different check sums, whatever stands before it and behind.
pub fn check_sums()
    ensures { (before after : Entries) (one other : Entry) → AreFields one → AreFields other
        → All (λ byte. byte < 2 ^ 8) one.mac → All (λ byte. byte < 2 ^ 8) other.mac
        → check_sum_of (before ++ one ∷ after) ≡ check_sum_of (before ++ other ∷ after)
        → one ≡ other }
{
    duk_tree::laws::serials();
}

/// A journal over a new disk in memory of 32 bytes for each of one or more records, of which the
/// first is a header, is a new journal: it keeps nothing, and is honest, sound and calm.
pub fn new_disk_journal()
    ensures { (identity records : ℕ) → identity < 2 ^ 64 → 1 ≤ records
        → IsNew ((disk_journal_meaning memory_disk_meaning).state_of (new_disk_journal
        (new_disk_with (header_of journal_kind identity) (32 * records)))) [] }
{
    duk_store::laws::new_headed_records(&CheckedFormat {});
}

/// The totals of entries add up the payments that stand, each with its amount, and nothing else. A
/// payment is undone where a reversal of its number is one of the entries.
pub fn totals()
    ensures reversed { (entries : Entries) (number : Serial)
        → IsTrue (is_reversed entries number) ↔ Contains (reversed_numbers entries) number }
    ensures stands { (entries : Entries) (number : Serial) (amount : ℕ)
        → StandsWith entries number amount → AddsAmount entries number amount }
    ensures nothing_else { (entries : Entries) (entry : Entry) → Contains entries entry
        → (standing_amount entries entry ≡ 0)
        ⊎ StandsWith entries entry.number (standing_amount entries entry) }
{}
