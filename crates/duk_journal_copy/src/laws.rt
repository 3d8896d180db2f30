//! Laws of new journals, each the contract of a function that does nothing.

ghost use Rattle.std.specs.Prelude.{◌≡◌, ◌≢◌, ◌≤◌, ℕ, List, slice_index};
ghost use Rattle.duk_journal.specs.Groups.{Entries, KeepsEntries};
ghost use Rattle.duk_journal.specs.Header.{IsHeader, header_of, journal_kind};
ghost use Rattle.duk_journal.specs.RecordFormat.{IsOpen, record_at};
ghost use Rattle.duk_journal_copy.specs.Blank.{begun_bytes};
ghost use Rattle.duk_journal_copy.specs.InPart.{IsNoJournal, IsUnfinished};
ghost use Rattle.duk_journal_copy.specs.Version.{KeepsIn};
ghost use Rattle.duk_journal_copy.specs.declared.version.Version.{Version as VersionValue};
ghost use Rattle.duk_store.specs.RecordFormat.{HasRecordNumber, record_at as log_record_at};

/// A disk whose first byte is 1, and whose second is neither the kind of a record nor the second byte
/// of a header, is that of no journal of either version: it keeps no entries, and not none either. So
/// a file that begins so is refused as damaged, however long it is, until its first two bytes are
/// written. That it is no log either is said of its 16th byte (`unnumbered`).
pub fn unfinished()
    ensures { (bytes : List ℕ) → IsUnfinished bytes → IsNoJournal bytes }
{}

/// Bytes are those of a journal of one version at most: so the version of a journal need not be told
/// where it is read.
pub fn one_version()
    ensures { (bytes : List ℕ) (one other : VersionValue) (entries others : Entries)
        → KeepsIn one bytes entries → KeepsIn other bytes others → one ≡ other }
{}

/// Bytes that begin with a header are those of no journal of version 1.
pub fn headed()
    ensures { (bytes : List ℕ) → IsHeader journal_kind (record_at 0 bytes) → (entries : Entries)
        → ¬ KeepsEntries bytes entries }
{}

/// Bytes whose second is not that of a header begin with none, of whatever kind.
pub fn unheaded()
    ensures { (kind : ℕ) (bytes : List ℕ) → slice_index bytes 1 ≢ 0xD5
        → ¬ IsHeader kind (record_at 0 bytes) }
{}

/// Bytes whose 16th is that of a header begin with no record of a log that has a number: five zeros
/// stand behind that.
pub fn unnumbered()
    ensures { (bytes : List ℕ) → slice_index bytes 15 ≡ 32
        → ¬ HasRecordNumber (log_record_at 0 bytes) }
{}

/// A file that is begun has its header in front, and no record behind it is open.
pub fn begun()
    ensures header { (kind identity size : ℕ) → 32 ≤ size
        → record_at 0 (begun_bytes kind identity size) ≡ header_of kind identity }
    ensures closed { (kind identity size later : ℕ) → 32 ≤ size → 1 ≤ later
        → ¬ IsOpen (record_at later (begun_bytes kind identity size)) }
{
    duk_journal::laws::headers();
}
