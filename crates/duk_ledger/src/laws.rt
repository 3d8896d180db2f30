//! Laws of ledgers, each the contract of a function that does nothing.

ghost use Rattle.std.specs.Prelude.{◌≡◌, ◌<◌, ◌≤◌, ◌*◌, ◌^◌, ◌++◌, ◌∷◌, ℕ, List, [], All};
ghost use Rattle.duk_journal.specs.Header.{header_of};
ghost use Rattle.duk_store.specs.MemoryDisk.{memory_disk_meaning, new_disk_with};
ghost use Rattle.duk_store.specs.StoreState.{IsNew};
ghost use Rattle.duk_ledger.specs.Issued.{Issues};
ghost use Rattle.duk_ledger.specs.IssuedFormat.{SaysIssued, ledger_kind};
ghost use Rattle.duk_ledger.specs.Ledger.{KeepsIssues, ledger_meaning, new_ledger};
ghost use Rattle.duk_ledger.specs.declared.issued.Issued.{Issued};

use crate::format::IssuedFormat;

/// The bytes of a ledger's disk keep one list of issues at most.
pub fn one_list()
    ensures { (bytes : List ℕ) (one two : Issues) → KeepsIssues bytes one
        → KeepsIssues bytes two → one ≡ two }
{
    duk_store::laws::one_list(&IssuedFormat {});
}

/// A record with one changed byte behind its gate has no contents, so that such a change is always
/// found as damage. Of other changes one in 2^32 passes.
pub fn changed_byte()
    ensures { (identity place followers others : ℕ) (one other : Issued) (before after : List ℕ)
        (byte changed : ℕ) → All (λ byte. byte < 2 ^ 8) (before ++ byte ∷ after)
        → changed < 2 ^ 8 → SaysIssued identity place followers one (before ++ byte ∷ after)
        → SaysIssued identity place others other (before ++ changed ∷ after)
        → byte ≡ changed }
{
    duk_journal::laws::one_checked();
    duk_tree::laws::serials();
}

/// A ledger over a new disk in memory of 32 bytes for each of one or more records, of which the
/// first is a header, is a new ledger: it keeps nothing, and is honest, sound and calm.
pub fn new_disk_ledger()
    ensures { (identity records : ℕ) → identity < 2 ^ 64 → 1 ≤ records
        → IsNew ((ledger_meaning memory_disk_meaning).state_of (new_ledger
        (new_disk_with (header_of ledger_kind identity) (32 * records)))) [] }
{
    duk_journal::laws::headers();
    duk_store::laws::new_headed_records(&IssuedFormat {});
}
