//! A ledger on a disk.

ghost use Rattle.std.specs.Prelude.{◌≡◌, ◌↔◌, IsTrue, length};
ghost use Rattle.duk_journal.specs.Header.{IsHeader, header_of};
ghost use Rattle.duk_ledger.specs.IssuedFormat.{ledger_kind};

use crate::format::IssuedFormat;
use duk_journal::{HeaderBytes, file_header, is_file_header};
use duk_store::Records;

/// A ledger on a disk of records of 32 bytes, of which the first is its header.
pub type Ledger<D> = Records<D, IssuedFormat>;

/// The kind of a ledger.
pub const LEDGER_KIND: u8 = 2;

/// The header of a ledger with this identity, which is drawn at random where the ledger is made.
pub fn ledger_header(identity: u64) -> HeaderBytes
    ensures bytes { result.items ≡ header_of ledger_kind identity }
    ensures length { length result.items ≡ 32 }
{
    file_header(LEDGER_KIND, identity)
}

/// Whether the bytes of a record are the header of a ledger.
pub fn is_ledger_header(record: &[u8]) -> bool
    requires { length «record».now ≡ 32 }
    ensures { IsTrue result ↔ IsHeader ledger_kind «record».now }
{
    is_file_header(LEDGER_KIND, record)
}
