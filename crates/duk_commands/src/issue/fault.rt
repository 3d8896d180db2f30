//! Why keys are not issued, and the line of each fault.

ghost use Rattle.std.specs.Prelude.{◌≡◌, ◌≤◌, length};
ghost use Rattle.duk_commands.specs.IssueFault.{issue_line, issue_text};
ghost use Rattle.duk_commands.specs.declared.issue.fault.IssueFault.TheVariants.{OutOfMemory};

use crate::lines::{Lines, push_end, push_text};
use duk_io::append_hex;
use duk_tree::Iksn;
use std::alloc::AllocError;

/// Why `issue` ends with status 1.
#[derive(Clone, Copy, Debug, PartialEq, Eq)]
pub enum IssueFault {
    /// The base derivation key is not 32 hexadecimal digits.
    BdkRefused,
    /// The protection key of the loading blocks is neither 32 nor 48 hexadecimal digits.
    LoadingRefused,
    /// The initial key serial number is not 20 hexadecimal digits with a counter of zero.
    IksnRefused,
    /// COUNT is not one or more decimal digits, is zero or too great, or goes past the last number
    /// with the prefix of the first.
    CountRefused,
    /// The check value that the base derivation key is to have is not 6 hexadecimal digits.
    KcvRefused,
    /// The base derivation key has another check value.
    KcvDiffers,
    /// The system gives no random bytes for the key blocks.
    PaddingUnread,
    /// The ledger's file cannot be opened, or is in use.
    LedgerUnopened,
    /// The file of the lines cannot be made.
    OutUnmade,
    /// A device step of the ledger failed.
    LedgerFailed,
    /// The ledger is of version 1, in the form of a log: it is copied first.
    LedgerOldVersion,
    /// The ledger's medium holds what no ledger leaves on it.
    LedgerDamaged,
    /// The key of this terminal was issued before.
    Issued(Iksn),
    /// The key of this terminal was not issued before.
    NotIssued(Iksn),
    /// The ledger has no room for all that are to be issued.
    LedgerFull,
    /// Memory was refused.
    OutOfMemory,
    /// What had to be written could not be.
    WriteFailed,
}

impl IssueFault {
    /// The line that reports the fault.
    pub fn line(self) -> Lines
        ensures { result.items ≡ issue_line self }
    {
        let mut line = Lines::new();
        if let IssueFault::Issued(iksn) | IssueFault::NotIssued(iksn) = self {
            append_hex(&mut line, &iksn.bytes());
        }
        push_text(&mut line, self.text().as_bytes());
        push_end(&mut line);
        line
    }

    /// What is reported of the fault, after the number where it names one.
    fn text(self) -> &'static str
        ensures text { result.now ≡ issue_text self }
        ensures short { length result.now ≤ 34 }
    {
        match self {
            IssueFault::BdkRefused => "BDK refused",
            IssueFault::LoadingRefused => "loading refused",
            IssueFault::IksnRefused => "IKSN refused",
            IssueFault::CountRefused => "count refused",
            IssueFault::KcvRefused => "KCV refused",
            IssueFault::KcvDiffers => "KCV differs",
            IssueFault::PaddingUnread => "padding: cannot read",
            IssueFault::LedgerUnopened => "ledger: cannot open",
            IssueFault::OutUnmade => "out: cannot make",
            IssueFault::LedgerFailed => "ledger: failed",
            IssueFault::LedgerOldVersion => "ledger: version 1, use copy-ledger",
            IssueFault::LedgerDamaged => "ledger: damaged",
            IssueFault::Issued(_) => ": issued",
            IssueFault::NotIssued(_) => ": not issued",
            IssueFault::LedgerFull => "ledger: full",
            IssueFault::OutOfMemory => "out of memory",
            IssueFault::WriteFailed => "write failed",
        }
    }
}

impl From<AllocError> for IssueFault {
    ghost from_gives = { λ _ fault. fault ≡ OutOfMemory };

    fn from(_refused: AllocError) -> IssueFault {
        IssueFault::OutOfMemory
    }
}
