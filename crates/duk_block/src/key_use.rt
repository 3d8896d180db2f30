//! What keys are for, as the headers of their key blocks say it.

ghost use Rattle.std.specs.Prelude.{◌≡◌, ◌↔◌, IsTrue};
ghost use Rattle.duk_block.specs.HeaderText.{IsHeader};
ghost use Rattle.duk_block.specs.KeyUse.{IsHeaderFor, header_for, modes_of, usage_of, written_mode};

use crate::header::Header;

/// The algorithm of TDES keys.
const TDES: u8 = b'T';

/// What a key is for.
#[derive(Clone, Copy, Debug, PartialEq, Eq)]
pub enum KeyUse {
    /// A base derivation key of DUKPT: usage `B0`, mode `X` or `N`.
    BaseDerivationKey,
    /// An initial key of DUKPT: usage `B1`, mode `X` or `N`.
    InitialKey,
    /// A key that enciphers PINs: usage `P0`, mode `E`, `B` or `N`.
    PinEncryption,
}

impl KeyUse {
    /// Whether a header says that its key is for this use: its algorithm is `T`, and usage and mode
    /// are this use's.
    pub fn allows(self, header: &Header) -> bool
        ensures { IsTrue result ↔ IsHeaderFor self header.now }
    {
        header.usage == self.usage()
            && header.algorithm == TDES
            && self.modes().contains(&header.mode)
    }

    /// The header that is written for a key of this use: `B0TX00N`, `B1TX00N` or `P0TB00N`.
    pub fn header(self) -> Header
        ensures header { result ≡ header_for self }
        ensures printable { IsHeader result }
        ensures allowed { IsHeaderFor self result }
    {
        Header {
            usage: self.usage(),
            algorithm: TDES,
            mode: self.written_mode(),
            version: *b"00",
            exportability: b'N',
        }
    }

    /// The key usage.
    fn usage(self) -> [u8; 2]
        ensures { result ≡ usage_of self }
    {
        match self {
            KeyUse::BaseDerivationKey => *b"B0",
            KeyUse::InitialKey => *b"B1",
            KeyUse::PinEncryption => *b"P0",
        }
    }

    /// The modes of use that a header may have.
    fn modes(self) -> &'static [u8]
        ensures { result.now ≡ modes_of self }
    {
        match self {
            KeyUse::BaseDerivationKey | KeyUse::InitialKey => b"XN",
            KeyUse::PinEncryption => b"EBN",
        }
    }

    /// The mode of use in a header that is written.
    fn written_mode(self) -> u8
        ensures { result ≡ written_mode self }
    {
        match self {
            KeyUse::BaseDerivationKey | KeyUse::InitialKey => b'X',
            KeyUse::PinEncryption => b'B',
        }
    }
}
