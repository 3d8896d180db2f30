//! Check values, by which two holders of a key compare it (ANSI X9.24-1:2017 annex A).

ghost use Rattle.std.specs.Prelude.{◌≡◌};
ghost use Rattle.duk_tdes.specs.Tdes.{IsTdesLength};
ghost use Rattle.duk_mac.specs.CheckValue.{check_value_of, cmac_check_value_of};

use crate::cipher_mac::cmac;
use duk_tdes::{Key, array_of, tdes_encrypt};

/// The check value of a TDES key, the KCV: the first three bytes of a block of zeros, enciphered.
/// `N` is 16 or 24.
pub fn check_value<const N: usize>(key: &Key<N>) -> [u8; 3]
    requires { IsTdesLength N }
    ensures { result ≡ check_value_of key.now }
{
    array_of(&tdes_encrypt(key, [0; 8])[..3])
}

/// The check value of a TDES key by CMAC: the first five bytes of the CMAC of a block of zeros.
/// `N` is 16 or 24.
pub fn cmac_check_value<const N: usize>(key: &Key<N>) -> [u8; 5]
    requires { IsTdesLength N }
    ensures { result ≡ cmac_check_value_of key.now }
{
    array_of(&cmac(key, &[0; 8])[..5])
}
