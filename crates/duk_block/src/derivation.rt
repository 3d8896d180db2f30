//! The keys derived from a key block protection key.

ghost use Rattle.std.specs.Prelude.{◌≡◌};
ghost use Rattle.duk_mac.specs.Cmac.{cmac_of};
ghost use Rattle.duk_tdes.specs.Tdes.{IsTdesKey, IsTdesLength};
ghost use Rattle.duk_block.specs.Derived.{derivation_data, derived_key, encryption_usage, mac_usage};

use crate::parts::derivation_data;
use crate::text::{BlockText, append};
use duk_mac::cmac_under;
use duk_tdes::{Key, Tdes, array_of};

/// The key that enciphers payloads.
pub fn encryption_key<const N: usize>(kbpk: &Key<N>) -> Key<N>
    requires { IsTdesLength N }
    ensures derived { result ≡ derived_key encryption_usage kbpk.now }
    ensures key { IsTdesKey result }
{
    derive_key(kbpk, [0x00, 0x00])
}

/// The key that makes MACs.
pub fn mac_key<const N: usize>(kbpk: &Key<N>) -> Key<N>
    requires { IsTdesLength N }
    ensures { result ≡ derived_key mac_usage kbpk.now }
{
    derive_key(kbpk, [0x00, 0x01])
}

/// The key derived for this use, which has the length of the protection key.
fn derive_key<const N: usize>(kbpk: &Key<N>, usage: [u8; 2]) -> Key<N>
    requires { IsTdesLength N }
    ensures derived { result ≡ derived_key usage kbpk.now }
    ensures key { IsTdesKey result }
{
    duk_tdes::laws::tdes_key(kbpk);
    let tdes = Tdes::new(kbpk);
    let mut bytes = BlockText::new();
    append(&mut bytes, &step(&tdes, 1, usage));
    append(&mut bytes, &step(&tdes, 2, usage));
    if N == 24 {
        append(&mut bytes, &step(&tdes, 3, usage));
    }
    Key::new(array_of(bytes.as_slice()))
}

/// One step of the derivation, eight bytes of the key.
fn step<const N: usize>(tdes: &Tdes<N>, counter: u8, usage: [u8; 2]) -> [u8; 8]
    ensures { result ≡ cmac_of tdes.now (derivation_data counter usage N) }
{
    cmac_under(tdes, &derivation_data(counter, usage, N))
}
