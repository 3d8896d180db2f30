//! The keys derived from a key block protection key, in lanes (ANSI X9.143, key derivation binding
//! method for TDES).

ghost use Rattle.std.specs.Prelude.{◌≡◌, ◌<◌, ◌+◌, ◌++◌, ℕ, length};
ghost use Rattle.duk_block.specs.Derived.{derivation_step, derived_key, encryption_usage, mac_usage};
ghost use Rattle.duk_group.specs.Numbers.{bytes_at};
ghost use Rattle.duk_tdes.specs.KeyBytes.{bytes_of};
ghost use Rattle.duk_tdes.specs.Tdes.{IsTdesKey, IsTdesLength};

use crate::modes::cmac_under;
use crate::transposed::{WIDTH, gather_blocks};
use duk_block::derivation_data;
use duk_lanes::scatter_wide;
use duk_tdes::{Key, KeyBytes, array_of};

/// The usage of the key that enciphers payloads, in the data of its derivation.
const ENCRYPTION: [u8; 2] = [0x00, 0x00];

/// The usage of the key that makes MACs.
const MAC: [u8; 2] = [0x00, 0x01];

/// What is derived from a key block protection key: the key that enciphers payloads, and the one
/// that makes MACs. Both have its length.
#[derive(Drop)]
pub(crate) struct DerivedKeys {
    pub(crate) encryption: KeyBytes,
    pub(crate) mac: KeyBytes,
}

/// The two keys derived from a key block protection key. No branch and no address depends on a key,
/// but on its length.
pub(crate) fn derived_keys(protection: &KeyBytes) -> DerivedKeys
    ensures encryption { bytes_of result.encryption
        ≡ derived_key encryption_usage (bytes_of protection.now) }
    ensures mac { bytes_of result.mac ≡ derived_key mac_usage (bytes_of protection.now) }
    ensures key { IsTdesKey (bytes_of protection.now) }
{
    duk_block::laws::derived_in_steps();
    let size = key_size(protection);
    let steps = derivation_steps(protection, size);
    DerivedKeys {
        encryption: key_of_steps(&steps, 0, size),
        mac: key_of_steps(&steps, 3, size),
    }
}

/// The number of a key's bytes.
fn key_size(key: &KeyBytes) -> usize
    ensures size { result ≡ length (bytes_of key.now) }
    ensures key { IsTdesKey (bytes_of key.now) }
{
    match key {
        KeyBytes::Double(key) => {
            duk_tdes::laws::tdes_key(key);
            16
        }
        KeyBytes::Triple(key) => {
            duk_tdes::laws::tdes_key(key);
            24
        }
    }
}

/// The three steps for enciphering and then the three for MACs, made together: a lane for each. A
/// key of 16 bytes has two steps, and the third is not used.
fn derivation_steps(protection: &KeyBytes, size: usize) -> [[u8; 8]; WIDTH]
    requires { size ≡ length (bytes_of protection.now) }
    ensures encryption { (step : ℕ) → step < 3 → bytes_at result step
        ≡ derivation_step encryption_usage (bytes_of protection.now) (1 + step) }
    ensures mac { (step : ℕ) → step < 3 → bytes_at result (3 + step)
        ≡ derivation_step mac_usage (bytes_of protection.now) (1 + step) }
{
    let mut inputs = [[0; 8]; WIDTH];
    for step in 0..3 {
        let counter = step as u8 + 1;
        inputs[step] = derivation_data(counter, ENCRYPTION, size);
        inputs[3 + step] = derivation_data(counter, MAC, size);
    }
    scatter_wide(&cmac_under(protection, &[gather_blocks(&inputs)]))
}

/// The key of so many bytes that the steps from a place on make, one after the other.
fn key_of_steps(steps: &[[u8; 8]; WIDTH], first: usize, size: usize) -> KeyBytes
    requires size { IsTdesLength size }
    requires first { first + 2 < WIDTH }
    ensures double { size ≡ 16 → bytes_of result
        ≡ bytes_at steps.now first ++ bytes_at steps.now (1 + first) }
    ensures triple { size ≡ 24 → bytes_of result
        ≡ bytes_at steps.now first ++ bytes_at steps.now (1 + first)
        ++ bytes_at steps.now (2 + first) }
{
    let (left, middle) = (steps[first], steps[1 + first]);
    if size == 16 {
        KeyBytes::Double(Key::new(array_of([left, middle].as_flattened())))
    } else {
        let right = steps[2 + first];
        KeyBytes::Triple(Key::new(array_of([left, middle, right].as_flattened())))
    }
}
