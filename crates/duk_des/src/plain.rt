//! DES bit by bit, as the standard writes it.

ghost use Rattle.std.specs.Prelude.{◌≡◌, ◌++◌};
ghost use Rattle.duk_des.specs.Bits.{bits_of_bytes, permute};
ghost use Rattle.duk_des.specs.Des.{rounds, des_computation, encipher, decipher, des_encrypted, des_decrypted};
ghost use Rattle.duk_des.specs.Tables.{final_places};

use crate::bits::{bits_of_bytes, bytes_of_bits, join, permute, xor};
use crate::cipher_function::cipher_function;
use crate::schedule::round_keys;

/// The initial permutation, the places of L and those of R.
#[rattlefmt::skip]
const LEFT_PLACES: [u8; 32] = [
    58, 50, 42, 34, 26, 18, 10, 2,
    60, 52, 44, 36, 28, 20, 12, 4,
    62, 54, 46, 38, 30, 22, 14, 6,
    64, 56, 48, 40, 32, 24, 16, 8,
];

#[rattlefmt::skip]
const RIGHT_PLACES: [u8; 32] = [
    57, 49, 41, 33, 25, 17, 9, 1,
    59, 51, 43, 35, 27, 19, 11, 3,
    61, 53, 45, 37, 29, 21, 13, 5,
    63, 55, 47, 39, 31, 23, 15, 7,
];

/// The inverse of the initial permutation.
#[rattlefmt::skip]
const FINAL_PLACES: [u8; 64] = [
    40, 8, 48, 16, 56, 24, 64, 32,
    39, 7, 47, 15, 55, 23, 63, 31,
    38, 6, 46, 14, 54, 22, 62, 30,
    37, 5, 45, 13, 53, 21, 61, 29,
    36, 4, 44, 12, 52, 20, 60, 28,
    35, 3, 43, 11, 51, 19, 59, 27,
    34, 2, 42, 10, 50, 18, 58, 26,
    33, 1, 41, 9, 49, 17, 57, 25,
];

/// Enciphers a block of 8 bytes under a key of 8 bytes (NIST SP 800-67 section 2).
pub fn encrypt_block(key: &[u8; 8], block: [u8; 8]) -> [u8; 8]
    ensures bytes { result ≡ des_encrypted key.now block }
    ensures bits { bits_of_bytes result ≡ encipher (bits_of_bytes key.now) (bits_of_bytes block) }
{
    let keys = round_keys(&bits_of_bytes(key));
    bytes_of_bits(&crypt_block(&keys, &bits_of_bytes(&block)))
}

/// Deciphers a block of 8 bytes under a key of 8 bytes: the round keys are used in reverse order.
pub fn decrypt_block(key: &[u8; 8], block: [u8; 8]) -> [u8; 8]
    ensures bytes { result ≡ des_decrypted key.now block }
    ensures bits { bits_of_bytes result ≡ decipher (bits_of_bytes key.now) (bits_of_bytes block) }
{
    let mut keys = round_keys(&bits_of_bytes(key));
    keys.reverse();
    bytes_of_bits(&crypt_block(&keys, &bits_of_bytes(&block)))
}

/// The initial permutation, the rounds, and the final permutation of the halves, exchanged.
fn crypt_block(keys: &[[bool; 48]; 16], block: &[bool; 64]) -> [bool; 64]
    ensures { result ≡ des_computation keys.now block.now }
{
    let left: [bool; 32] = permute(&LEFT_PLACES, block);
    let right: [bool; 32] = permute(&RIGHT_PLACES, block);
    let (left, right) = rounds(&left, &right, keys);
    final_permutation(&right, &left)
}

/// A round for each of the keys on the halves L and R: L' = R, and R' = L xor f(R, K).
fn rounds(
    left: &[bool; 32],
    right: &[bool; 32],
    keys: &[[bool; 48]; 16],
) -> ([bool; 32], [bool; 32])
    ensures left { result.0
        ≡ (rounds keys.now (record { left = left.now; right = right.now })).left }
    ensures right { result.1
        ≡ (rounds keys.now (record { left = left.now; right = right.now })).right }
{
    let mut left = *left;
    let mut right = *right;
    for key in keys {
        let next = xor(&left, &cipher_function(&right, key));
        left = right;
        right = next;
    }
    (left, right)
}

/// The inverse of the initial permutation, of one half followed by the other.
fn final_permutation(first: &[bool; 32], second: &[bool; 32]) -> [bool; 64]
    ensures { result ≡ permute final_places (first.now ++ second.now) }
{
    let halves: [bool; 64] = join(first, second);
    permute(&FINAL_PLACES, &halves)
}
