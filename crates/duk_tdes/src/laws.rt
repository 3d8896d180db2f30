//! Laws of TDES, each the contract of a function that does nothing.

ghost use Rattle.std.specs.Prelude.{◌≡◌, ℕ, List, ◌++◌, length};
ghost use Rattle.duk_des.specs.Block.{IsBlock};
ghost use Rattle.duk_des.specs.Des.{des_decrypted, des_encrypted};
ghost use Rattle.duk_tdes.specs.Cbc.{AreWholeBlocks, cbc_encrypted, cbc_decrypted};
ghost use Rattle.duk_tdes.specs.Key.{IsKey, xor_bytes};
ghost use Rattle.duk_tdes.specs.Tdes.{IsTdesKey, IsTdesLength, first_key, second_key, tdes_encrypted, tdes_decrypted};

use crate::key::Key;

/// Under one key of 16 or 24 bytes deciphering undoes enciphering and the reverse, and both make
/// blocks of blocks.
pub fn inverse()
    ensures deciphered { (key block : List ℕ) → IsTdesKey key → IsBlock block
        → tdes_decrypted key (tdes_encrypted key block) ≡ block }
    ensures enciphered { (key block : List ℕ) → IsTdesKey key → IsBlock block
        → tdes_encrypted key (tdes_decrypted key block) ≡ block }
    ensures cipher_block { (key block : List ℕ) → IsTdesKey key → IsBlock block
        → IsBlock (tdes_encrypted key block) }
    ensures plain_block { (key block : List ℕ) → IsTdesKey key → IsBlock block
        → IsBlock (tdes_decrypted key block) }
{
    duk_des::laws::inverse();
}

/// Whatever is enciphered or deciphered under whatever key, it comes to a block.
pub fn blocks()
    ensures encrypted { (key block : List ℕ) → IsBlock (tdes_encrypted key block) }
    ensures decrypted { (key block : List ℕ) → IsBlock (tdes_decrypted key block) }
{
    duk_des::laws::blocks();
}

/// The bytes of a key of 16 or 24 bytes are those of a TDES key, as many as its type says.
pub fn tdes_key<const N: usize>(key: &Key<N>)
    requires { IsTdesLength N }
    ensures key { IsTdesKey key.now }
    ensures size { length key.now ≡ N }
{
    key.bytes();
}

/// A masked key is a key of the same length. A key of 16 bytes is a TDES key, the first two single
/// keys of a TDES key are keys of single DES, and two of these make a double-length key.
pub fn keys()
    ensures masked { (size : ℕ) (key mask : List ℕ) → IsKey size key → IsKey size mask
        → IsKey size (xor_bytes key mask) }
    ensures double { (key : List ℕ) → IsKey 16 key → IsTdesKey key }
    ensures first { (key : List ℕ) → IsTdesKey key → IsBlock (first_key key) }
    ensures second { (key : List ℕ) → IsTdesKey key → IsBlock (second_key key) }
    ensures joined { (left right : List ℕ) → IsBlock left → IsBlock right
        → IsKey 16 (left ++ right) }
{}

/// Under a key of 16 bytes, the left half is the first and the third single key.
pub fn double_length()
    ensures { (key block : List ℕ) → length key ≡ 16 → tdes_encrypted key block
        ≡ des_encrypted (first_key key)
        (des_decrypted (second_key key) (des_encrypted (first_key key) block)) }
{}

/// A mask on a key is its first eight bytes on the key's first single key, and its next eight on the
/// second. It changes no length.
pub fn masked_halves()
    ensures length { (key mask : List ℕ) → length (xor_bytes key mask) ≡ length key }
    ensures first { (key mask : List ℕ)
        → first_key (xor_bytes key mask) ≡ xor_bytes (first_key key) (first_key mask) }
    ensures second { (key mask : List ℕ)
        → second_key (xor_bytes key mask) ≡ xor_bytes (second_key key) (second_key mask) }
{}

/// Under one key of 16 or 24 bytes, from one initial vector and for whole blocks, CBC decryption
/// undoes CBC encryption and the reverse, and both make as many whole blocks.
pub fn cbc_inverse()
    ensures deciphered { (key initial_vector bytes : List ℕ)
        → IsTdesKey key → IsBlock initial_vector → AreWholeBlocks bytes
        → cbc_decrypted key initial_vector (cbc_encrypted key initial_vector bytes) ≡ bytes }
    ensures enciphered { (key initial_vector bytes : List ℕ)
        → IsTdesKey key → IsBlock initial_vector → AreWholeBlocks bytes
        → cbc_encrypted key initial_vector (cbc_decrypted key initial_vector bytes) ≡ bytes }
    ensures cipher_blocks { (key initial_vector bytes : List ℕ)
        → IsTdesKey key → IsBlock initial_vector → AreWholeBlocks bytes
        → AreWholeBlocks (cbc_encrypted key initial_vector bytes) }
    ensures plain_blocks { (key initial_vector bytes : List ℕ)
        → IsTdesKey key → IsBlock initial_vector → AreWholeBlocks bytes
        → AreWholeBlocks (cbc_decrypted key initial_vector bytes) }
    ensures cipher_length { (key initial_vector bytes : List ℕ)
        → IsTdesKey key → IsBlock initial_vector → AreWholeBlocks bytes
        → length (cbc_encrypted key initial_vector bytes) ≡ length bytes }
    ensures plain_length { (key initial_vector bytes : List ℕ)
        → IsTdesKey key → IsBlock initial_vector → AreWholeBlocks bytes
        → length (cbc_decrypted key initial_vector bytes) ≡ length bytes }
{
    inverse();
}

/// The exclusive or of two blocks is a block.
pub fn xor_of_blocks()
    ensures { (block mask : List ℕ) → IsBlock block → IsBlock mask
        → IsBlock (xor_bytes block mask) }
{}
