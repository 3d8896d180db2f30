//! Laws of the cipher, each the contract of a function that does nothing.

ghost use Rattle.std.specs.Prelude.{◌≡◌, ℕ, Bool, List, length};
ghost use Rattle.duk_des.specs.Bits.{bits_of_bytes, xor_bits};
ghost use Rattle.duk_des.specs.Block.{IsBlock};
ghost use Rattle.duk_des.specs.Bytes.{xor_bytes};
ghost use Rattle.duk_des.specs.Des.{round_keys, xor_keys, encipher, decipher, des_encrypted, des_decrypted};

/// On bits: under each key deciphering undoes enciphering, and the reverse, for every block of 64
/// bits.
pub fn inverse_on_bits()
    ensures deciphered { (key block : List Bool) → length block ≡ 64
        → decipher key (encipher key block) ≡ block }
    ensures enciphered { (key block : List Bool) → length block ≡ 64
        → encipher key (decipher key block) ≡ block }
{}

/// Whatever is enciphered or deciphered under whatever key, it comes to a block.
pub fn blocks()
    ensures encrypted { (key block : List ℕ) → IsBlock (des_encrypted key block) }
    ensures decrypted { (key block : List ℕ) → IsBlock (des_decrypted key block) }
{}

/// On bytes: under each key deciphering undoes enciphering, and the reverse, for every block. Both
/// make blocks of blocks.
pub fn inverse()
    ensures deciphered { (key block : List ℕ) → IsBlock key → IsBlock block
        → des_decrypted key (des_encrypted key block) ≡ block }
    ensures enciphered { (key block : List ℕ) → IsBlock key → IsBlock block
        → des_encrypted key (des_decrypted key block) ≡ block }
    ensures cipher_block { (key block : List ℕ) → IsBlock key → IsBlock block
        → IsBlock (des_encrypted key block) }
    ensures plain_block { (key block : List ℕ) → IsBlock key → IsBlock block
        → IsBlock (des_decrypted key block) }
{}

/// The key schedule is linear over xor, since it only moves bits: the round keys of a key under a
/// mask are those of the key, xored with those of the mask. Of bytes as of the bits that they are.
pub fn linear_schedule()
    ensures bits { (key mask : List Bool) → length key ≡ 64 → length mask ≡ 64
        → round_keys (xor_bits key mask) ≡ xor_keys (round_keys key) (round_keys mask) }
    ensures bytes { (key mask : List ℕ) → IsBlock key → IsBlock mask
        → round_keys (bits_of_bytes (xor_bytes key mask))
        ≡ xor_keys (round_keys (bits_of_bytes key)) (round_keys (bits_of_bytes mask)) }
{}
