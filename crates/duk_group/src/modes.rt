//! Modes of operation in lanes under one key, the same in every lane: CMAC (NIST SP 800-38B) and
//! cipher block chaining (NIST SP 800-38A section 6.2).
//!
//! The messages have as many blocks in each lane. No branch and no address depends on the key or on
//! a block.

ghost use Rattle.std.specs.Prelude.{◌≡◌, ◌<◌, ℕ, length};
ghost use Rattle.duk_lanes.specs.Words.{wide_lane};
ghost use Rattle.duk_mac.specs.Cmac.{cmac_of, first_subkey};
ghost use Rattle.duk_tdes.specs.Cbc.{cbc_encrypted};
ghost use Rattle.duk_tdes.specs.KeyBytes.{bytes_of};
ghost use Rattle.duk_group.specs.Blocks.{block_of, message_in};
ghost use Rattle.duk_group.specs.declared.transposed.TheConstants.{WIDTH};

use crate::masks::xor;
use crate::one_key::encrypt_under;
use crate::transposed::Word;
use duk_lanes::{scatter_wide, spread_wide};
use duk_mac::double_block;
use duk_tdes::{Key, KeyBytes};

/// The CMAC of each lane's message, which is these blocks one after another, under a key of 16 or
/// 24 bytes, the same for all (NIST SP 800-38B section 6.2).
pub fn cmac_under(key: &KeyBytes, blocks: &[[Word; 64]]) -> [Word; 64]
    requires { 0 < length blocks.now }
    ensures { (i : ℕ) → i < WIDTH → block_of wide_lane i result
        ≡ cmac_of (bytes_of key.now) (message_in wide_lane i blocks.now) }
{
    let last = blocks.len() - 1;
    let mut chain = spread_wide([0; 8]);
    for block in &blocks[..last] {
        chain = encrypt_under(key, &xor(&chain, block));
    }
    let masked = xor(&blocks[last], &spread_wide(first_subkey(key).bytes()));
    encrypt_under(key, &xor(&chain, &masked))
}

/// The subkey for a whole last block, K1 (NIST SP 800-38B section 6.1).
fn first_subkey(key: &KeyBytes) -> Key<8>
    ensures { result ≡ first_subkey (bytes_of key.now) }
{
    let zeros = encrypt_under(key, &spread_wide([0; 8]));
    Key::new(double_block(scatter_wide(&zeros)[0]))
}

/// Enciphers each lane's blocks in CBC from the lane's initial vector, under a key of 16 or 24 bytes,
/// the same for all (NIST SP 800-38A section 6.2).
pub fn cbc_under(key: &KeyBytes, initial_vector: &[Word; 64], blocks: &mut [[Word; 64]])
    ensures { (i : ℕ) → i < WIDTH → message_in wide_lane i blocks.new
        ≡ cbc_encrypted (bytes_of key.now) (block_of wide_lane i initial_vector.now)
        (message_in wide_lane i blocks.old) }
{
    let mut before = *initial_vector;
    for place in 0..blocks.len() {
        before = encrypt_under(key, &xor(&blocks[place], &before));
        blocks[place] = before;
    }
}
