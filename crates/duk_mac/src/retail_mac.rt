//! The retail MAC (ANSI X9.19).

ghost use Rattle.std.specs.Prelude.{◌≡◌, ◌<◌, length};
ghost use Rattle.duk_mac.specs.Retail.{retail_of};

use crate::block::fill_block;
use duk_des::{Des, decrypt_block};
use duk_tdes::{Key, array_of, xor_bytes};

/// The retail MAC of a message that is not empty. It is filled with zero bytes to whole blocks, so
/// a message and the same message with zero bytes after it, within its last block, have one MAC.
pub fn retail(key: &Key<16>, message: &[u8]) -> [u8; 8]
    requires { 0 < length message.now }
    ensures { result ≡ retail_of key.now message.now }
{
    let (left, right) = key.halves();
    let left = Des::new(&left.bytes());
    let mut chain = [0; 8];
    let mut rest = message;
    while rest.len() > 8 {
        let (block, after) = rest.split_at(8);
        chain = left.encrypt(xor_bytes(&chain, &array_of(block)));
        rest = after;
    }
    chain = left.encrypt(xor_bytes(&chain, &fill_block(rest)));
    left.encrypt(decrypt_block(&right.bytes(), chain))
}
