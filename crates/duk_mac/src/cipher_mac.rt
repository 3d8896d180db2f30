//! CMAC (NIST SP 800-38B).

ghost use Rattle.std.specs.Prelude.{◌≡◌, ◌≤◌, length};
ghost use Rattle.duk_des.specs.Block.{IsBlock};
ghost use Rattle.duk_tdes.specs.Tdes.{IsTdesLength};
ghost use Rattle.duk_mac.specs.Cmac.{doubled, last_block, cmac_of};

use crate::block::pad_block;
use duk_tdes::{Key, Tdes, array_of, xor_bytes};

/// Xored where doubling drops a one bit: the constant R64 of NIST SP 800-38B section 5.3.
const CARRY: u64 = 0x1B;

/// The CMAC of a message of any length under a TDES key: `N` is 16 or 24.
pub fn cmac<const N: usize>(key: &Key<N>, message: &[u8]) -> [u8; 8]
    requires { IsTdesLength N }
    ensures mac { result ≡ cmac_of key.now message.now }
    ensures block { IsBlock result }
{
    cmac_under(&Tdes::new(key), message)
}

/// The CMAC of a message of any length under TDES with one key.
pub fn cmac_under<const N: usize>(tdes: &Tdes<N>, message: &[u8]) -> [u8; 8]
    ensures mac { result ≡ cmac_of tdes.now message.now }
    ensures block { IsBlock result }
{
    let mut chain = [0; 8];
    let mut rest = message;
    while rest.len() > 8 {
        let (block, after) = rest.split_at(8);
        chain = tdes.encrypt(xor_bytes(&chain, &array_of(block)));
        rest = after;
    }
    tdes.encrypt(xor_bytes(&chain, &last_block(tdes, rest)))
}

/// The last block of a message, masked: `rest` is what the blocks before it leave, 0 to 8 bytes.
fn last_block<const N: usize>(tdes: &Tdes<N>, rest: &[u8]) -> [u8; 8]
    requires { length rest.now ≤ 8 }
    ensures { result ≡ last_block tdes.now rest.now }
{
    let first_subkey = double_block(tdes.encrypt([0; 8]));
    if rest.len() == 8 {
        xor_bytes(&array_of(rest), &first_subkey)
    } else {
        xor_bytes(&pad_block(rest), &double_block(first_subkey))
    }
}

/// The block shifted left by one bit; `CARRY` is xored where the bit that falls out is a one (NIST
/// SP 800-38B section 6.1, steps 2 and 3). No branch depends on that bit, which comes of a key.
pub fn double_block(block: [u8; 8]) -> [u8; 8]
    ensures { result ≡ doubled block }
{
    let number = u64::from_be_bytes(block);
    let carry = number >> 63;
    ((number << 1) ^ (carry * CARRY)).to_be_bytes()
}
