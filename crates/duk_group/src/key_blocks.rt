//! The key blocks of a group of keys (ANSI X9.143, key derivation binding method), a lane for each.

ghost use Rattle.std.specs.Prelude.{◌≡◌, ◌<◌, ◌≤◌, ◌++◌, ℕ, length, take, drop};
ghost use Rattle.duk_block.specs.HeaderText.{IsHeader};
ghost use Rattle.duk_block.specs.KeyBlock.{IsWrittenKeyBlock, payload_of};
ghost use Rattle.duk_group.specs.Blocks.{block_of, message_in};
ghost use Rattle.duk_group.specs.Numbers.{bytes_at};
ghost use Rattle.duk_group.specs.declared.transposed.TheConstants.{WIDTH};
ghost use Rattle.duk_lanes.specs.Words.{wide_lane};
ghost use Rattle.duk_mac.specs.Cmac.{cmac_of};
ghost use Rattle.duk_tdes.specs.Cbc.{AreWholeBlocks, cbc_encrypted};
ghost use Rattle.duk_tdes.specs.KeyBytes.{bytes_of};
ghost use Rattle.duk_tdes.specs.Tdes.{IsTdesKey};

use crate::modes::{cbc_under, cmac_under};
use crate::protection::{DerivedKeys, derived_keys};
use crate::transposed::{WIDTH, Word, gather_blocks};
use duk_block::{Header, front_text, payload_with, written_text};
use duk_lanes::{scatter_wide, spread_wide};
use duk_tdes::{Key, KeyBytes, array_of};

/// The characters of a key block of a key of 16 bytes with 6 bytes of padding, and without optional
/// blocks: a header of 16, 48 for the payload of 24 bytes, and 16 for the MAC.
pub const KEY_BLOCK: usize = 80;

/// The MAC and the ciphertext of each lane's payload.
#[derive(Drop)]
struct SealedGroup {
    macs: [[u8; 8]; WIDTH],
    ciphertexts: [[u8; 24]; WIDTH],
}

/// The key blocks of these keys, each with its padding, under one key block protection key: what
/// `duk_block::wrap` writes (ANSI X9.143, key derivation binding method). No branch and no address
/// depends on a key or on padding.
pub fn wrap_group(
    protection: &KeyBytes,
    header: &Header,
    keys: &[Key<16>; WIDTH],
    padding: &[[u8; 6]; WIDTH],
) -> [[u8; KEY_BLOCK]; WIDTH]
    requires { IsHeader header.now }
    ensures { (i : ℕ) → i < WIDTH
        → IsWrittenKeyBlock (bytes_at result i) (bytes_of protection.now) header.now
        (bytes_at keys.now i) (bytes_at padding.now i) }
{
    let derived = derived_keys(protection);
    let front = front_text(header, KEY_BLOCK);
    let SealedGroup { macs, ciphertexts } = seal(&derived, &front, &payloads(keys, padding));
    let mut texts = [[0; KEY_BLOCK]; WIDTH];
    for i in 0..WIDTH {
        let text = written_text(header, &ciphertexts[i], &macs[i]);
        texts[i] = array_of(text.as_slice());
    }
    texts
}

/// The payload of each key with its padding.
fn payloads(keys: &[Key<16>; WIDTH], padding: &[[u8; 6]; WIDTH]) -> [[u8; 24]; WIDTH]
    ensures payloads { (i : ℕ) → i < WIDTH
        → bytes_at result i ≡ payload_of (bytes_at keys.now i) (bytes_at padding.now i) }
    ensures whole { (i : ℕ) → i < WIDTH → AreWholeBlocks (bytes_at result i) }
    ensures keys { (i : ℕ) → i < WIDTH → IsTdesKey (bytes_at keys.now i) }
{
    let mut payloads = [[0; 24]; WIDTH];
    for i in 0..WIDTH {
        let payload = payload_with(&keys[i], &padding[i]);
        payloads[i] = array_of(payload.as_slice());
    }
    payloads
}

/// The MACs over the front, the same in each lane, and the lane's payload, and the payloads
/// enciphered from the MACs on.
fn seal(derived: &DerivedKeys, front: &[u8; 16], payloads: &[[u8; 24]; WIDTH]) -> SealedGroup
    ensures macs { (i : ℕ) → i < WIDTH → bytes_at result.macs i
        ≡ cmac_of (bytes_of derived.now.mac) (front.now ++ bytes_at payloads.now i) }
    ensures ciphertexts { (i : ℕ) → i < WIDTH → bytes_at result.ciphertexts i
        ≡ cbc_encrypted (bytes_of derived.now.encryption) (bytes_at result.macs i)
        (bytes_at payloads.now i) }
{
    let mut blocks = gather_payloads(payloads);
    let macs = cmac_under(&derived.mac, &with_front(front, &blocks));
    cbc_under(&derived.encryption, &macs, &mut blocks);
    SealedGroup {
        macs: scatter_wide(&macs),
        ciphertexts: scatter_payloads(&blocks),
    }
}

/// The messages of the MACs: the two blocks of the front, and each lane's payload.
fn with_front(front: &[u8; 16], payloads: &[[Word; 64]; 3]) -> [[Word; 64]; 5]
    ensures { (i : ℕ) → i < WIDTH → message_in wide_lane i result
        ≡ front.now ++ message_in wide_lane i payloads.now }
{
    let first = spread_wide(array_of(&front[..8]));
    let second = spread_wide(array_of(&front[8..]));
    [first, second, payloads[0], payloads[1], payloads[2]]
}

/// The three blocks of each payload, in lanes.
fn gather_payloads(payloads: &[[u8; 24]; WIDTH]) -> [[Word; 64]; 3]
    ensures { (i : ℕ) → i < WIDTH
        → message_in wide_lane i result ≡ bytes_at payloads.now i }
{
    [
        gather_part(payloads, 0),
        gather_part(payloads, 8),
        gather_part(payloads, 16),
    ]
}

/// The block of each payload that begins at this byte, in lanes.
fn gather_part(payloads: &[[u8; 24]; WIDTH], start: usize) -> [Word; 64]
    requires { start ≤ 16 }
    ensures parts { (i : ℕ) → i < WIDTH → block_of wide_lane i result
        ≡ take 8 (drop start (bytes_at payloads.now i)) }
    ensures width { (i : ℕ) → i < WIDTH → length (bytes_at payloads.now i) ≡ 24 }
{
    let mut parts = [[0; 8]; WIDTH];
    for i in 0..WIDTH {
        parts[i] = array_of(&payloads[i][start..start + 8]);
    }
    gather_blocks(&parts)
}

/// The three blocks of each lane, one after another.
fn scatter_payloads(blocks: &[[Word; 64]; 3]) -> [[u8; 24]; WIDTH]
    ensures { (i : ℕ) → i < WIDTH
        → bytes_at result i ≡ message_in wide_lane i blocks.now }
{
    let first = scatter_wide(&blocks[0]);
    let second = scatter_wide(&blocks[1]);
    let third = scatter_wide(&blocks[2]);
    let mut payloads = [[0; 24]; WIDTH];
    for i in 0..WIDTH {
        payloads[i] = array_of([first[i], second[i], third[i]].as_flattened());
    }
    payloads
}
