//! Unwrapping a key.

ghost use Rattle.std.specs.Prelude.{◌≡◌, ◌≤◌, ◌%◌, ◌++◌, ℕ, List, IfOk, IfErr, MatchOption, length};
ghost use Rattle.std.specs.List.{AllPass};
ghost use Rattle.hex.specs.Hex.{is_hex_digit};
ghost use Rattle.duk_tdes.specs.Tdes.{IsTdesLength};
ghost use Rattle.duk_block.specs.Hexadecimal.{IsHexadecimal};
ghost use Rattle.duk_block.specs.KeyBlock.{Wraps};
ghost use Rattle.duk_tdes.specs.KeyBytes.{bytes_of, key_from};
ghost use Rattle.duk_block.specs.Faults.{Carries, HasSealedPart, HasCount, HasPayload, IsFirstFault};
ghost use Rattle.duk_block.specs.inner.Faults.{HasHeader, MetBefore};
ghost use Rattle.duk_block.specs.Unwrapped.{ReadsKeyBlocks, RefusesFirstFaults};

use crate::digits::hex_bytes;
use crate::fault::BlockFault;
use crate::header::{Header, has_length, optional_count};
use crate::laws;
use crate::optional::after_optional;
use crate::payload::key_in;
use crate::sealing::{block_mac, decipher};
use crate::text::{BlockText, MAX_TEXT};
use duk_mac::same_mac;
use duk_tdes::{Key, KeyBytes, array_of};

/// Reads a key block under the key block protection key: its header and the key that it binds to
/// the header. `N` is 16 or 24.
///
/// The text is of 80 to 512 characters and a multiple of 8. Any other text, and one that is no key
/// block, is refused with the first of the faults, from `Length` to `Payload`, that it has.
/// Hexadecimal digits are read in either case. The last two characters of the header, the ids and
/// contents of optional blocks and the padding may be anything.
pub fn unwrap<const N: usize>(kbpk: &Key<N>, text: &[u8]) -> Result<(Header, KeyBytes), BlockFault>
    requires { IsTdesLength N }
    ensures found { IfOk result (λ found. Wraps kbpk.now text.now found.0 (bytes_of found.1)) }
    ensures only { ReadsKeyBlocks result text.now kbpk.now }
    ensures refused { RefusesFirstFaults result text.now kbpk.now }
{
    duk_tdes::laws::tdes_key(kbpk);
    laws::derived_keys();
    laws::one_reading();
    duk_tdes::laws::cbc_inverse();
    read(kbpk, text)
}

/// The header and the key of a key block, or its first fault.
fn read<const N: usize>(kbpk: &Key<N>, text: &[u8]) -> Result<(Header, KeyBytes), BlockFault>
    requires { IsTdesLength N }
    ensures found { IfOk result (λ found. Wraps kbpk.now text.now found.0 (bytes_of found.1)) }
    ensures length { IfOk result (λ found. found.1 ≡ key_from (bytes_of found.1)) }
    ensures refused { IfErr result (IsFirstFault text.now kbpk.now) }
{
    let (header, count) = header_of(text)?;
    let Some(sealed_part) = sealed_part_of(text, count) else {
        return Err(BlockFault::OptionalBlock);
    };
    let payload = open_payload(kbpk, text, sealed_part)?;
    match key_in(payload.as_slice()) {
        Some(key) => Ok((header, key)),
        None => Err(BlockFault::Payload),
    }
}

/// The header, and the number of optional blocks after it.
pub(crate) fn header_of(text: &[u8]) -> Result<(Header, u8), BlockFault>
    ensures found { IfOk result (λ found. HasHeader text.now found.0 found.1) }
    ensures refused { IfErr result
        (λ fault. (protection_key : List ℕ) → IsFirstFault text.now protection_key fault) }
{
    if !has_length(text) {
        return Err(BlockFault::Length);
    }
    if text[0] != b'B' {
        return Err(BlockFault::Version);
    }
    let header = Header::from_text(text);
    if !header.is_printable() {
        return Err(BlockFault::HeaderField);
    }
    match optional_count(text) {
        Some(count) => Ok((header, count)),
        None => Err(BlockFault::HeaderField),
    }
}

/// What stands after the optional blocks, where ciphertext and MAC have room in it.
fn sealed_part_of(text: &[u8], count: u8) -> Option<&[u8]>
    requires header { 16 ≤ length text.now }
    requires count { HasCount text.now count }
    ensures { MatchOption result ((sealed_part : List ℕ) → HasSealedPart text.now sealed_part → ⊥)
        (λ sealed_part. HasSealedPart text.now sealed_part.now) }
{
    let sealed_part = after_optional(count, &text[16..])?;
    if sealed_part.len() >= 64 && sealed_part.len() % 16 == 0 {
        Some(sealed_part)
    } else {
        None
    }
}

/// The payload, where the sealed part is hexadecimal and has the right MAC.
fn open_payload<const N: usize>(
    kbpk: &Key<N>,
    text: &[u8],
    sealed_part: &[u8],
) -> Result<BlockText, BlockFault>
    requires key { IsTdesLength N }
    requires most { length text.now ≤ MAX_TEXT }
    requires sealed_part { HasSealedPart text.now sealed_part.now }
    requires met { MetBefore text.now kbpk.now BlockFault.Hex }
    ensures found { IfOk result (λ payload. HasPayload text.now kbpk.now payload.items) }
    ensures length { IfOk result (λ payload. 24 ≤ length payload.items) }
    ensures only { IfOk result (λ payload.
        (other : List ℕ) → HasPayload text.now kbpk.now other → other ≡ payload.items) }
    ensures refused { IfErr result (IsFirstFault text.now kbpk.now) }
{
    let front = &text[..text.len() - sealed_part.len()];
    let Some(bytes) = hex_bytes(sealed_part) else {
        return Err(BlockFault::Hex);
    };
    let (ciphertext, mac) = bytes.as_slice().split_at(sealed_part.len() / 2 - 8);
    let mac = array_of(mac);
    let payload = decipher(kbpk, mac, ciphertext);
    if same_mac(&block_mac(kbpk, front, payload.as_slice()), &mac) {
        Ok(payload)
    } else {
        Err(BlockFault::Mac)
    }
}
