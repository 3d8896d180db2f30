//! Wrapping a key.

ghost use Rattle.std.specs.Prelude.{◌≡◌, ◌↔◌, ◌+◌, ◌*◌, ◌%◌, ◌≤◌, IfOk, IsOk, MatchOption, length};
ghost use Rattle.duk_tdes.specs.Tdes.{IsTdesLength};
ghost use Rattle.duk_block.specs.HeaderText.{IsHeader};
ghost use Rattle.duk_block.specs.KeyBlock.{FitsKeyBlock, FitsKeyBlockWith, IsWithinLimits, IsWrittenKeyBlock, IsWrittenKeyBlockWith};
ghost use Rattle.duk_block.specs.inner.KeyBlock.{IsSealed};
ghost use Rattle.duk_block.specs.Optional.{AreOptionalBlocks};

use crate::fault::BlockFault;
use crate::header::Header;
use crate::optional::count_written;
use crate::parts::sealed_text;
use crate::payload::payload_with;
use crate::sealing::{block_mac, encipher};
use crate::text::{BlockText, MAX_TEXT, append};
use duk_tdes::Key;

/// Padding of zeros after a key of 16 or 24 bytes: with it, the key and the two bytes of its
/// length fill whole blocks.
pub const ZERO_PADDING: [u8; 6] = [0; 6];

/// The most bytes of a payload: two characters each, with the 16 of a header and the 16 of a MAC.
const MAX_PAYLOAD: usize = (MAX_TEXT - 32) / 2;

/// Wraps a key in a key block with no optional block: the header, and the key with this padding
/// after it enciphered under a key derived from the key block protection key. `N` and `M` are 16
/// or 24.
///
/// Refuses a header with a character outside 20 to 7E hexadecimal as `HeaderField`; then, as
/// `PadLength`, padding that does not fill the payload to whole blocks of 8 bytes, where a length
/// of 2 bytes and the key stand before it, or with which the text would have more than 512
/// characters. Padding may be longer than needed; it should be random.
pub fn wrap<const N: usize, const M: usize>(
    kbpk: &Key<N>,
    header: &Header,
    key: &Key<M>,
    pad: &[u8],
) -> Result<BlockText, BlockFault>
    requires protection_key { IsTdesLength N }
    requires key { IsTdesLength M }
    ensures fields { (result ≡ Err BlockFault.HeaderField) ↔ ¬ IsHeader header.now }
    ensures padding { (result ≡ Err BlockFault.PadLength)
        ↔ (IsHeader header.now × ¬ FitsKeyBlock M (length pad.now)) }
    ensures ok { IsOk result ↔ (IsHeader header.now × FitsKeyBlock M (length pad.now)) }
    ensures limits { IfOk result (λ text. IsWithinLimits text.items) }
    ensures written { IfOk result
        (λ text. IsWrittenKeyBlock text.items kbpk.now header.now key.now pad.now) }
{
    wrap_with(kbpk, header, &[], key, pad)
}

/// Wraps a key in a key block with these optional blocks, given one after another as they stand in
/// the text: an id of two characters, the length of the whole block in two hexadecimal digits, and
/// content. There may be none. All else is as in `wrap`.
///
/// Refuses as `HeaderField` what `wrap` does; then, as `OptionalBlock`, what is not whole optional
/// blocks, more than 99 of them, a character outside 20 to 7E hexadecimal, and a length in all that
/// is no multiple of 8 (a padding block of the caller's, with the id `PB`, makes it one); then, as
/// `PadLength`, what `wrap` does, where the optional blocks count to the 512 characters.
pub fn wrap_with<const N: usize, const M: usize>(
    kbpk: &Key<N>,
    header: &Header,
    optional: &[u8],
    key: &Key<M>,
    pad: &[u8],
) -> Result<BlockText, BlockFault>
    requires protection_key { IsTdesLength N }
    requires key { IsTdesLength M }
    ensures fields { (result ≡ Err BlockFault.HeaderField) ↔ ¬ IsHeader header.now }
    ensures optional { (result ≡ Err BlockFault.OptionalBlock)
        ↔ (IsHeader header.now × ¬ AreOptionalBlocks optional.now) }
    ensures padding { (result ≡ Err BlockFault.PadLength)
        ↔ (IsHeader header.now × AreOptionalBlocks optional.now
        × ¬ FitsKeyBlockWith (length optional.now) M (length pad.now)) }
    ensures ok { IsOk result
        ↔ (IsHeader header.now × AreOptionalBlocks optional.now
        × FitsKeyBlockWith (length optional.now) M (length pad.now)) }
    ensures limits { IfOk result (λ text. IsWithinLimits text.items) }
    ensures written { IfOk result (λ text. IsWrittenKeyBlockWith
        text.items kbpk.now header.now optional.now key.now pad.now) }
{
    if !header.is_printable() {
        return Err(BlockFault::HeaderField);
    }
    let Some(count) = count_written(optional) else {
        return Err(BlockFault::OptionalBlock);
    };
    let Some(total) = text_length(optional.len(), M, pad.len()) else {
        return Err(BlockFault::PadLength);
    };
    let mut front = header.text(total, count);
    append(&mut front, optional);
    Ok(seal(kbpk, front, payload_with(key, pad).as_slice()))
}

/// The length of a text with optional blocks of this length in all, where key and padding fit it.
fn text_length(optional: usize, key: usize, pad: usize) -> Option<usize>
    requires { IsTdesLength key }
    ensures { MatchOption result (¬ FitsKeyBlockWith optional key pad)
        (λ total. FitsKeyBlockWith optional key pad
        × (total ≡ 32 + optional + 2 * (2 + key + pad))) }
{
    let payload = pad.checked_add(2 + key)?;
    if payload % 8 == 0 && payload <= MAX_PAYLOAD && optional <= MAX_TEXT - 32 - 2 * payload {
        Some(32 + optional + 2 * payload)
    } else {
        None
    }
}

/// The text of these characters in front, and the payload, sealed: its ciphertext and the MAC, in
/// hexadecimal.
fn seal<const N: usize>(kbpk: &Key<N>, front: BlockText, payload: &[u8]) -> BlockText
    requires protection_key { IsTdesLength N }
    requires room { length front.items + 2 * length payload.now ≤ 496 }
    requires whole { length payload.now % 8 ≡ 0 }
    ensures { IsSealed kbpk.now front.items payload.now result.items }
{
    let mac = block_mac(kbpk, front.as_slice(), payload);
    let ciphertext = encipher(kbpk, mac, payload);
    sealed_text(front, ciphertext.as_slice(), &mac)
}
