//! Parts of a key block, for whoever puts it together with ciphers of its own.

ghost use Rattle.std.specs.Prelude.{◌≡◌, ◌<◌, ◌≤◌, ◌+◌, ◌*◌, ◌%◌, ◌++◌, ℕ, List, length, codes};
ghost use Rattle.hex.specs.Hex.{encode_upper};
ghost use Rattle.duk_tdes.specs.Tdes.{IsTdesKey};
ghost use Rattle.duk_block.specs.Derived.{derivation_data};
ghost use Rattle.duk_block.specs.HeaderText.{IsHeader, header_text};
ghost use Rattle.duk_block.specs.KeyBlock.{AreSealed, IsWithinLimits, IsWrittenKeyBlock};

use crate::header::Header;
use crate::text::{BlockText, MAX_TEXT};
use duk_io::append_hex;
use duk_tdes::array_of;

/// The data of one step in which a key of `size` bytes, 16 or 24, is derived for this use. Its CMAC
/// under the key block protection key is eight bytes of the derived key. The first step has
/// counter 1.
pub fn derivation_data(counter: u8, usage: [u8; 2], size: usize) -> [u8; 8]
    ensures { result ≡ derivation_data counter usage size }
{
    let [high, low] = usage;
    if size == 16 {
        [counter, high, low, 0x00, 0x00, 0x00, 0x00, 0x80]
    } else {
        [counter, high, low, 0x00, 0x00, 0x01, 0x00, 0xC0]
    }
}

/// The characters in front of the ciphertext in a key block of `total` characters without optional
/// blocks: its header.
pub fn front_text(header: &Header, total: usize) -> [u8; 16]
    requires header { IsHeader header.now }
    requires total { total < 10000 }
    ensures { result ≡ header_text total header.now 0 (codes "00") }
{
    array_of(header.text(total, 0).as_slice())
}

/// The text of a key block without optional blocks, of its header, its ciphertext and its MAC. It
/// has two characters for each byte of the ciphertext, 16 for the header and 16 for the MAC.
pub fn written_text(header: &Header, ciphertext: &[u8], mac: &[u8; 8]) -> BlockText
    requires header { IsHeader header.now }
    requires least { 24 ≤ length ciphertext.now }
    requires most { 32 + 2 * length ciphertext.now ≤ MAX_TEXT }
    requires whole { length ciphertext.now % 8 ≡ 0 }
    ensures written { (protection_key key padding : List ℕ) → IsTdesKey protection_key
        → AreSealed protection_key
        (header_text (32 + 2 * length ciphertext.now) header.now 0 (codes "00")) key padding
        ciphertext.now mac.now
        → IsWrittenKeyBlock result.items protection_key header.now key padding }
    ensures length { length result.items ≡ 32 + 2 * length ciphertext.now }
    ensures limits { IsWithinLimits result.items }
{
    crate::laws::derived_keys();
    duk_tdes::laws::cbc_inverse();
    let total = 32 + 2 * ciphertext.len();
    sealed_text(header.text(total, 0), ciphertext, mac)
}

/// These characters in front, and after them the ciphertext and the MAC in hexadecimal.
pub(crate) fn sealed_text(front: BlockText, ciphertext: &[u8], mac: &[u8; 8]) -> BlockText
    requires { length front.items + 2 * length ciphertext.now ≤ 496 }
    ensures { result.items
        ≡ front.items ++ encode_upper ciphertext.now ++ encode_upper mac.now }
{
    let mut text = front;
    append_hex(&mut text, ciphertext);
    append_hex(&mut text, mac);
    text
}
