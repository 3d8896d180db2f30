//! The header of a key block.

ghost use Rattle.std.specs.Prelude.{◌≡◌, ◌≤◌, ◌↔◌, IsTrue, length, take, drop, codes, ◌<◌, ℕ, MatchOption};
ghost use Rattle.std.specs.List.{All};
ghost use Rattle.duk_block.specs.Faults.{HasCount, HasLength};
ghost use Rattle.duk_block.specs.HeaderText.{IsPrintable};

use crate::digits::{four_digits, two_digits};
use crate::text::{BlockText, MAX_TEXT, MIN_TEXT, append};
use duk_tdes::array_of;

/// What a key block says of its key, in characters. Each is to be printable ASCII, 20 to 7E
/// hexadecimal, else `wrap` refuses it.
#[derive(Clone, Copy, PartialEq, Eq, Debug)]
pub struct Header {
    /// What the key is for, as `P0` for PIN encryption.
    pub usage: [u8; 2],
    /// The key's algorithm, as `T` for TDES.
    pub algorithm: u8,
    /// What may be done with the key, as `E` for enciphering.
    pub mode: u8,
    /// The key's version, `00` where there is none.
    pub version: [u8; 2],
    /// Whether the key may be exported, as `N` for not.
    pub exportability: u8,
}

impl Header {
    ghost use Rattle.duk_block.specs.HeaderText.{IsHeader, HasWidths, fields, header_text};

    /// The characters of the fields, in the order of the text: usage, algorithm, mode, version and
    /// exportability.
    pub fn fields(&self) -> [u8; 7]
        ensures { result ≡ fields self.now }
    {
        let [usage_0, usage_1] = self.usage;
        let [version_0, version_1] = self.version;
        [
            usage_0,
            usage_1,
            self.algorithm,
            self.mode,
            version_0,
            version_1,
            self.exportability,
        ]
    }

    /// The header of these fields, in the order of `fields`.
    pub fn from_fields(text: [u8; 7]) -> Self
        ensures fields { fields result ≡ text }
        ensures widths { HasWidths result }
    {
        let [
            usage_0,
            usage_1,
            algorithm,
            mode,
            version_0,
            version_1,
            exportability,
        ] = text;
        Header {
            usage: [usage_0, usage_1],
            algorithm,
            mode,
            version: [version_0, version_1],
            exportability,
        }
    }

    /// The header whose fields are characters 5 to 11.
    pub(crate) fn from_text(text: &[u8]) -> Self
        requires { 16 ≤ length text.now }
        ensures fields { fields result ≡ take 7 (drop 5 text.now) }
        ensures widths { HasWidths result }
    {
        Header::from_fields(array_of(&text[5..12]))
    }

    /// Whether each field can be printed, as a key block wants: its characters are 20 to 7E
    /// hexadecimal.
    pub fn is_printable(&self) -> bool
        ensures { IsTrue result ↔ IsHeader self.now }
    {
        are_printable(&self.fields())
    }

    /// The text of this header before a whole text of `total` characters, with so many optional
    /// blocks.
    pub(crate) fn text(&self, total: usize, optional_count: u8) -> BlockText
        requires total { total < 10000 }
        requires count { optional_count < 100 }
        ensures { result.items ≡ header_text total self.now optional_count (codes "00") }
    {
        let mut text = BlockText::new();
        append(&mut text, b"B");
        append(&mut text, &four_digits(total));
        append(&mut text, &self.fields());
        append(&mut text, &two_digits(optional_count));
        append(&mut text, b"00");
        text
    }
}

/// Whether each character can be printed: it is 20 to 7E hexadecimal.
pub fn are_printable(text: &[u8]) -> bool
    ensures { IsTrue result ↔ All IsPrintable text.now }
{
    text.iter().all(|byte| (0x20..=0x7E).contains(byte))
}

/// Whether the text has a lawful length, and its length field is that length.
pub fn has_length(text: &[u8]) -> bool
    ensures { IsTrue result ↔ HasLength text.now }
{
    let length = text.len();
    (MIN_TEXT..=MAX_TEXT).contains(&length)
        && length % 8 == 0
        && text[1..5] == four_digits(length)[..]
}

/// The number of optional blocks, where characters 12 and 13 are decimal digits.
pub fn optional_count(text: &[u8]) -> Option<u8>
    requires { 16 ≤ length text.now }
    ensures { MatchOption result ((count : ℕ) → HasCount text.now count → ⊥)
        (λ count. HasCount text.now count) }
{
    let (tens, ones) = (text[12], text[13]);
    if tens.is_ascii_digit() && ones.is_ascii_digit() {
        Some((tens - b'0') * 10 + (ones - b'0'))
    } else {
        None
    }
}
