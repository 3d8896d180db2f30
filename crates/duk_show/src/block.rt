//! The command `show block`.

ghost use Rattle.std.specs.Prelude.{◌≡◌, ◌↔◌, ◌<◌, ◌≤◌, ◌+◌, ◌*◌, ◌++◌, ◌∷◌, [], ℕ, List, IfErr, IfOk, IsTrue, MatchBool, MatchOption, OnOk, decimal, drop, length, slice_index};
ghost use Rattle.std.specs.List.{AllPass};
ghost use Rattle.arrayvec.specs.ArrayVec.{array_vec_len};
ghost use Rattle.duk_block.specs.Digits.{four_digits};
ghost use Rattle.duk_block.specs.Faults.{HasCount, HasLength};
ghost use Rattle.duk_block.specs.HeaderText.{fields};
ghost use Rattle.duk_block.specs.Hexadecimal.{IsHexadecimal};
ghost use Rattle.duk_block.specs.Optional.{Leaves};
ghost use Rattle.hex.specs.Hex.{is_hex_digit};
ghost use Rattle.duk_show.specs.Block.{IsBlockRefused, IsBlockText, IsFieldCharacter, IsFirstBlockFault, IsOfOtherVersion, IsWrongCharacterAt, header_lines, sealed_lines, worded_line};
ghost use Rattle.duk_show.specs.inner.Block.{ArePassed, BeginsWithBlock, HasPushedParts, IsSealedFault, IsSealedPart, MetBefore, StopsAfterBlocks, front_lines};

use crate::decimal::push_number_line;
use crate::fault::ShowFault;
use crate::hexadecimal::first_no_digit;
use crate::key_names::{MOST_NAME, algorithm_name, exportability_name, mode_name, usage_name};
use crate::shown_text::push_shown_line;
use duk_block::{BlockFault, Header, MAX_TEXT};
use duk_commands::{LINES_ROOM, Lines, push_end, push_text, push_text_line};
use duk_tdes::array_of;
use hex::FromHex;

/// The fewest characters of a key block: a header, three blocks and a MAC.
const MIN_TEXT: usize = 80;

/// The characters of a header.
const HEADER: usize = 16;

/// The characters of a MAC.
const MAC: usize = 16;

/// Why what stands after the optional blocks is no ciphertext and MAC.
#[derive(Clone, Copy)]
enum SealedFault {
    /// It has fewer than 64 characters, or no multiple of 16.
    Length,
    /// The character at this place of it is no hexadecimal digit.
    Digit(usize),
}

/// The lines of a key block of version B: its header in words, its optional blocks, the ciphertext
/// and the MAC as they stand. No key is needed, and so the MAC is not tested. Bytes of the reserved
/// field and of optional blocks that are no printable characters are escaped.
///
/// Refused with `BlockRefused`: `Version` of a text that begins as a key block of version A, C, D or
/// E does, which have other lengths; else the first fault from `Length` to `Hex` that the text has,
/// whatever the key is, and its place.
pub fn block_lines(text: &str) -> Result<Lines, ShowFault>
    ensures lines { IfOk result (λ lines. IsBlockText text.now lines.items) }
    ensures refused { IfErr result (IsBlockRefused text.now) }
{
    if is_of_other_version(text.as_bytes()) {
        let why = BlockFault::Version;
        return Err(ShowFault::BlockRefused { place: 0, why });
    }
    lines_of_text(text.as_bytes())
}

/// Whether a text begins as a key block of another version does.
fn is_of_other_version(text: &[u8]) -> bool
    ensures { IsTrue result ↔ IsOfOtherVersion text.now }
{
    matches!(text, [b'A' | b'C' | b'D' | b'E', ..])
}

/// The lines of the key block that the characters are.
fn lines_of_text(text: &[u8]) -> Result<Lines, ShowFault>
    ensures lines { IfOk result (λ lines. IsBlockText text.now lines.items) }
    ensures refused { IfErr result (IsFirstBlockFault text.now) }
{
    let count = read_header(text)?;
    let header = Header::from_fields(array_of(&text[5..12]));
    let mut lines = Lines::new();
    push_front(&mut lines, text, &header, count);
    match push_parts(&mut lines, text, count) {
        Ok(()) => Ok(lines),
        Err(fault) => Err(fault),
    }
}

/// The number of optional blocks, where the header of a key block is lawful.
fn read_header(text: &[u8]) -> Result<u8, ShowFault>
    ensures count { IfOk result (HasCount text.now) }
    ensures length { OnOk result (HasLength text.now) }
    ensures met { OnOk result (MetBefore text.now BlockFault.OptionalBlock) }
    ensures refused { IfErr result (IsFirstBlockFault text.now) }
{
    if !has_length(text) {
        let why = BlockFault::Length;
        return Err(ShowFault::BlockRefused { place: 1, why });
    }
    if text[0] != b'B' {
        let why = BlockFault::Version;
        return Err(ShowFault::BlockRefused { place: 0, why });
    }
    match wrong_character(text) {
        None => Ok(optional_count(text)),
        Some(place) => {
            let why = BlockFault::HeaderField;
            Err(ShowFault::BlockRefused { place, why })
        }
    }
}

/// Appends the lines of what stands before the optional blocks.
fn push_front(lines: &mut Lines, text: &[u8], header: &Header, count: u8)
    requires size { 16 ≤ length text.now }
    requires most { length text.now ≤ MAX_TEXT }
    requires room { array_vec_len lines.old + 520 ≤ LINES_ROOM }
    ensures lines { lines.new.items ≡ lines.old.items ++ front_lines text.now header.now count }
    ensures len { array_vec_len lines.new ≤ array_vec_len lines.old + 520 }
{
    push_text_line(lines, b"version", b"B");
    push_number_line(lines, b"length", text.len());
    push_header(lines, header);
    push_number_line(lines, b"optional-blocks", usize::from(count));
    push_shown_line(lines, b"reserved", &text[14..16]);
}

/// Appends the lines of the optional blocks, the ciphertext and the MAC.
fn push_parts(lines: &mut Lines, text: &[u8], count: u8) -> Result<(), ShowFault>
    requires length { HasLength text.now }
    requires count { HasCount text.now count }
    requires met { MetBefore text.now BlockFault.OptionalBlock }
    requires room { array_vec_len lines.old + 3570 ≤ LINES_ROOM }
    ensures parts { OnOk result (HasPushedParts text.now count lines.old.items lines.new.items) }
    ensures met { OnOk result (MetBefore text.now BlockFault.Mac) }
    ensures refused { IfErr result (IsFirstBlockFault text.now) }
{
    let place = match push_optional(lines, text, count) {
        Ok(place) => place,
        Err(place) => {
            let why = BlockFault::OptionalBlock;
            return Err(ShowFault::BlockRefused { place, why });
        }
    };
    match push_sealed(lines, &text[place..]) {
        Ok(()) => Ok(()),
        Err(SealedFault::Length) => {
            let why = BlockFault::OptionalBlock;
            Err(ShowFault::BlockRefused { place, why })
        }
        Err(SealedFault::Digit(offset)) => {
            let place = place + offset;
            let why = BlockFault::Hex;
            Err(ShowFault::BlockRefused { place, why })
        }
    }
}

/// Whether the text has a lawful length, and its length field is that length.
fn has_length(text: &[u8]) -> bool
    ensures { MatchBool result (HasLength text.now) (¬ HasLength text.now) }
{
    let length = text.len();
    (MIN_TEXT..=MAX_TEXT).contains(&length)
        && length % 8 == 0
        && text[1..5] == four_digits(length)[..]
}

/// A number as four decimal digits.
fn four_digits(number: usize) -> [u8; 4]
    requires { number < 10000 }
    ensures { result ≡ four_digits number }
{
    [
        b'0' + (number / 1000) as u8,
        b'0' + (number / 100 % 10) as u8,
        b'0' + (number / 10 % 10) as u8,
        b'0' + (number % 10) as u8,
    ]
}

/// The first character of the header's fields that is not what its place asks for.
fn wrong_character(text: &[u8]) -> Option<usize>
    requires { 16 ≤ length text.now }
    ensures { MatchOption result
        ((place : ℕ) → 5 ≤ place → place < 14
        → IsFieldCharacter place (slice_index text.now place))
        (IsWrongCharacterAt text.now) }
{
    for place in 5..14 {
        if !is_field_character(place, text[place]) {
            return Some(place);
        }
    }
    None
}

/// Whether a character of the header's fields is what its place asks for.
fn is_field_character(place: usize, character: u8) -> bool
    ensures { MatchBool result (IsFieldCharacter place character)
        (¬ IsFieldCharacter place character) }
{
    if place < 12 {
        (0x20..=0x7E).contains(&character)
    } else {
        character.is_ascii_digit()
    }
}

/// The number of optional blocks.
fn optional_count(text: &[u8]) -> u8
    requires size { 16 ≤ length text.now }
    requires tens { IsFieldCharacter 12 (slice_index text.now 12) }
    requires ones { IsFieldCharacter 13 (slice_index text.now 13) }
    ensures { HasCount text.now result }
{
    (text[12] - b'0') * 10 + (text[13] - b'0')
}

/// The length of the optional block that begins a text.
fn optional_length(text: &[u8]) -> Option<usize>
    ensures { MatchOption result ((size : ℕ) → ¬ BeginsWithBlock text.now size)
        (BeginsWithBlock text.now) }
{
    if text.len() < 4 {
        return None;
    }
    let length = usize::from(byte_in(&text[2..4])?);
    if length < 4 || length > text.len() {
        return None;
    }
    Some(length)
}

/// The byte that two hexadecimal digits write.
fn byte_in(digits: &[u8]) -> Option<u8>
    ensures { MatchOption result ((byte : ℕ) → ¬ IsHexadecimal digits.now (byte ∷ []))
        (λ byte. IsHexadecimal digits.now (byte ∷ [])) }
{
    let [byte] = <[u8; 1] as FromHex>::from_hex(digits).ok()?;
    Some(byte)
}

/// Appends the lines of so many optional blocks after the header, and gives the place after them.
/// Where one of them is none, its place is the error.
fn push_optional(lines: &mut Lines, text: &[u8], count: u8) -> Result<usize, usize>
    requires size { 16 ≤ length text.now }
    requires most { length text.now ≤ MAX_TEXT }
    requires count { count < 100 }
    requires room { array_vec_len lines.old + 3570 ≤ LINES_ROOM }
    ensures passed { IfOk result (λ place. (blocks : List (List ℕ)) × (length blocks ≡ count)
        × ArePassed text.now blocks place lines.old.items lines.new.items) }
    ensures len { IfOk result
        (λ place. array_vec_len lines.new ≤ array_vec_len lines.old + 1540 + 4 * place) }
    ensures stops { IfErr result (StopsAfterBlocks text.now count) }
    ensures none { IfErr result
        (λ _. (rest : List ℕ) → ¬ Leaves count (drop 16 text.now) rest) }
{
    let mut place = HEADER;
    let mut left = count;
    while left > 0 {
        let Some(length) = optional_length(&text[place..]) else {
            return Err(place);
        };
        push_shown_line(lines, b"optional-block", &text[place..place + length]);
        place += length;
        left -= 1;
    }
    Ok(place)
}

/// Appends the lines of the ciphertext and the MAC, where what stands after the optional blocks is
/// so long; else its fault.
fn push_sealed(lines: &mut Lines, sealed_part: &[u8]) -> Result<(), SealedFault>
    requires room { 64 ≤ length sealed_part.now
        → array_vec_len lines.old + length sealed_part.now + 20 ≤ LINES_ROOM }
    ensures lines { OnOk result
        (lines.new.items ≡ lines.old.items ++ sealed_lines sealed_part.now) }
    ensures is { OnOk result (IsSealedPart sealed_part.now × AllPass is_hex_digit sealed_part.now) }
    ensures fault { IfErr result (IsSealedFault sealed_part.now) }
{
    if sealed_part.len() < 64 || sealed_part.len() % 16 != 0 {
        return Err(SealedFault::Length);
    }
    let place = first_no_digit(sealed_part);
    if place < sealed_part.len() {
        return Err(SealedFault::Digit(place));
    }
    let (ciphertext, mac) = sealed_part.split_at(sealed_part.len() - MAC);
    push_text_line(lines, b"ciphertext", ciphertext);
    push_text_line(lines, b"mac", mac);
    Ok(())
}

/// Appends the line of a field, as it stands and in words.
fn push_worded(lines: &mut Lines, name: &[u8], value: &[u8], words: &str)
    requires words { length words.now ≤ MOST_NAME }
    requires room { array_vec_len lines.old + length name.now + length value.now + 90 ≤ LINES_ROOM }
    ensures line { lines.new.items ≡ lines.old.items ++ worded_line name.now value.now words.now }
    ensures len { array_vec_len lines.new
        ≤ array_vec_len lines.old + length name.now + length value.now + 90 }
{
    push_text(lines, name);
    push_text(lines, b" ");
    push_text(lines, value);
    push_text(lines, b" ");
    push_text(lines, words.as_bytes());
    push_end(lines);
}

/// Appends the lines of a header's fields.
fn push_header(lines: &mut Lines, header: &Header)
    requires room { array_vec_len lines.old + 420 ≤ LINES_ROOM }
    ensures lines { lines.new.items ≡ lines.old.items ++ header_lines header.now }
    ensures len { array_vec_len lines.new ≤ array_vec_len lines.old + 420 }
{
    push_worded(lines, b"usage", &header.usage, usage_name(header.usage));
    push_worded(
        lines,
        b"algorithm",
        &[header.algorithm],
        algorithm_name(header.algorithm),
    );
    push_worded(lines, b"mode", &[header.mode], mode_name(header.mode));
    push_text_line(lines, b"key-version", &header.version);
    let words = exportability_name(header.exportability);
    push_worded(lines, b"exportability", &[header.exportability], words);
}
