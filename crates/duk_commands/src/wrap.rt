//! The command `wrap`: the key block of a key.

ghost use Rattle.std.specs.Prelude.{◌≡◌, ◌≢◌, ◌++◌, ◌≤◌, ℕ, List, IfOk, IfErr, MatchBool, MatchOption, length};
ghost use Rattle.duk_block.specs.Hexadecimal.{IsHexadecimal};
ghost use Rattle.duk_block.specs.KeyBlock.{FitsKeyBlock, IsWithinLimits, IsWrittenKeyBlock};
ghost use Rattle.duk_tdes.specs.KeyBytes.{bytes_of};
ghost use Rattle.duk_tdes.specs.Tdes.{IsTdesLength};
ghost use Rattle.duk_commands.specs.Fault.{line_end};
ghost use Rattle.duk_commands.specs.Wrap.{IsFieldsText, IsWrapRefused, IsWrapText, IsWrapping, wrap_arguments};
ghost use Rattle.duk_commands.specs.inner.Wrap.{IsWrapFault, wrapping};

use crate::fault::Fault;
use crate::lines::{Lines, push_end, push_text};
use arrayvec::ArrayVec;
use duk_block::{BlockFault, BlockText, Header, wrap};
use duk_tdes::{Key, KeyBytes, array_of};

/// The most bytes that the payload of a key block of 512 characters has: longer padding fits none.
const MOST_PADDING: usize = 240;

/// The line of the key block (ANSI X9.143) of a key.
///
/// `kbpk` is to be the key block protection key and `key` the key, each 32 or 48 hexadecimal digits
/// of either case; `fields` the usage, algorithm, mode, version and exportability; `pad` the
/// padding in hexadecimal. The faults, in this order: `KBPK refused`, `fields refused` (not 7
/// bytes), `key refused`, `pad refused`, then `HeaderField` and `PadLength` of the block.
pub fn wrap_line(kbpk: &str, fields: &str, key: &str, pad: &str) -> Result<Lines, Fault>
    ensures line { IfOk result
        (λ lines. IsWrapText (wrap_arguments kbpk.now fields.now key.now pad.now) lines.items) }
    ensures refused { IfErr result
        (IsWrapRefused (wrap_arguments kbpk.now fields.now key.now pad.now)) }
{
    let kbpk = KeyBytes::parse(kbpk).ok_or(Fault::KbpkRefused)?;
    let header = read_fields(fields.as_bytes()).ok_or(Fault::FieldsRefused)?;
    let key = KeyBytes::parse(key).ok_or(Fault::KeyRefused)?;
    if !is_hexadecimal(pad) {
        return Err(Fault::PadRefused);
    }
    let Some(pad) = read_pad(pad) else {
        return Err(Fault::BlockRefused(long_pad_fault(&header)));
    };
    match wrap_under(kbpk, &header, key, pad.as_slice()) {
        Ok(text) => Ok(line_of(text.as_slice())),
        Err(fault) => Err(Fault::BlockRefused(fault)),
    }
}

/// The header whose fields are these seven bytes.
fn read_fields(text: &[u8]) -> Option<Header>
    ensures { MatchOption result (length text.now ≢ 7) (λ header. IsFieldsText text.now header) }
{
    if text.len() == 7 {
        Some(Header::from_fields(array_of(text)))
    } else {
        None
    }
}

/// Whether the text is zero or more pairs of hexadecimal digits of either case.
fn is_hexadecimal(text: &str) -> bool
    ensures { MatchBool result ((padding : List ℕ) × IsHexadecimal text.now padding)
        ((padding : List ℕ) → ¬ IsHexadecimal text.now padding) }
{
    text.len() % 2 == 0 && text.as_bytes().iter().all(u8::is_ascii_hexdigit)
}

/// The padding that a text writes in hexadecimal, if some key block has room for it.
fn read_pad(text: &str) -> Option<ArrayVec<u8, MOST_PADDING>>
    ensures { MatchOption result
        ((padding : List ℕ) (key : ℕ) → IsHexadecimal text.now padding
        → ¬ FitsKeyBlock key (length padding))
        (λ padding. IsHexadecimal text.now padding.items) }
{
    let size = text.len() / 2;
    if size > MOST_PADDING {
        return None;
    }
    let mut padding = ArrayVec::from([0; MOST_PADDING]);
    padding.truncate(size);
    hex::decode_to_slice(text, padding.as_mut_slice()).ok()?;
    Some(padding)
}

/// Why a key is not wrapped with padding that fits no key block: a field that cannot be printed is
/// reported first.
fn long_pad_fault(header: &Header) -> BlockFault
    ensures { (key padding : ℕ) → ¬ FitsKeyBlock key padding
        → IsWrapFault header.now key padding result }
{
    if header.is_printable() {
        BlockFault::PadLength
    } else {
        BlockFault::HeaderField
    }
}

/// The key block of a key under a protection key, each of either length.
fn wrap_under(
    kbpk: KeyBytes,
    header: &Header,
    key: KeyBytes,
    pad: &[u8],
) -> Result<BlockText, BlockFault>
    ensures block { IfOk result
        (λ text. IsWrapping (wrapping kbpk header.now key pad.now) text.items) }
    ensures refused { IfErr result
        (IsWrapFault header.now (length (bytes_of key)) (length pad.now)) }
{
    match kbpk {
        KeyBytes::Double(kbpk) => wrap_either(&kbpk, header, key, pad),
        KeyBytes::Triple(kbpk) => wrap_either(&kbpk, header, key, pad),
    }
}

/// The key block of a key of either length.
fn wrap_either<const N: usize>(
    kbpk: &Key<N>,
    header: &Header,
    key: KeyBytes,
    pad: &[u8],
) -> Result<BlockText, BlockFault>
    requires { IsTdesLength N }
    ensures limits { IfOk result (λ text. IsWithinLimits text.items) }
    ensures block { IfOk result
        (λ text. IsWrittenKeyBlock text.items kbpk.now header.now (bytes_of key) pad.now) }
    ensures refused { IfErr result
        (IsWrapFault header.now (length (bytes_of key)) (length pad.now)) }
{
    match key {
        KeyBytes::Double(key) => wrap_key(kbpk, header, &key, pad),
        KeyBytes::Triple(key) => wrap_key(kbpk, header, &key, pad),
    }
}

/// The key block of a key.
fn wrap_key<const N: usize, const M: usize>(
    kbpk: &Key<N>,
    header: &Header,
    key: &Key<M>,
    pad: &[u8],
) -> Result<BlockText, BlockFault>
    requires protection_key { IsTdesLength N }
    requires key { IsTdesLength M }
    ensures limits { IfOk result (λ text. IsWithinLimits text.items) }
    ensures block { IfOk result
        (λ text. IsWrittenKeyBlock text.items kbpk.now header.now key.now pad.now) }
    ensures refused { IfErr result
        (IsWrapFault header.now (length key.now) (length pad.now)) }
{
    duk_tdes::laws::tdes_key(key);
    wrap(kbpk, header, key, pad)
}

/// The line of a key block.
fn line_of(text: &[u8]) -> Lines
    requires { length text.now ≤ 512 }
    ensures { result.items ≡ text.now ++ line_end }
{
    let mut lines = Lines::new();
    push_text(&mut lines, text);
    push_end(&mut lines);
    lines
}
