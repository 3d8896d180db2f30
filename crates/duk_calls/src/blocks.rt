//! Key blocks (ANSI X9.143, version B).

ghost use Rattle.std.specs.Prelude.{◌≡◌, ◌≤◌, IfErr, IfOk, length};
ghost use Rattle.duk_block.specs.Faults.{IsFirstFault};
ghost use Rattle.duk_block.specs.KeyBlock.{Wraps};
ghost use Rattle.duk_tdes.specs.KeyBytes.{bytes_of};
ghost use Rattle.duk_tdes.specs.Tdes.{IsTdesLength};
ghost use Rattle.duk_calls.specs.Answer.{buffer, with_front};
ghost use Rattle.duk_calls.specs.Blocks.{IsNotWrapped, IsWrapped, UnwrapAnswers, UnwrapForAnswers, WrapAnswers, unwrapped, wanting, wrapping};

use crate::arguments::{fill, tdes_key, write_front};
use crate::fault::Fault;
use duk_block::{BlockFault, BlockText, Header};
use duk_tdes::{Key, KeyBytes, array_of};

/// The characters that a key block has room for.
pub(crate) const TEXT_ROOM: usize = 512;

/// The bytes that a key has room for.
const KEY_ROOM: usize = 24;

/// The algorithm of TDES keys.
const TDES: u8 = b'T';

/// Writes the key block of a key (16 or 24 bytes) under the key block protection key (16 or 24
/// bytes) in the front of a slice of at least 512 bytes, and the number of its characters. `header`
/// is usage, algorithm, mode, version and exportability, 7 characters; `padding` stands after the
/// key.
///
/// Refused with, in this order: `Length`; `BlockHeaderField`, where a character of the header
/// cannot be printed; `BlockPadLength`, where the payload would not be made of whole blocks, or the
/// text would be longer than 512 characters.
pub fn wrap(
    kbpk: &[u8],
    header: &[u8],
    key: &[u8],
    padding: &[u8],
    text: &mut [u8],
    text_length: &mut u32,
) -> Result<(), Fault>
    ensures { WrapAnswers (wrapping kbpk.now header.now key.now padding.now)
        (buffer text.old text_length.old) (buffer text.new text_length.new) result }
{
    let kbpk = tdes_key(kbpk).ok_or(Fault::Length)?;
    let key = tdes_key(key).ok_or(Fault::Length)?;
    if header.len() != 7 || text.len() < TEXT_ROOM {
        return Err(Fault::Length);
    }
    let header = Header::from_fields(array_of(header));
    match wrap_under(&kbpk, &header, &key, padding) {
        Ok(block) => {
            fill(block.as_slice(), text, text_length);
            Ok(())
        }
        Err(fault) => Err(Fault::Block(fault)),
    }
}

/// Writes the header of a key block under the key block protection key (16 or 24 bytes) in the
/// front of a slice of at least 7 bytes, its key in the front of one of at least 24, and the number
/// of the key's bytes, 16 or 24.
///
/// Refused with, in this order: `Length`; the block's first of `BlockLength`, `BlockVersion`,
/// `BlockHeaderField`, `BlockOptionalBlock`, `BlockHex`, `BlockMac` and `BlockPayload`.
pub fn unwrap(
    kbpk: &[u8],
    text: &[u8],
    header: &mut [u8],
    key: &mut [u8],
    key_length: &mut u32,
) -> Result<(), Fault>
    ensures { UnwrapAnswers kbpk.now text.now
        (unwrapped header.old (buffer key.old key_length.old))
        (unwrapped header.new (buffer key.new key_length.new)) result }
{
    let kbpk = tdes_key(kbpk).ok_or(Fault::Length)?;
    if header.len() < 7 || key.len() < KEY_ROOM {
        return Err(Fault::Length);
    }
    match unwrap_under(&kbpk, text) {
        Ok((found, found_key)) => {
            write_front(&found.fields(), header);
            write_key(&found_key, key);
            *key_length = length_of(&found_key);
            Ok(())
        }
        Err(fault) => Err(Fault::Block(fault)),
    }
}

/// Writes the key of a key block under the key block protection key (16 or 24 bytes) in the front
/// of a slice of at least 24 bytes, where the block has this key usage (2 characters), its key is
/// of algorithm `T` (TDES), and has as many bytes as are wanted, 16 or 24. The mode of use is not
/// compared: `unwrap` writes it.
///
/// Refused with, in this order: `Length`, also where another number of bytes is wanted; the block's
/// first fault, as by `unwrap`; `OtherUsage`, also for another algorithm; `OtherKeyLength`.
pub fn unwrap_for(
    kbpk: &[u8],
    usage: &[u8],
    wanted: u32,
    text: &[u8],
    key: &mut [u8],
) -> Result<(), Fault>
    ensures { UnwrapForAnswers (wanting kbpk.now usage.now wanted text.now) key.old key.new result }
{
    let kbpk = tdes_key(kbpk).ok_or(Fault::Length)?;
    if usage.len() != 2 || ![16, 24].contains(&wanted) || key.len() < KEY_ROOM {
        return Err(Fault::Length);
    }
    let (header, found) = match unwrap_under(&kbpk, text) {
        Ok(found) => found,
        Err(fault) => return Err(Fault::Block(fault)),
    };
    if header.usage.as_slice() != usage || header.algorithm != TDES {
        return Err(Fault::OtherUsage);
    }
    if length_of(&found) != wanted {
        return Err(Fault::OtherKeyLength);
    }
    write_key(&found, key);
    Ok(())
}

/// The key block of a key under a protection key, each of either length.
fn wrap_under(
    kbpk: &KeyBytes,
    header: &Header,
    key: &KeyBytes,
    padding: &[u8],
) -> Result<BlockText, BlockFault>
    ensures block { IfOk result (λ text.
        IsWrapped (bytes_of kbpk.now) header.now (bytes_of key.now) padding.now text.items) }
    ensures refused { IfErr result
        (IsNotWrapped header.now (length (bytes_of key.now)) (length padding.now)) }
{
    match kbpk {
        KeyBytes::Double(kbpk) => wrap_either(kbpk, header, key, padding),
        KeyBytes::Triple(kbpk) => wrap_either(kbpk, header, key, padding),
    }
}

/// The key block of a key of either length.
fn wrap_either<const N: usize>(
    kbpk: &Key<N>,
    header: &Header,
    key: &KeyBytes,
    padding: &[u8],
) -> Result<BlockText, BlockFault>
    requires { IsTdesLength N }
    ensures block { IfOk result (λ text.
        IsWrapped kbpk.now header.now (bytes_of key.now) padding.now text.items) }
    ensures refused { IfErr result
        (IsNotWrapped header.now (length (bytes_of key.now)) (length padding.now)) }
{
    match key {
        KeyBytes::Double(key) => wrap_key(kbpk, header, key, padding),
        KeyBytes::Triple(key) => wrap_key(kbpk, header, key, padding),
    }
}

/// The key block of a key.
fn wrap_key<const N: usize, const M: usize>(
    kbpk: &Key<N>,
    header: &Header,
    key: &Key<M>,
    padding: &[u8],
) -> Result<BlockText, BlockFault>
    requires kbpk { IsTdesLength N }
    requires key { IsTdesLength M }
    ensures block { IfOk result (λ text.
        IsWrapped kbpk.now header.now key.now padding.now text.items) }
    ensures refused { IfErr result
        (IsNotWrapped header.now (length key.now) (length padding.now)) }
{
    duk_tdes::laws::tdes_key(key);
    duk_block::wrap(kbpk, header, key, padding)
}

/// The header and the key of a key block under a protection key of either length.
fn unwrap_under(kbpk: &KeyBytes, text: &[u8]) -> Result<(Header, KeyBytes), BlockFault>
    ensures found { IfOk result
        (λ found. Wraps (bytes_of kbpk.now) text.now found.0 (bytes_of found.1)) }
    ensures refused { IfErr result (IsFirstFault text.now (bytes_of kbpk.now)) }
{
    match kbpk {
        KeyBytes::Double(kbpk) => duk_block::unwrap(kbpk, text),
        KeyBytes::Triple(kbpk) => duk_block::unwrap(kbpk, text),
    }
}

/// The number of a key's bytes.
fn length_of(key: &KeyBytes) -> u32
    ensures { result ≡ length (bytes_of key.now) }
{
    match key {
        KeyBytes::Double(key) => key.bytes().len() as u32,
        KeyBytes::Triple(key) => key.bytes().len() as u32,
    }
}

/// Writes a key in the front of a slice with room for the longer one.
fn write_key(key: &KeyBytes, bytes: &mut [u8])
    requires { KEY_ROOM ≤ length bytes.old }
    ensures { bytes.new ≡ with_front (bytes_of key.now) bytes.old }
{
    match key {
        KeyBytes::Double(key) => write_front(&key.bytes(), bytes),
        KeyBytes::Triple(key) => write_front(&key.bytes(), bytes),
    }
}
