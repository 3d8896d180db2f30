//! Optional blocks of key blocks (ANSI X9.143, version B).

ghost use Rattle.std.specs.Prelude.{◌≡◌, ◌≤◌, IfErr, IfOk, MatchOption, length};
ghost use Rattle.duk_block.specs.Faults.{IsFirstFault};
ghost use Rattle.duk_tdes.specs.KeyBytes.{bytes_of};
ghost use Rattle.duk_tdes.specs.Tdes.{IsTdesLength};
ghost use Rattle.duk_calls.specs.Answer.{buffer};
ghost use Rattle.duk_calls.specs.Blocks.{HasNoOptional, IsNotWrappedWith, IsOptionalContent, IsWrappedWith, UnwrapOptionalAnswers, WrapWithAnswers, wrapping_with};

use crate::arguments::{fill, tdes_key};
use crate::blocks::TEXT_ROOM;
use crate::fault::Fault;
use duk_block::{BlockFault, BlockText, Header};
use duk_tdes::{Key, KeyBytes, array_of};

/// The characters that a content has room for: an optional block has at most 255, four of them in
/// front of its content.
const CONTENT_ROOM: usize = 251;

/// Writes the key block of a key as `wrap` does, with optional blocks: they are given one after
/// another as they stand in the text, each an id of two characters, its length in two hexadecimal
/// digits and its content, and have a multiple of 8 characters in all.
///
/// Refused with, in this order: `Length`; `BlockHeaderField`, where a character of the header
/// cannot be printed; `BlockOptionalBlock`, where the optional blocks are no such text, more than
/// 99, or have a character that cannot be printed; `BlockPadLength`, where the payload would not be
/// made of whole blocks, or the text would be longer than 512 characters.
pub fn wrap_with(
    kbpk: &[u8],
    header: &[u8],
    optional: &[u8],
    key: &[u8],
    padding: &[u8],
    text: &mut [u8],
    text_length: &mut u32,
) -> Result<(), Fault>
    ensures { WrapWithAnswers (wrapping_with kbpk.now header.now optional.now key.now padding.now)
        (buffer text.old text_length.old) (buffer text.new text_length.new) result }
{
    let kbpk = tdes_key(kbpk).ok_or(Fault::Length)?;
    let key = tdes_key(key).ok_or(Fault::Length)?;
    if header.len() != 7 || text.len() < TEXT_ROOM {
        return Err(Fault::Length);
    }
    let header = Header::from_fields(array_of(header));
    match wrap_under(&kbpk, &header, optional, &key, padding) {
        Ok(block) => {
            fill(block.as_slice(), text, text_length);
            Ok(())
        }
        Err(fault) => Err(Fault::Block(fault)),
    }
}

/// Writes the content of the first optional block with an id (2 characters) of a key block under
/// the key block protection key (16 or 24 bytes) in the front of a slice of at least 251 bytes, and
/// the number of its characters. The block's MAC is compared first, as by `unwrap`.
///
/// Refused with, in this order: `Length`; the block's first fault, as by `unwrap`;
/// `NoOptionalBlock`, where no optional block has this id.
pub fn unwrap_optional(
    kbpk: &[u8],
    text: &[u8],
    id: &[u8],
    content: &mut [u8],
    content_length: &mut u32,
) -> Result<(), Fault>
    ensures { UnwrapOptionalAnswers kbpk.now text.now id.now
        (buffer content.old content_length.old) (buffer content.new content_length.new) result }
{
    let kbpk = tdes_key(kbpk).ok_or(Fault::Length)?;
    if id.len() != 2 || content.len() < CONTENT_ROOM {
        return Err(Fault::Length);
    }
    match content_under(&kbpk, text, array_of(id)) {
        Ok(Some(found)) => {
            fill(found, content, content_length);
            Ok(())
        }
        Ok(None) => Err(Fault::NoOptionalBlock),
        Err(fault) => Err(Fault::Block(fault)),
    }
}

/// The key block of a key under a protection key, each of either length.
fn wrap_under(
    kbpk: &KeyBytes,
    header: &Header,
    optional: &[u8],
    key: &KeyBytes,
    padding: &[u8],
) -> Result<BlockText, BlockFault>
    ensures block { IfOk result (λ text. IsWrappedWith
        (bytes_of kbpk.now) header.now optional.now (bytes_of key.now) padding.now text.items) }
    ensures refused { IfErr result (IsNotWrappedWith
        header.now optional.now (length (bytes_of key.now)) (length padding.now)) }
{
    match kbpk {
        KeyBytes::Double(kbpk) => wrap_either(kbpk, header, optional, key, padding),
        KeyBytes::Triple(kbpk) => wrap_either(kbpk, header, optional, key, padding),
    }
}

/// The key block of a key of either length.
fn wrap_either<const N: usize>(
    kbpk: &Key<N>,
    header: &Header,
    optional: &[u8],
    key: &KeyBytes,
    padding: &[u8],
) -> Result<BlockText, BlockFault>
    requires { IsTdesLength N }
    ensures block { IfOk result (λ text. IsWrappedWith
        kbpk.now header.now optional.now (bytes_of key.now) padding.now text.items) }
    ensures refused { IfErr result (IsNotWrappedWith
        header.now optional.now (length (bytes_of key.now)) (length padding.now)) }
{
    match key {
        KeyBytes::Double(key) => wrap_key(kbpk, header, optional, key, padding),
        KeyBytes::Triple(key) => wrap_key(kbpk, header, optional, key, padding),
    }
}

/// The key block of a key.
fn wrap_key<const N: usize, const M: usize>(
    kbpk: &Key<N>,
    header: &Header,
    optional: &[u8],
    key: &Key<M>,
    padding: &[u8],
) -> Result<BlockText, BlockFault>
    requires kbpk { IsTdesLength N }
    requires key { IsTdesLength M }
    ensures block { IfOk result (λ text. IsWrappedWith
        kbpk.now header.now optional.now key.now padding.now text.items) }
    ensures refused { IfErr result (IsNotWrappedWith
        header.now optional.now (length key.now) (length padding.now)) }
{
    duk_tdes::laws::tdes_key(key);
    duk_block::wrap_with(kbpk, header, optional, key, padding)
}

/// The content of the first optional block with this id, under a protection key of either length.
fn content_under<'a>(
    kbpk: &KeyBytes,
    text: &'a [u8],
    id: [u8; 2],
) -> Result<Option<&'a [u8]>, BlockFault>
    ensures found { IfOk result (λ found.
        MatchOption found (HasNoOptional (bytes_of kbpk.now) text.now id)
        (λ content. IsOptionalContent (bytes_of kbpk.now) text.now id content.now
        × (length content.now ≤ CONTENT_ROOM))) }
    ensures refused { IfErr result (IsFirstFault text.now (bytes_of kbpk.now)) }
{
    match kbpk {
        KeyBytes::Double(kbpk) => content_of(kbpk, text, id),
        KeyBytes::Triple(kbpk) => content_of(kbpk, text, id),
    }
}

/// The content of the first optional block with this id.
fn content_of<'a, const N: usize>(
    kbpk: &Key<N>,
    text: &'a [u8],
    id: [u8; 2],
) -> Result<Option<&'a [u8]>, BlockFault>
    requires { IsTdesLength N }
    ensures found { IfOk result (λ found.
        MatchOption found (HasNoOptional kbpk.now text.now id)
        (λ content. IsOptionalContent kbpk.now text.now id content.now
        × (length content.now ≤ CONTENT_ROOM))) }
    ensures refused { IfErr result (IsFirstFault text.now kbpk.now) }
{
    duk_block::laws::contents_fit();
    duk_block::unwrap_optional(kbpk, text, id)
}
