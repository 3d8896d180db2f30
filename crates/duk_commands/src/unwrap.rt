//! The command `unwrap`: the header fields and the key of a key block.

ghost use Rattle.std.specs.Prelude.{◌≡◌, IfOk, IfErr, OnOk};
ghost use Rattle.duk_block.specs.Faults.{IsFirstFault};
ghost use Rattle.duk_block.specs.KeyBlock.{Wraps};
ghost use Rattle.duk_tdes.specs.KeyBytes.{bytes_of};
ghost use Rattle.duk_commands.specs.Ready.{AreNotReady, AreReady, MeetsOfBlocks};
ghost use Rattle.duk_commands.specs.Unwrap.{IsUnwrapRefused, IsUnwrapText, unwrapped_lines};

use crate::fault::Fault;
use crate::lines::{Lines, push_line, push_text_line};
use duk_block::{BlockFault, Header, unwrap};
use duk_tdes::KeyBytes;

/// The lines of the header fields and the key of a key block (ANSI X9.143).
///
/// `kbpk` is to be the key block protection key, 32 or 48 hexadecimal digits of either case. The
/// faults, in this order: `KBPK refused`; the block's first of `Length`, `Version`, `HeaderField`,
/// `OptionalBlock`, `Hex`, `Mac` and `Payload`.
pub fn unwrap_lines(kbpk: &str, block: &str) -> Result<Lines, Fault>
    ensures lines { IfOk result (λ lines. IsUnwrapText kbpk.now block.now lines.items) }
    ensures refused { IfErr result (IsUnwrapRefused kbpk.now block.now) }
{
    let kbpk = KeyBytes::parse(kbpk).ok_or(Fault::KbpkRefused)?;
    match unwrap_under(kbpk, block.as_bytes()) {
        Ok((header, key)) => Ok(lines_of(&header, key)),
        Err(fault) => Err(Fault::BlockRefused(fault)),
    }
}

/// Whether KBPK of a batch of key blocks can be used, before there is any item. The fault is `KBPK
/// refused`.
pub fn unwrap_ready(kbpk: &str) -> Result<(), Fault>
    ensures ready { OnOk result (AreReady (MeetsOfBlocks kbpk.now)) }
    ensures refused { IfErr result (AreNotReady (MeetsOfBlocks kbpk.now)) }
{
    KeyBytes::parse(kbpk).ok_or(Fault::KbpkRefused)?;
    Ok(())
}

/// The header and the key of a key block under a protection key of either length.
fn unwrap_under(kbpk: KeyBytes, text: &[u8]) -> Result<(Header, KeyBytes), BlockFault>
    ensures found { IfOk result
        (λ found. Wraps (bytes_of kbpk) text.now found.0 (bytes_of found.1)) }
    ensures refused { IfErr result (IsFirstFault text.now (bytes_of kbpk)) }
{
    match kbpk {
        KeyBytes::Double(kbpk) => unwrap(&kbpk, text),
        KeyBytes::Triple(kbpk) => unwrap(&kbpk, text),
    }
}

/// The lines of the header's fields and of the key.
fn lines_of(header: &Header, key: KeyBytes) -> Lines
    ensures { result.items ≡ unwrapped_lines header.now (bytes_of key) }
{
    let mut lines = Lines::new();
    push_text_line(&mut lines, b"fields", &header.fields());
    match key {
        KeyBytes::Double(key) => push_line(&mut lines, b"key", &key.bytes()),
        KeyBytes::Triple(key) => push_line(&mut lines, b"key", &key.bytes()),
    }
    lines
}
