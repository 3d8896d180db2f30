//! The command `mac`: the MAC of a text.

ghost use Rattle.std.specs.Prelude.{◌≡◌, true, false, ℕ, List, IfErr, IfOk, MatchBool, codes};
ghost use Rattle.duk_commands.specs.Lines.{named_line};
ghost use Rattle.duk_commands.specs.Mac.{IsMacKey, IsMacOf, IsMacRefused, IsMacText, mac_arguments};
ghost use Rattle.duk_commands.specs.inner.Mac.{IsMessageRefused};
ghost use Rattle.duk_mac.specs.Cmac.{cmac_of};
ghost use Rattle.duk_tdes.specs.KeyBytes.{bytes_of};

use crate::fault::Fault;
use crate::hexadecimal::decode;
use crate::lines::{Lines, push_line};
use duk_mac::{cmac, retail};
use duk_tdes::{Key, KeyBytes};
use std::alloc::Global;

/// The line of the MAC of a text: the retail MAC (ANSI X9.19), or with `by_cmac` the CMAC (NIST SP
/// 800-38B). The text is bytes, or with `hex` the digits that write them in hexadecimal.
///
/// The faults, in this order: `key refused` (not 32 digits, or 48 of a CMAC); `text refused` (no
/// pairs of digits with `hex`; without `by_cmac`, no byte at all). Memory may be refused where the
/// text is in hexadecimal.
pub fn mac_lines(
    alloc: Global,
    key: &str,
    text: &[u8],
    by_cmac: bool,
    hex: bool,
) -> Result<Lines, Fault>
    ensures lines { IfOk result
        (λ lines. IsMacText (mac_arguments key.now text.now by_cmac hex) lines.items) }
    ensures refused { IfErr result
        (IsMacRefused (mac_arguments key.now text.now by_cmac hex)) }
{
    if !hex {
        return line_under(key, text, by_cmac);
    }
    if !is_mac_key(key, by_cmac) {
        return Err(Fault::KeyRefused);
    }
    let message = decode(alloc, text, Fault::TextRefused)?;
    line_under(key, message.as_slice(), by_cmac)
}

/// Whether a text is the key of a MAC: 32 hexadecimal digits, or 32 or 48 of a CMAC.
fn is_mac_key(text: &str, by_cmac: bool) -> bool
    ensures { MatchBool result (IsMacKey by_cmac text.now) (¬ IsMacKey by_cmac text.now) }
{
    if by_cmac {
        KeyBytes::parse(text).is_some()
    } else {
        Key::<16>::parse(text).is_some()
    }
}

/// The line of a message's MAC under the key that a text writes.
fn line_under(key: &str, message: &[u8], by_cmac: bool) -> Result<Lines, Fault>
    ensures line { IfOk result (λ lines. (mac : List ℕ) × IsMacOf by_cmac key.now message.now mac
        × (lines.items ≡ named_line (codes "mac") mac)) }
    ensures refused { IfErr result (IsMessageRefused by_cmac key.now message.now) }
{
    if by_cmac {
        line_by_cmac(key, message)
    } else {
        line_by_retail(key, message)
    }
}

/// The line of a CMAC.
fn line_by_cmac(key: &str, message: &[u8]) -> Result<Lines, Fault>
    ensures line { IfOk result (λ lines. (mac : List ℕ) × IsMacOf true key.now message.now mac
        × (lines.items ≡ named_line (codes "mac") mac)) }
    ensures refused { IfErr result (IsMessageRefused true key.now message.now) }
{
    let key = KeyBytes::parse(key).ok_or(Fault::KeyRefused)?;
    Ok(line_of(cmac_under(&key, message)))
}

/// The CMAC of a message under a key of either length.
fn cmac_under(key: &KeyBytes, message: &[u8]) -> [u8; 8]
    ensures { result ≡ cmac_of (bytes_of key.now) message.now }
{
    match key {
        KeyBytes::Double(key) => cmac(key, message),
        KeyBytes::Triple(key) => cmac(key, message),
    }
}

/// The line of a retail MAC, which is that of one byte at least.
fn line_by_retail(key: &str, message: &[u8]) -> Result<Lines, Fault>
    ensures line { IfOk result (λ lines. (mac : List ℕ) × IsMacOf false key.now message.now mac
        × (lines.items ≡ named_line (codes "mac") mac)) }
    ensures refused { IfErr result (IsMessageRefused false key.now message.now) }
{
    let key = Key::<16>::parse(key).ok_or(Fault::KeyRefused)?;
    if message.is_empty() {
        return Err(Fault::TextRefused);
    }
    Ok(line_of(retail(&key, message)))
}

/// The line of a MAC.
fn line_of(mac: [u8; 8]) -> Lines
    ensures { result.items ≡ named_line (codes "mac") mac }
{
    let mut lines = Lines::new();
    push_line(&mut lines, b"mac", &mac);
    lines
}
