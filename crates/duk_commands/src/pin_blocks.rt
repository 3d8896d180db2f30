//! The commands over PIN blocks: `unpin` and `translate`.

ghost use Rattle.std.specs.Prelude.{◌≡◌, ℕ, List, Option, IfErr, IfOk, MatchResult, codes};
ghost use Rattle.std.specs.Option.{option_copied};
ghost use Rattle.duk_commands.specs.Lines.{named_line};
ghost use Rattle.duk_commands.specs.Pin.{IsKeyArgument};
ghost use Rattle.duk_commands.specs.declared.fault.Fault.TheVariants.{KeyRefused};
ghost use Rattle.duk_tdes.specs.KeyBytes.{bytes_of};
ghost use Rattle.duk_tdes.specs.Tdes.{tdes_encrypted};
ghost use Rattle.duk_commands.specs.PinBlocks.{IsTranslateRefused, IsTranslateText, IsUnpinRefused, IsUnpinText, block_of_text, clear_block, pin_line, translate_arguments, unpin_arguments};

use crate::fault::Fault;
use crate::key_argument::KeyArgument;
use crate::lines::{Lines, push_line, push_text_line};
use crate::start::read_start;
use duk_pin::{Pan, Pin, decode, encode};
use duk_tdes::{Key, KeyBytes, tdes_decrypt, tdes_encrypt};
use duk_tree::pin_key;
use hex::FromHex;

/// The line of a PIN block (ISO 9564-1 format 0), deciphered where a key is given: that it is one,
/// or with `show` its PIN.
///
/// The faults, in this order: `block refused` (not 16 digits); `PanLength`, `PanDigit`; `key
/// refused`; `NotAPinBlock`.
pub fn unpin_lines(block: &str, pan: &str, key: Option<&str>, show: bool) -> Result<Lines, Fault>
    ensures lines { IfOk result (λ lines. IsUnpinText
        (unpin_arguments block.now pan.now (option_copied key.entry) show) lines.items) }
    ensures refused { IfErr result (IsUnpinRefused
        (unpin_arguments block.now pan.now (option_copied key.entry) show)) }
{
    let block = read_block(block).ok_or(Fault::PinBlockRefused)?;
    let pan = Pan::parse(pan).map_err(Fault::PinRefused)?;
    let key = read_key_argument(key)?;
    let pin = decode(in_clear(key, block), &pan).ok_or(Fault::NotAPinBlock)?;
    Ok(line_of_pin(&pin, show))
}

/// The block that 16 hexadecimal digits write.
pub(crate) fn read_block(text: &str) -> Option<[u8; 8]>
    ensures { result ≡ block_of_text text.now }
{
    <[u8; 8] as FromHex>::from_hex(text).ok()
}

/// The key of `--key`, where it is given.
fn read_key_argument(argument: Option<&str>) -> Result<Option<Key<16>>, Fault>
    ensures { MatchResult result (IsKeyArgument (option_copied argument.entry))
        (λ why. (why ≡ KeyRefused)
        × ((key : Option (List ℕ)) → ¬ IsKeyArgument (option_copied argument.entry) key)) }
{
    match argument {
        None => Ok(None),
        Some(text) => match Key::<16>::parse(text) {
            None => Err(Fault::KeyRefused),
            Some(key) => Ok(Some(key)),
        },
    }
}

/// The block, deciphered where a key is given.
fn in_clear(key: Option<Key<16>>, block: [u8; 8]) -> [u8; 8]
    ensures { result ≡ clear_block key block }
{
    match key {
        None => block,
        Some(key) => tdes_decrypt(&key, block),
    }
}

/// The line of a PIN block with this PIN.
fn line_of_pin(pin: &Pin, show: bool) -> Lines
    ensures { result.items ≡ pin_line show pin.now }
{
    let mut lines = Lines::new();
    if show {
        push_text_line(&mut lines, b"pin", pin.digits().as_bytes());
    } else {
        push_text_line(&mut lines, b"block", b"valid");
    }
    lines
}

/// The line of a PIN block that is enciphered under the PIN key of a number, enciphered anew under
/// a zone key: it is deciphered, its PIN is read with the PAN and encoded again.
///
/// The faults, in this order: `block refused` (not 16 digits); `PanLength`, `PanDigit`; `BDK
/// refused`, or `initial refused` of an initial key; `KSN refused`; `counter refused`; `zone
/// refused` (not 32 or 48 digits); `NotAPinBlock`.
pub fn translate_lines(
    block: &str,
    pan: &str,
    given: KeyArgument<'_>,
    ksn: &str,
    zone: &str,
) -> Result<Lines, Fault>
    ensures lines { IfOk result (λ lines. IsTranslateText
        (translate_arguments block.now pan.now given.entry ksn.now zone.now) lines.items) }
    ensures refused { IfErr result (IsTranslateRefused
        (translate_arguments block.now pan.now given.entry ksn.now zone.now)) }
{
    let block = read_block(block).ok_or(Fault::PinBlockRefused)?;
    let pan = Pan::parse(pan).map_err(Fault::PinRefused)?;
    let start = read_start(given, ksn)?;
    let zone = KeyBytes::parse(zone).ok_or(Fault::ZoneRefused)?;
    let clear = tdes_decrypt(&pin_key(&start.key()), block);
    let pin = decode(clear, &pan).ok_or(Fault::NotAPinBlock)?;
    Ok(line_of_translated(&zone, encode(&pin, &pan)))
}

/// The line of a block, enciphered under a zone key.
fn line_of_translated(zone: &KeyBytes, block: [u8; 8]) -> Lines
    ensures { result.items
        ≡ named_line (codes "translated") (tdes_encrypted (bytes_of zone.now) block) }
{
    let enciphered = match zone {
        KeyBytes::Double(zone) => tdes_encrypt(zone, block),
        KeyBytes::Triple(zone) => tdes_encrypt(zone, block),
    };
    let mut lines = Lines::new();
    push_line(&mut lines, b"translated", &enciphered);
    lines
}
