//! The command `pin`: the PIN block of a PIN and a PAN.

ghost use Rattle.std.specs.Prelude.{◌≡◌, ℕ, List, Option, IfOk, IfErr, MatchResult, OnOk};
ghost use Rattle.std.specs.Option.{option_copied};
ghost use Rattle.duk_commands.specs.Pin.{IsKeyArgument, IsPinRefused, IsPinText, block_lines};
ghost use Rattle.duk_commands.specs.Ready.{AreNotReady, AreReady, MeetsOfPans, MeetsOfPins};

use crate::fault::Fault;
use crate::lines::{Lines, push_line};
use duk_pin::{Pan, Pin, encode};
use duk_tdes::{Key, tdes_encrypt};

/// The lines of the PIN block of a PIN and a PAN (ISO 9564-1 format 0) and, where a key is given, of
/// the block enciphered under it.
///
/// `key` is to be 32 hexadecimal digits of either case. The faults, in this order: that of the PIN
/// (`PinLength`, `PinDigit`), that of the PAN (`PanLength`, `PanDigit`), `key refused`.
pub fn pin_lines(pin: &str, pan: &str, key: Option<&str>) -> Result<Lines, Fault>
    ensures lines { IfOk result
        (λ lines. IsPinText pin.now pan.now (option_copied key.entry) lines.items) }
    ensures refused { IfErr result (IsPinRefused pin.now pan.now (option_copied key.entry)) }
{
    let pin = Pin::parse(pin).map_err(Fault::PinRefused)?;
    let pan = Pan::parse(pan).map_err(Fault::PinRefused)?;
    let key = read_key_argument(key)?;
    Ok(block_lines(&pin, &pan, key))
}

/// Whether PAN and, where it is given, KEY of a batch of PINs can be used, before there is any item.
/// The faults, in this order: that of the PAN (`PanLength`, `PanDigit`), `key refused`.
pub fn pins_ready(pan: &str, key: Option<&str>) -> Result<(), Fault>
    ensures ready { OnOk result (AreReady (MeetsOfPins pan.now (option_copied key.entry))) }
    ensures refused { IfErr result
        (AreNotReady (MeetsOfPins pan.now (option_copied key.entry))) }
{
    Pan::parse(pan).map_err(Fault::PinRefused)?;
    read_key_argument(key)?;
    Ok(())
}

/// Whether PIN and, where it is given, KEY of a batch of PANs can be used, before there is any item.
/// The faults, in this order: that of the PIN (`PinLength`, `PinDigit`), `key refused`.
pub fn pans_ready(pin: &str, key: Option<&str>) -> Result<(), Fault>
    ensures ready { OnOk result (AreReady (MeetsOfPans pin.now (option_copied key.entry))) }
    ensures refused { IfErr result
        (AreNotReady (MeetsOfPans pin.now (option_copied key.entry))) }
{
    Pin::parse(pin).map_err(Fault::PinRefused)?;
    read_key_argument(key)?;
    Ok(())
}

/// The key of `--key`, where it is given.
fn read_key_argument(argument: Option<&str>) -> Result<Option<Key<16>>, Fault>
    ensures { MatchResult result (IsKeyArgument (option_copied argument.entry))
        (λ why. (why ≡ Fault.KeyRefused)
        × ((key : Option (List ℕ)) → ¬ IsKeyArgument (option_copied argument.entry) key)) }
{
    match argument {
        None => Ok(None),
        Some(text) => match Key::<16>::parse(text) {
            None => Err(Fault::KeyRefused),
            Some(key) => Ok(Some(key)),
        },
    }
}

/// The lines of a PIN block, and of the block enciphered where a key is given.
fn block_lines(pin: &Pin, pan: &Pan, key: Option<Key<16>>) -> Lines
    ensures { result.items ≡ block_lines pin.now pan.now key }
{
    let block = encode(pin, pan);
    let mut lines = Lines::new();
    push_line(&mut lines, b"block", &block);
    if let Some(key) = key {
        push_line(&mut lines, b"enciphered", &tdes_encrypt(&key, block));
    }
    lines
}
