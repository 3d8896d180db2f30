//! The registers of a terminal, each call from image to image (ANSI X9.24-1:2009 annex A).
//!
//! An image has 431 bytes. One of 350 bytes, of version 1, is read too, and not written.

ghost use Rattle.std.specs.Prelude.{◌≡◌, ◌≤◌, MatchOption, length};
ghost use Rattle.duk_regs.specs.Image.{IsImage, set_in};
ghost use Rattle.duk_calls.specs.Registers.{RegistersAtAnswers, RegistersLoadAnswers, RegistersNextAnswers, RegistersNumberAnswers, RegistersReloadAnswers, Stores, next_parts};

use crate::arguments::{double_key, initial_number, serial_number, write_front};
use crate::fault::Fault;
use duk_regs::{Registers, ReloadFault};

/// The bytes of an image that is written.
const IMAGE_LENGTH: usize = 431;

/// Writes the image of a terminal that has used no number yet, from its initial key (16 bytes) and
/// its initial key serial number (10 bytes), in the front of a slice of at least 431 bytes.
///
/// Refused with, in this order: `Length`; `NotInitial`.
pub fn registers_load(initial: &[u8], iksn: &[u8], image: &mut [u8]) -> Result<(), Fault>
    ensures { RegistersLoadAnswers initial.now iksn.now image.old image.new result }
{
    if [initial.len(), iksn.len()] != [16, 10] || image.len() < IMAGE_LENGTH {
        return Err(Fault::Length);
    }
    let Some(iksn) = initial_number(iksn) else {
        return Err(Fault::NotInitial);
    };
    let registers = Registers::load(double_key(initial), iksn);
    store(&registers, image);
    Ok(())
}

/// Writes the image of a terminal whose next key serial number is this one (10 bytes), from its
/// initial key (16 bytes), in the front of a slice of at least 431 bytes: what `registers_load` and
/// then `registers_next` for each number before it leave.
///
/// Refused with, in this order: `Length`; `NotUsable`.
pub fn registers_at(initial: &[u8], ksn: &[u8], image: &mut [u8]) -> Result<(), Fault>
    ensures { RegistersAtAnswers initial.now ksn.now image.old image.new result }
{
    if [initial.len(), ksn.len()] != [16, 10] || image.len() < IMAGE_LENGTH {
        return Err(Fault::Length);
    }
    let initial = double_key(initial);
    let Some(registers) = Registers::at(&initial, serial_number(ksn)) else {
        return Err(Fault::NotUsable);
    };
    store(&registers, image);
    Ok(())
}

/// Writes the key serial number that a terminal with this image uses next in the front of a slice
/// of at least 10 bytes.
///
/// Refused with, in this order: `Length`; `NotAnImage`; `Spent`.
pub fn registers_number(image: &[u8], ksn: &mut [u8]) -> Result<(), Fault>
    ensures { RegistersNumberAnswers image.now ksn.old ksn.new result }
{
    if ksn.len() < 10 {
        return Err(Fault::Length);
    }
    let Some(registers) = stored_in(image) else {
        return Err(Fault::NotAnImage);
    };
    let Some(next) = registers.ksn() else {
        return Err(Fault::Spent);
    };
    write_front(&next.bytes(), ksn);
    Ok(())
}

/// Uses the next number of a terminal with this image: writes the image afterwards (at least 431
/// bytes), the transaction key (at least 16) and the key serial number (at least 10), each in the
/// front of a slice.
///
/// The next image is to be stored before the key is used, so that no stop brings the key back.
///
/// Refused with, in this order: `Length`; `NotAnImage`; `Spent`.
pub fn registers_next(
    image: &[u8],
    next_image: &mut [u8],
    key: &mut [u8],
    ksn: &mut [u8],
) -> Result<(), Fault>
    ensures { RegistersNextAnswers image.now (next_parts next_image.old key.old ksn.old)
        (next_parts next_image.new key.new ksn.new) result }
{
    if next_image.len() < IMAGE_LENGTH || key.len() < 16 || ksn.len() < 10 {
        return Err(Fault::Length);
    }
    let Some(mut registers) = stored_in(image) else {
        return Err(Fault::NotAnImage);
    };
    let Some((next_key, next_ksn)) = registers.use_next() else {
        return Err(Fault::Spent);
    };
    store(&registers, next_image);
    write_front(&next_key.bytes(), key);
    write_front(&next_ksn.bytes(), ksn);
    Ok(())
}

/// Writes the image of the terminal with this image after it is given another initial key (16
/// bytes) under another initial key serial number (10 bytes), in the front of a slice of at least
/// 431 bytes.
///
/// Refused with, in this order: `Length`; `NotInitial`; `NotAnImage`; `IksnSpent`; `LoadsSpent`.
pub fn registers_reload(
    image: &[u8],
    initial: &[u8],
    iksn: &[u8],
    next_image: &mut [u8],
) -> Result<(), Fault>
    ensures { RegistersReloadAnswers image.now initial.now iksn.now next_image.old next_image.new
        result }
{
    if [initial.len(), iksn.len()] != [16, 10] || next_image.len() < IMAGE_LENGTH {
        return Err(Fault::Length);
    }
    let Some(iksn) = initial_number(iksn) else {
        return Err(Fault::NotInitial);
    };
    let Some(registers) = stored_in(image) else {
        return Err(Fault::NotAnImage);
    };
    match registers.reload(double_key(initial), iksn) {
        Ok(reloaded) => {
            store(&reloaded, next_image);
            Ok(())
        }
        Err(ReloadFault::IksnSpent) => Err(Fault::IksnSpent),
        Err(ReloadFault::LoadsSpent) => Err(Fault::LoadsSpent),
    }
}

/// The registers of a terminal with this image.
fn stored_in(image: &[u8]) -> Option<Registers>
    ensures { MatchOption result (¬ IsImage image.now)
        (λ registers. IsImage image.now × (registers ≡ set_in image.now)) }
{
    Registers::from_image(image)
}

/// Writes the image of a terminal with these registers in the front of a slice.
fn store(registers: &Registers, image: &mut [u8])
    requires { IMAGE_LENGTH ≤ length image.old }
    ensures { Stores registers.now image.old image.new }
{
    write_front(&registers.image(), image);
}
