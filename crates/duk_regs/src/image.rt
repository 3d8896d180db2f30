//! The bytes that a terminal stores.

ghost use Rattle.std.specs.Prelude.{◌≡◌, ◌↔◌, ◌⊎◌, ◌∷◌, ◌<◌, ◌≤◌, ◌^◌, [], ℕ, drop, length, slice_index, take, IsSome, IsTrue, IfSome};
ghost use Rattle.duk_tree.specs.Serial.{IsIksn};
ghost use Rattle.duk_regs.specs.Registers.{IsRegisterSet, register_at};
ghost use Rattle.duk_regs.specs.Image.{IsImage, counter_in, image_bytes, image_bytes_of_version_1, present_bytes, registers_in, serial_in, set_in};
ghost use Rattle.duk_regs.specs.inner.ImageParts.{HasImageParts, IsPresentPart};

use crate::frontier::{PLACES, SPENT, leaves_empty, no_key};
use crate::past::Past;
use crate::past_image::{PAST, read_past, write_past};
use byteorder::{BigEndian, ByteOrder};
use duk_tdes::{Key, array_of};
use duk_tree::{Iksn, Ksn, usable};

/// The bytes of an image.
pub const IMAGE_LENGTH: usize = 431;

/// The bytes of an image of version 1, which is read but not written any more.
pub const IMAGE_LENGTH_OF_VERSION_1: usize = 350;

/// The version of the image's format, its first byte.
const VERSION: u8 = 2;

/// The version before it.
const VERSION_1: u8 = 1;

/// Where the registers begin, after version, initial key serial number and next counter.
const REGISTERS: usize = 14;

/// The bytes of a register.
const REGISTER_LENGTH: usize = 16;

/// Writes an image.
pub(crate) fn write_image(
    iksn: Iksn,
    counter: u32,
    registers: &[Key<16>; PLACES],
    past: &[Iksn],
) -> [u8; IMAGE_LENGTH]
    requires counter { counter < 2 ^ 24 }
    requires past { length past.now ≤ 8 }
    ensures image { result ≡ image_bytes (record {
      iksn = iksn;
      counter = counter;
      registers = registers.now;
      past = past.now;
    }) }
    ensures iksn { IsIksn iksn }
    ensures are_16 { (place : ℕ) → place < 21 → length (register_at registers.now place) ≡ 16 }
{
    let mut image = [0; IMAGE_LENGTH];
    image[..PAST].copy_from_slice(&write_present(iksn, counter, registers));
    image[PAST..].copy_from_slice(&write_past(past));
    image
}

/// Writes what stands before the past initial key serial numbers.
fn write_present(iksn: Iksn, counter: u32, registers: &[Key<16>; PLACES]) -> [u8; PAST]
    requires { counter < 2 ^ 24 }
    ensures present { result ≡ 2 ∷ present_bytes (record {
      iksn = iksn;
      counter = counter;
      registers = registers.now;
      past = [];
    }) }
    ensures iksn { IsIksn iksn }
    ensures are_16 { (place : ℕ) → place < 21 → length (register_at registers.now place) ≡ 16 }
{
    let mut image = [0; PAST];
    image[0] = VERSION;
    image[1..11].copy_from_slice(&iksn.bytes());
    BigEndian::write_u24(&mut image[11..REGISTERS], counter);
    for (place, register) in registers.iter().enumerate() {
        let start = REGISTERS + REGISTER_LENGTH * place;
        image[start..start + REGISTER_LENGTH].copy_from_slice(&register.bytes());
    }
    image
}

/// Reads an image of either version, where these bytes are one.
pub(crate) fn read_image(image: &[u8]) -> Option<(Iksn, u32, [Key<16>; PLACES], Past)>
    ensures found { IsSome result ↔ IsImage image.now }
    ensures parts { IfSome result (λ parts. record {
      iksn = parts.0;
      counter = parts.1;
      registers = parts.2;
      past = parts.3;
    }
        ≡ set_in image.now) }
    ensures set { IfSome result (λ parts. IsRegisterSet (record {
      iksn = parts.0;
      counter = parts.1;
      registers = parts.2;
      past = parts.3;
    })) }
    ensures version_2 { IfSome result (λ parts. slice_index image.now 0 ≡ 2
        → image_bytes (set_in image.now) ≡ image.now) }
    ensures version_1 { IfSome result (λ parts. slice_index image.now 0 ≡ 1
        → image_bytes_of_version_1 (set_in image.now) ≡ image.now) }
    ensures no_past { IfSome result (λ parts. slice_index image.now 0 ≡ 1
        → (set_in image.now).past ≡ []) }
{
    duk_tree::laws::serials();
    duk_tree::laws::bits();
    read_parts(image)
}

/// Reads an image, part by part.
fn read_parts(image: &[u8]) -> Option<(Iksn, u32, [Key<16>; PLACES], Past)>
    ensures found { IsSome result ↔ HasImageParts image.now }
    ensures is_image { IsSome result → IsImage image.now }
    ensures parts { IfSome result (λ parts. record {
      iksn = parts.0;
      counter = parts.1;
      registers = parts.2;
      past = parts.3;
    }
        ≡ set_in image.now) }
    ensures set { IfSome result (λ parts. IsRegisterSet (record {
      iksn = parts.0;
      counter = parts.1;
      registers = parts.2;
      past = parts.3;
    })) }
    ensures version_2 { IfSome result (λ parts. slice_index image.now 0 ≡ 2
        → image_bytes (set_in image.now) ≡ image.now) }
    ensures version_1 { IfSome result (λ parts. slice_index image.now 0 ≡ 1
        → image_bytes_of_version_1 (set_in image.now) ≡ image.now) }
    ensures no_past { IfSome result (λ parts. slice_index image.now 0 ≡ 1
        → (set_in image.now).past ≡ []) }
{
    if !has_version(image) {
        return None;
    }
    let (iksn, counter, registers) = read_present(image)?;
    if image[0] == VERSION_1 {
        return Some((iksn, counter, registers, Past::none()));
    }
    let past = read_past(image, iksn)?;
    Some((iksn, counter, registers, past))
}

/// Whether these bytes have a known version, and its length.
fn has_version(image: &[u8]) -> bool
    ensures { IsTrue result
        ↔ (((length image.now ≡ 350) × (slice_index image.now 0 ≡ 1))
        ⊎ ((length image.now ≡ 431) × (slice_index image.now 0 ≡ 2))) }
{
    match image.len() {
        IMAGE_LENGTH_OF_VERSION_1 => image[0] == VERSION_1,
        IMAGE_LENGTH => image[0] == VERSION,
        _ => false,
    }
}

/// Reads what stands before the past initial key serial numbers, where it is lawful.
fn read_present(image: &[u8]) -> Option<(Iksn, u32, [Key<16>; PLACES])>
    requires { 350 ≤ length image.now }
    ensures found { IsSome result ↔ IsPresentPart image.now }
    ensures iksn { IfSome result (λ parts. parts.0 ≡ (serial_in image.now).iksn) }
    ensures counter { IfSome result (λ parts. parts.1 ≡ counter_in image.now) }
    ensures registers { IfSome result (λ parts. parts.2 ≡ registers_in image.now) }
    ensures is_iksn { IfSome result (λ parts. IsIksn parts.0) }
    ensures written { IfSome result (λ parts.
        present_bytes (set_in image.now) ≡ take 349 (drop 1 image.now)) }
{
    duk_tree::laws::bits();
    let serial = Ksn::from_bytes(array_of(&image[1..11]));
    let counter = BigEndian::read_u24(&image[11..REGISTERS]);
    if serial.counter() != 0 || !(counter == SPENT || usable(counter)) {
        return None;
    }
    let registers = read_registers(image);
    if leaves_empty(counter, &registers) {
        Some((serial.iksn(), counter, registers))
    } else {
        None
    }
}

/// The registers of an image.
fn read_registers(image: &[u8]) -> [Key<16>; PLACES]
    requires { 350 ≤ length image.now }
    ensures { result ≡ registers_in image.now }
{
    let mut registers = [no_key(); PLACES];
    for place in 0..PLACES {
        let start = REGISTERS + REGISTER_LENGTH * place;
        registers[place] = Key::new(array_of(&image[start..start + REGISTER_LENGTH]));
    }
    registers
}
