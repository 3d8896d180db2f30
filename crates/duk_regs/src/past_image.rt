//! The past initial key serial numbers in the bytes that a terminal stores.

ghost use Rattle.std.specs.Prelude.{◌≡◌, ◌↔◌, ◌<◌, ◌≤◌, ℕ, All, IfSome, IsSome, IsTrue, drop, length, replicate};
ghost use Rattle.duk_tree.specs.Serial.{IsIksn};
ghost use Rattle.duk_regs.specs.Image.{counted_past_in, past_bytes, past_count_in, past_of, past_serial_in, serial_in};
ghost use Rattle.duk_regs.specs.inner.ImageParts.{IsPastPart};

use crate::past::{MOST_PAST, Past, are_different};
use duk_tdes::array_of;
use duk_tree::{Iksn, Ksn};

/// The bytes of a key serial number.
const SERIAL_LENGTH: usize = 10;

/// The bytes of the past initial key serial numbers: how many they are, and eight places.
pub(crate) const PAST_LENGTH: usize = 81;

/// Where they begin in an image.
pub(crate) const PAST: usize = 350;

/// Where their places begin in an image.
const FIRST_PLACE: usize = 351;

/// Writes them.
pub(crate) fn write_past(iksns: &[Iksn]) -> [u8; PAST_LENGTH]
    requires { length iksns.now ≤ 8 }
    ensures { result ≡ past_bytes iksns.now }
{
    let mut bytes = [0; PAST_LENGTH];
    bytes[0] = iksns.len() as u8;
    for (place, iksn) in iksns.iter().enumerate() {
        let start = 1 + SERIAL_LENGTH * place;
        bytes[start..start + SERIAL_LENGTH].copy_from_slice(&iksn.bytes());
    }
    bytes
}

/// Reads them from an image of version 2, where they are lawful beside its own initial key serial
/// number.
pub(crate) fn read_past(image: &[u8], iksn: Iksn) -> Option<Past>
    requires size { length image.now ≡ 431 }
    requires iksn { iksn ≡ (serial_in image.now).iksn }
    ensures found { IsSome result ↔ IsPastPart image.now }
    ensures past { IfSome result (λ past. past ≡ counted_past_in image.now) }
    ensures iksns { IfSome result (All IsIksn) }
    ensures written { IfSome result (λ past. past_bytes past ≡ drop 350 image.now) }
{
    duk_tree::laws::serials();
    let count = image[PAST] as usize;
    if count > MOST_PAST || !have_no_counter(image, count) {
        return None;
    }
    if !are_zeros(&image[FIRST_PLACE + SERIAL_LENGTH * count..]) {
        return None;
    }
    let past = read_places(image, count);
    if past.contains(iksn) || !are_different(past.iksns()) {
        return None;
    }
    Some(past)
}

/// Whether the counter bits in each of the first places are zero.
fn have_no_counter(image: &[u8], count: usize) -> bool
    requires size { length image.now ≡ 431 }
    requires count { count ≤ 8 }
    ensures { IsTrue result
        ↔ ((place : ℕ) → place < count → (past_serial_in image.now place).counter ≡ 0) }
{
    for place in 0..count {
        if past_serial(image, place).counter() != 0 {
            return false;
        }
    }
    true
}

/// The initial key serial numbers in the first places.
fn read_places(image: &[u8], count: usize) -> Past
    requires size { length image.now ≡ 431 }
    requires count { count ≤ 8 }
    ensures past { result ≡ past_of image.now count }
    ensures iksns { All IsIksn result }
{
    let mut past = Past::none();
    for place in 0..count {
        past = past.with(past_serial(image, place).iksn());
    }
    past
}

/// The key serial number in a place.
fn past_serial(image: &[u8], place: usize) -> Ksn
    requires size { length image.now ≡ 431 }
    requires place { place < 8 }
    ensures value { result ≡ past_serial_in image.now place }
    ensures iksn { IsIksn result.iksn }
{
    let start = FIRST_PLACE + SERIAL_LENGTH * place;
    Ksn::from_bytes(array_of(&image[start..start + SERIAL_LENGTH]))
}

/// Whether each byte is zero, as where nothing is written.
pub fn are_zeros(bytes: &[u8]) -> bool
    ensures { IsTrue result ↔ (bytes.now ≡ replicate (length bytes.now) 0) }
{
    bytes.iter().all(|byte| *byte == 0)
}
