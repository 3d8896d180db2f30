//! What calls take, read out of slices, and what they write into them.

ghost use Rattle.std.specs.Prelude.{◌≡◌, ◌<◌, ◌≤◌, ◌^◌, MatchOption, length};
ghost use Rattle.duk_tdes.specs.KeyBytes.{bytes_of};
ghost use Rattle.duk_tdes.specs.Tdes.{IsTdesLength};
ghost use Rattle.duk_tree.specs.Serial.{IsSerial, serial_of_bytes};
ghost use Rattle.duk_calls.specs.Answer.{with_front};
ghost use Rattle.duk_calls.specs.Keys.{IsInitial, iksn_of};

use duk_tdes::{Key, KeyBytes, array_of};
use duk_tree::{Iksn, Ksn};

/// The double-length key of 16 bytes.
pub(crate) fn double_key(bytes: &[u8]) -> Key<16>
    requires { length bytes.now ≡ 16 }
    ensures { result ≡ bytes.now }
{
    Key::new(array_of(bytes))
}

/// The key serial number of 10 bytes.
pub(crate) fn serial_number(bytes: &[u8]) -> Ksn
    requires { length bytes.now ≡ 10 }
    ensures serial { IsSerial result }
    ensures value { result ≡ serial_of_bytes bytes.now }
{
    Ksn::from_bytes(array_of(bytes))
}

/// The TDES key of 16 or 24 bytes.
pub(crate) fn tdes_key(bytes: &[u8]) -> Option<KeyBytes>
    ensures { MatchOption result (¬ IsTdesLength (length bytes.now))
        (λ key. (bytes_of key ≡ bytes.now) × IsTdesLength (length bytes.now)) }
{
    match bytes.len() {
        16 => Some(KeyBytes::Double(Key::new(array_of(bytes)))),
        24 => Some(KeyBytes::Triple(Key::new(array_of(bytes)))),
        _ => None,
    }
}

/// The initial key serial number in ten bytes, where the counter in them is zero.
pub(crate) fn initial_number(iksn: &[u8]) -> Option<Iksn>
    requires { length iksn.now ≡ 10 }
    ensures { MatchOption result (¬ IsInitial iksn.now)
        (λ number. IsInitial iksn.now × (number ≡ iksn_of iksn.now)) }
{
    let ksn = serial_number(iksn);
    if ksn.counter() == 0 {
        Some(ksn.iksn())
    } else {
        None
    }
}

/// Writes bytes in the front of a slice, and leaves those behind them as they were.
pub(crate) fn write_front(front: &[u8], bytes: &mut [u8])
    requires { length front.now ≤ length bytes.old }
    ensures { bytes.new ≡ with_front front.now bytes.old }
{
    bytes[..front.len()].copy_from_slice(front);
}

/// Writes bytes in the front of a slice, and how many they are.
pub(crate) fn fill(front: &[u8], bytes: &mut [u8], count: &mut u32)
    requires room { length front.now ≤ length bytes.old }
    requires counted { length front.now < 2 ^ 32 }
    ensures bytes { bytes.new ≡ with_front front.now bytes.old }
    ensures count { count.new ≡ length front.now }
{
    write_front(front, bytes);
    *count = front.len() as u32;
}
