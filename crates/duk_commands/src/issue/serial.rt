//! Initial key serial numbers in a row.

ghost use Rattle.std.specs.Prelude.{◌≡◌, ◌≢◌, ◌↔◌, ◌<◌, ◌^◌, ℕ, IsTrue, MatchOption};
ghost use Rattle.duk_commands.specs.Numbers.{iksn_at, key_set};

use byteorder::{BigEndian, ByteOrder};
use duk_tree::{Iksn, Ksn};

/// How far an initial key serial number lies above the one before it.
const SPACING: u128 = 1 << 21;

/// One more than the greatest key serial number.
const END: u128 = 1 << 80;

/// How many key serial numbers have the same prefix.
const KEY_SET: u128 = 1 << 40;

/// The initial key serial number at a place after the first.
pub(crate) fn iksn_at(first: Iksn, place: u32) -> Iksn
    requires { iksn_at first place < 2 ^ 80 }
    ensures { result ≡ iksn_at first place }
{
    let number = first.number() + u128::from(place) * SPACING;
    let mut bytes = [0; 10];
    BigEndian::write_uint128(&mut bytes, number, 10);
    Ksn::from_bytes(bytes).iksn()
}

/// Whether there is a number at this place after the first, and in its key set.
pub(crate) fn is_within(first: Iksn, place: u32) -> bool
    ensures { IsTrue result
        ↔ ((iksn_at first place < 2 ^ 80) × (key_set (iksn_at first place) ≡ key_set first)) }
{
    let first = first.number();
    let number = first + u128::from(place) * SPACING;
    number < END && number / KEY_SET == first / KEY_SET
}

/// The place of a number after the first.
pub(crate) fn place_of(first: Iksn, iksn: Iksn) -> Option<u128>
    ensures { MatchOption result ((place : ℕ) → iksn ≢ iksn_at first place)
        (λ place. iksn ≡ iksn_at first place) }
{
    let (first, number) = (first.number(), iksn.number());
    if number < first {
        return None;
    }
    Some((number - first) / SPACING)
}
