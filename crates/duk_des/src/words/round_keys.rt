//! The key schedule in halves of 28 bits (NIST SP 800-67 appendix A).

ghost use Rattle.std.specs.Prelude.{◌≡◌, ◌+◌, ◌≤◌, ◌<◌, ◌^◌, ◌++◌, map};
ghost use Rattle.duk_des.specs.Bits.{permute, xor_bits, bits_of_bytes};
ghost use Rattle.duk_des.specs.Des.{rotate, round_keys, xor_keys};
ghost use Rattle.duk_des.specs.Tables.{left_key_places, right_key_places, round_key_places};
ghost use Rattle.duk_des.specs.inner.Words.{half_bits, key_bits};

use super::key_tables::{halves_of_key, words_of_halves};

/// The 48 bits of a round key in groups of six, each in the low part of a byte: those for the boxes
/// 1, 3, 5 and 7, and those for the boxes 2, 4, 6 and 8. The upper two bits of each byte are of no
/// group.
#[derive(Clone, Copy)]
pub struct RoundKey {
    pub odd: u32,
    pub even: u32,
}

/// A round key for each of the rotations, by so many places, of the halves C and D.
macro_rules! schedule {
    ($c:ident $d:ident: $($count:literal)*) => {
        [$({
            $c = rotate($c, $count);
            $d = rotate($d, $count);
            round_key($c, $d)
        }),*]
    };
}

/// Each of the round keys with these indexes, xored with the mask's.
macro_rules! masked {
    ($keys:ident $masks:ident: $($index:literal)*) => {
        [$(xor_key(&$keys[$index], &$masks[$index])),*]
    };
}

/// The sixteen round keys of a key.
#[inline(always)]
pub fn round_keys(key: &[u8; 8]) -> [RoundKey; 16]
    ensures { map key_bits result ≡ round_keys (bits_of_bytes key.now) }
{
    let (mut c, mut d) = choose_halves(key);
    schedule!(c d: 1 1 2 2 2 2 2 2 1 2 2 2 2 2 2 1)
}

/// Each round key, xored with the mask's at its place.
#[inline(always)]
pub fn xor_keys(keys: &[RoundKey; 16], masks: &[RoundKey; 16]) -> [RoundKey; 16]
    ensures { map key_bits result ≡ xor_keys (map key_bits keys.now) (map key_bits masks.now) }
{
    masked!(keys masks: 0 1 2 3 4 5 6 7 8 9 10 11 12 13 14 15)
}

#[inline(always)]
fn xor_key(key: &RoundKey, mask: &RoundKey) -> RoundKey
    ensures { key_bits result ≡ xor_bits (key_bits key.now) (key_bits mask.now) }
{
    RoundKey {
        odd: key.odd ^ mask.odd,
        even: key.even ^ mask.even,
    }
}

/// The halves C and D of permuted choice 1.
#[inline(always)]
fn choose_halves(key: &[u8; 8]) -> (u32, u32)
    ensures left_fits { result.0 < 2 ^ 28 }
    ensures right_fits { result.1 < 2 ^ 28 }
    ensures left { half_bits result.0 ≡ permute left_key_places (bits_of_bytes key.now) }
    ensures right { half_bits result.1 ≡ permute right_key_places (bits_of_bytes key.now) }
{
    let word = halves_of_key(key);
    (
        ((word >> 32) & 0x0fff_ffff) as u32,
        (word & 0x0fff_ffff) as u32,
    )
}

/// A half, rotated to the left in its 28 bits.
#[inline(always)]
fn rotate(half: u32, count: u32) -> u32
    requires fits { half < 2 ^ 28 }
    requires short { count ≤ 2 }
    ensures fits { result < 2 ^ 28 }
    ensures bits { half_bits result ≡ rotate count (half_bits half) }
{
    (half << count ^ half >> (28 - count)) & 0x0fff_ffff
}

/// Permuted choice 2 of C followed by D.
#[inline(always)]
fn round_key(c: u32, d: u32) -> RoundKey
    ensures { key_bits result ≡ permute round_key_places (half_bits c ++ half_bits d) }
{
    let word = words_of_halves(c, d);
    RoundKey {
        odd: (word >> 32) as u32,
        even: (word & 0xffff_ffff) as u32,
    }
}
