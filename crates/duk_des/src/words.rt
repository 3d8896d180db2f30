//! DES in words of 32 bits.

ghost use Rattle.std.specs.Prelude.{◌≡◌, map, reverse};
ghost use Rattle.duk_des.specs.Bits.{xor_bits, bits_of_bytes, bytes_of_bits};
ghost use Rattle.duk_des.specs.Des.{cipher_function, rounds, des_computation};
ghost use Rattle.duk_des.specs.Words.{word_bits};
ghost use Rattle.duk_des.specs.inner.Words.{key_bits};

mod entries;
mod key_tables;
mod permutations;
mod round_keys;

pub use entries::entry;
use entries::group_of;
use permutations::{final_permutation, initial_permutation};
pub(crate) use round_keys::{RoundKey, round_keys, xor_keys};

/// A round for each of the keys with these indexes: L' = R, and R' = L xor f(R, K).
macro_rules! rounds {
    ($left:ident $right:ident $keys:ident: $($index:literal)*) => {
        $(
            let next = next_half($left, $right, &$keys[$index]);
            $left = $right;
            $right = next;
        )*
    };
}

/// The same rounds on the halves of two blocks, each under its own keys.
macro_rules! rounds_of_both {
    ($left:ident $right:ident $keys:ident, $other_left:ident $other_right:ident $other_keys:ident:
        $($index:literal)*) => {
        $(
            let next = next_half($left, $right, &$keys[$index]);
            let other = next_half($other_left, $other_right, &$other_keys[$index]);
            $left = $right;
            $right = next;
            $other_left = $other_right;
            $other_right = other;
        )*
    };
}

/// The initial permutation, the rounds, and the final permutation of the halves, exchanged.
pub(crate) fn crypt_block(keys: &[RoundKey; 16], block: &[u8; 8]) -> [u8; 8]
    ensures { result
        ≡ bytes_of_bits 8 (des_computation (map key_bits keys.now) (bits_of_bytes block.now)) }
{
    let (left, right) = initial_permutation(block);
    let (left, right) = rounds(left, right, keys);
    final_permutation(right, left)
}

/// The same with the round keys in reverse order.
pub(crate) fn crypt_block_backwards(keys: &[RoundKey; 16], block: &[u8; 8]) -> [u8; 8]
    ensures { result
        ≡ bytes_of_bits 8
        (des_computation (reverse (map key_bits keys.now)) (bits_of_bytes block.now)) }
{
    let (left, right) = initial_permutation(block);
    let (left, right) = rounds_backwards(left, right, keys);
    final_permutation(right, left)
}

/// A block by the first round keys, by the second in reverse order and by the third. The final
/// permutation of one and the initial permutation of the next undo one another, and are left out.
pub(crate) fn crypt_thrice(
    first: &[RoundKey; 16],
    second: &[RoundKey; 16],
    third: &[RoundKey; 16],
    block: &[u8; 8],
) -> [u8; 8]
    ensures { result
        ≡ bytes_of_bits 8
        (des_computation (map key_bits third.now)
        (des_computation (reverse (map key_bits second.now))
        (des_computation (map key_bits first.now) (bits_of_bytes block.now)))) }
{
    let (left, right) = initial_permutation(block);
    let (left, right) = rounds(left, right, first);
    let (left, right) = rounds_backwards(right, left, second);
    let (left, right) = rounds(right, left, third);
    final_permutation(right, left)
}

/// The same with the orders exchanged: the first and the third round keys in reverse order.
pub(crate) fn crypt_thrice_backwards(
    first: &[RoundKey; 16],
    second: &[RoundKey; 16],
    third: &[RoundKey; 16],
    block: &[u8; 8],
) -> [u8; 8]
    ensures { result
        ≡ bytes_of_bits 8
        (des_computation (reverse (map key_bits third.now))
        (des_computation (map key_bits second.now)
        (des_computation (reverse (map key_bits first.now)) (bits_of_bytes block.now)))) }
{
    let (left, right) = initial_permutation(block);
    let (left, right) = rounds_backwards(left, right, first);
    let (left, right) = rounds(right, left, second);
    let (left, right) = rounds_backwards(right, left, third);
    final_permutation(right, left)
}

/// Two blocks, each by its own round keys. A round waits for its look-ups, and those of the other
/// block fill that time.
pub(crate) fn crypt_both(
    keys: &[RoundKey; 16],
    block: &[u8; 8],
    other_keys: &[RoundKey; 16],
    other_block: &[u8; 8],
) -> ([u8; 8], [u8; 8])
    ensures first { result.0
        ≡ bytes_of_bits 8 (des_computation (map key_bits keys.now) (bits_of_bytes block.now)) }
    ensures second { result.1
        ≡ bytes_of_bits 8
        (des_computation (map key_bits other_keys.now) (bits_of_bytes other_block.now)) }
{
    let halves = initial_permutation(block);
    let other_halves = initial_permutation(other_block);
    let (halves, other_halves) = rounds_of_both(halves, keys, other_halves, other_keys);
    (
        final_permutation(halves.1, halves.0),
        final_permutation(other_halves.1, other_halves.0),
    )
}

/// What `crypt_thrice` makes of a block by the first round keys, the second and the first again: by
/// two such pairs, side by side.
pub(crate) fn crypt_thrice_both(
    first: &[RoundKey; 16],
    second: &[RoundKey; 16],
    other_first: &[RoundKey; 16],
    other_second: &[RoundKey; 16],
    block: &[u8; 8],
) -> ([u8; 8], [u8; 8])
    ensures first { result.0
        ≡ bytes_of_bits 8
        (des_computation (map key_bits first.now)
        (des_computation (reverse (map key_bits second.now))
        (des_computation (map key_bits first.now) (bits_of_bytes block.now)))) }
    ensures second { result.1
        ≡ bytes_of_bits 8
        (des_computation (map key_bits other_first.now)
        (des_computation (reverse (map key_bits other_second.now))
        (des_computation (map key_bits other_first.now) (bits_of_bytes block.now)))) }
{
    let start = initial_permutation(block);
    let (halves, others) = rounds_of_both(start, first, start, other_first);
    let (halves, others) = rounds_of_both_backwards(
        exchange(halves),
        second,
        exchange(others),
        other_second,
    );
    let (halves, others) = rounds_of_both(exchange(halves), first, exchange(others), other_first);
    (
        final_permutation(halves.1, halves.0),
        final_permutation(others.1, others.0),
    )
}

/// The halves L and R, exchanged.
#[inline(always)]
fn exchange(halves: (u32, u32)) -> (u32, u32)
    ensures left { result.0 ≡ halves.1 }
    ensures right { result.1 ≡ halves.0 }
{
    (halves.1, halves.0)
}

/// Sixteen rounds on the halves L and R.
fn rounds(left: u32, right: u32, keys: &[RoundKey; 16]) -> (u32, u32)
    ensures left { word_bits result.0
        ≡ (rounds (map key_bits keys.now)
        (record { left = word_bits left; right = word_bits right })).left }
    ensures right { word_bits result.1
        ≡ (rounds (map key_bits keys.now)
        (record { left = word_bits left; right = word_bits right })).right }
{
    let mut left = left;
    let mut right = right;
    rounds!(left right keys: 0 1 2 3 4 5 6 7 8 9 10 11 12 13 14 15);
    (left, right)
}

/// Sixteen rounds on the halves L and R, with the round keys in reverse order.
fn rounds_backwards(left: u32, right: u32, keys: &[RoundKey; 16]) -> (u32, u32)
    ensures left { word_bits result.0
        ≡ (rounds (reverse (map key_bits keys.now))
        (record { left = word_bits left; right = word_bits right })).left }
    ensures right { word_bits result.1
        ≡ (rounds (reverse (map key_bits keys.now))
        (record { left = word_bits left; right = word_bits right })).right }
{
    let mut left = left;
    let mut right = right;
    rounds!(left right keys: 15 14 13 12 11 10 9 8 7 6 5 4 3 2 1 0);
    (left, right)
}

/// Sixteen rounds on the halves L and R of two blocks, a round of the one after that of the other.
#[inline(always)]
fn rounds_of_both(
    halves: (u32, u32),
    keys: &[RoundKey; 16],
    other_halves: (u32, u32),
    other_keys: &[RoundKey; 16],
) -> ((u32, u32), (u32, u32))
    ensures first { record { left = word_bits result.0.0; right = word_bits result.0.1 }
        ≡ rounds (map key_bits keys.now)
        (record { left = word_bits halves.0; right = word_bits halves.1 }) }
    ensures second { record { left = word_bits result.1.0; right = word_bits result.1.1 }
        ≡ rounds (map key_bits other_keys.now)
        (record { left = word_bits other_halves.0; right = word_bits other_halves.1 }) }
{
    let (mut left, mut right) = halves;
    let (mut other_left, mut other_right) = other_halves;
    rounds_of_both!(left right keys, other_left other_right other_keys:
        0 1 2 3 4 5 6 7 8 9 10 11 12 13 14 15);
    ((left, right), (other_left, other_right))
}

/// The same with the round keys in reverse order.
#[inline(always)]
fn rounds_of_both_backwards(
    halves: (u32, u32),
    keys: &[RoundKey; 16],
    other_halves: (u32, u32),
    other_keys: &[RoundKey; 16],
) -> ((u32, u32), (u32, u32))
    ensures first { record { left = word_bits result.0.0; right = word_bits result.0.1 }
        ≡ rounds (reverse (map key_bits keys.now))
        (record { left = word_bits halves.0; right = word_bits halves.1 }) }
    ensures second { record { left = word_bits result.1.0; right = word_bits result.1.1 }
        ≡ rounds (reverse (map key_bits other_keys.now))
        (record { left = word_bits other_halves.0; right = word_bits other_halves.1 }) }
{
    let (mut left, mut right) = halves;
    let (mut other_left, mut other_right) = other_halves;
    rounds_of_both!(left right keys, other_left other_right other_keys:
        15 14 13 12 11 10 9 8 7 6 5 4 3 2 1 0);
    ((left, right), (other_left, other_right))
}

/// L xor f(R, K).
#[inline(always)]
fn next_half(left: u32, right: u32, key: &RoundKey) -> u32
    ensures { word_bits result
        ≡ xor_bits (word_bits left) (cipher_function (word_bits right) (key_bits key.now)) }
{
    left ^ cipher_word(right, key)
}

/// f(R, K). The six bits of the expansion E of R that a box takes are those in the lower part of a
/// byte of R, rotated by 29 places to the left for the odd boxes and by one for the even ones.
#[inline(always)]
fn cipher_word(right: u32, key: &RoundKey) -> u32
    ensures { word_bits result ≡ cipher_function (word_bits right) (key_bits key.now) }
{
    let odd = right.rotate_left(29) ^ key.odd;
    let even = right.rotate_left(1) ^ key.even;
    entry(1, group_of(odd, 24))
        ^ entry(2, group_of(even, 24))
        ^ entry(3, group_of(odd, 16))
        ^ entry(4, group_of(even, 16))
        ^ entry(5, group_of(odd, 8))
        ^ entry(6, group_of(even, 8))
        ^ entry(7, group_of(odd, 0))
        ^ entry(8, group_of(even, 0))
}
