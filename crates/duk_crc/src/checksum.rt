//! The check sum of bytes.

ghost use Rattle.std.specs.Prelude.{◌≡◌, ◌*◌, ◌≤◌, ◌++◌, ℕ, List, [], length, take};
ghost use Rattle.std.specs.List.{fold};
ghost use Rattle.duk_crc.specs.Crc32.{crc32, remainder_of, with_byte};

use crate::table::left_by;
use std::marker::Model;

/// The bytes that are divided in one step.
const STEP: usize = 8;

/// The CRC-32 of bytes (ISO 3309, ITU-T V.42): that of the nine digits `123456789` is CBF43926 in
/// hexadecimal.
pub fn crc32(bytes: &[u8]) -> u32
    ensures { result ≡ crc32 bytes.now }
{
    Division::new().with(bytes).check_sum()
}

/// A division of bytes that come in pieces: what those so far leave.
#[derive(Drop)]
pub struct Division {
    remainder: u32,
}

impl Model for Division {
    ghost use Rattle.std.specs.Prelude.{ℕ};

    ghost Value = { ℕ };

    ghost view = { λ division. division.remainder };
}

impl Division {
    /// That of no bytes.
    pub fn new() -> Self
        ensures { result ≡ remainder_of [] }
    {
        Division {
            remainder: u32::MAX,
        }
    }

    /// That of more bytes behind those so far.
    pub fn with(self, bytes: &[u8]) -> Self
        ensures { (before : List ℕ) → self ≡ remainder_of before
            → result ≡ remainder_of (before ++ bytes.now) }
    {
        let steps = bytes.len() / STEP;
        let remainder = with_steps(self.remainder, steps, bytes);
        Division {
            remainder: with_rest(remainder, &bytes[STEP * steps..]),
        }
    }

    /// The CRC-32 of the bytes.
    pub fn check_sum(self) -> u32
        ensures { (bytes : List ℕ) → self ≡ remainder_of bytes → result ≡ crc32 bytes }
    {
        !self.remainder
    }
}

/// The remainder with so many times eight bytes more, which come first of these.
fn with_steps(remainder: u32, steps: usize, bytes: &[u8]) -> u32
    requires { 8 * steps ≤ length bytes.now }
    ensures { result ≡ fold with_byte remainder (take (8 * steps) bytes.now) }
{
    let mut remainder = remainder;
    for step in 0..steps {
        let at = STEP * step;
        remainder = with_eight(remainder, &bytes[at..at + STEP]);
    }
    remainder
}

/// The remainder with bytes more.
fn with_rest(remainder: u32, bytes: &[u8]) -> u32
    ensures { result ≡ fold with_byte remainder bytes.now }
{
    let mut remainder = remainder;
    for byte in bytes {
        remainder = with_byte(remainder, *byte);
    }
    remainder
}

/// The remainder with eight bytes more. Each of its own four bytes is added to one of the first four.
fn with_eight(remainder: u32, bytes: &[u8]) -> u32
    requires { length bytes.now ≡ 8 }
    ensures { result ≡ fold with_byte remainder bytes.now }
{
    let later = left_by(bytes[4], 3)
        ^ (left_by(bytes[5], 2) ^ (left_by(bytes[6], 1) ^ left_by(bytes[7], 0)));
    left_by((remainder % 256) as u8 ^ bytes[0], 7)
        ^ (left_by(((remainder >> 8) % 256) as u8 ^ bytes[1], 6)
            ^ (left_by(((remainder >> 16) % 256) as u8 ^ bytes[2], 5)
                ^ (left_by((remainder >> 24) as u8 ^ bytes[3], 4) ^ later)))
}

/// The remainder with one byte more.
fn with_byte(remainder: u32, byte: u8) -> u32
    ensures { result ≡ with_byte remainder byte }
{
    let sum = remainder ^ byte as u32;
    (sum >> 8) ^ left_by((sum % 256) as u8, 0)
}
