//! Weak keys of TDES.

ghost use Rattle.std.specs.Prelude.{◌≡◌, ◌+◌, ◌≤◌, ◌++◌, IfSome, length};
ghost use Rattle.std.specs.Option.{option_copied};
ghost use Rattle.arrayvec.specs.ArrayVec.{array_vec_len};
ghost use Rattle.duk_commands.specs.WeakKeys.{are_zeros, des_keys, has_weak, is_equal_but_for_parity, is_single, is_weak, is_weak_key, is_zeros, weak_line, weakness, without_parity};
ghost use Rattle.duk_tdes.specs.KeyBytes.{bytes_of};

use crate::lines::{LINES_ROOM, Lines, push_text_line};
use duk_tdes::{KeyBytes, array_of};

/// The four weak keys of DES, and its twelve semi-weak ones (NIST SP 800-67 Rev. 2 section 3.3.2).
const WEAK_KEYS: [u64; 16] = [
    0x0101_0101_0101_0101,
    0xFEFE_FEFE_FEFE_FEFE,
    0xE0E0_E0E0_F1F1_F1F1,
    0x1F1F_1F1F_0E0E_0E0E,
    0x011F_011F_010E_010E,
    0x1F01_1F01_0E01_0E01,
    0x01E0_01E0_01F1_01F1,
    0xE001_E001_F101_F101,
    0x01FE_01FE_01FE_01FE,
    0xFE01_FE01_FE01_FE01,
    0x1FE0_1FE0_0EF1_0EF1,
    0xE01F_E01F_F10E_F10E,
    0x1FFE_1FFE_0EFE_0EFE,
    0xFE1F_FE1F_FE0E_FE0E,
    0xE0FE_E0FE_F1FE_F1FE,
    0xFEE0_FEE0_FEF1_FEF1,
];

/// The keys of DES that a key of TDES has: K1, K2 and K3.
#[derive(Clone, Copy)]
struct DesKeys {
    first: [u8; 8],
    second: [u8; 8],
    third: [u8; 8],
}

/// Appends the line that says why a key is weak, where it is: `weak zeros`, `weak halves` or
/// `weak DES`, the first that holds.
pub(crate) fn push_weakness(lines: &mut Lines, key: &KeyBytes)
    requires { array_vec_len lines.old + 12 ≤ LINES_ROOM }
    ensures line { lines.new.items ≡ lines.old.items ++ weak_line (bytes_of key.now) }
    ensures len { array_vec_len lines.new ≤ array_vec_len lines.old + 12 }
{
    if let Some(word) = weakness(&des_keys(key)) {
        push_text_line(lines, b"weak", word.as_bytes());
    }
}

/// Whether a key is weak: all its bits are zero, two of its keys of DES in turn are equal, or one of
/// them is a weak or semi-weak key of DES. Parity bits do not count.
pub fn is_weak_key(key: &KeyBytes) -> bool
    ensures { result ≡ is_weak_key (bytes_of key.now) }
{
    weakness(&des_keys(key)).is_some()
}

/// The keys of DES of a key of either length. That of 16 bytes has the first again as the third.
fn des_keys(key: &KeyBytes) -> DesKeys
    ensures { result ≡ des_keys (bytes_of key.now) }
{
    match key {
        KeyBytes::Double(key) => {
            let bytes = key.bytes();
            DesKeys {
                first: array_of(&bytes[..8]),
                second: array_of(&bytes[8..]),
                third: array_of(&bytes[..8]),
            }
        }
        KeyBytes::Triple(key) => {
            let bytes = key.bytes();
            DesKeys {
                first: array_of(&bytes[..8]),
                second: array_of(&bytes[8..16]),
                third: array_of(&bytes[16..]),
            }
        }
    }
}

/// Why a key is weak, in a word. None: it is not.
fn weakness(keys: &DesKeys) -> Option<&'static str>
    ensures word { option_copied result ≡ weakness keys.now }
    ensures short { IfSome result (λ word. length word.now ≤ 6) }
{
    if are_zeros(keys) {
        return Some("zeros");
    }
    if is_single(keys) {
        return Some("halves");
    }
    if has_weak(keys) {
        return Some("DES");
    }
    None
}

/// Whether each key of DES is zeros.
fn are_zeros(keys: &DesKeys) -> bool
    ensures { result ≡ are_zeros keys.now }
{
    is_zeros(&keys.first) && is_zeros(&keys.second) && is_zeros(&keys.third)
}

/// Whether two keys of DES in turn are equal, so that TDES is single DES.
fn is_single(keys: &DesKeys) -> bool
    ensures { result ≡ is_single keys.now }
{
    is_equal_but_for_parity(&keys.first, &keys.second)
        || is_equal_but_for_parity(&keys.second, &keys.third)
}

/// Whether one key of DES is weak.
fn has_weak(keys: &DesKeys) -> bool
    ensures { result ≡ has_weak keys.now }
{
    is_weak(&keys.first) || is_weak(&keys.second) || is_weak(&keys.third)
}

/// Whether a key of DES is zeros.
fn is_zeros(key: &[u8; 8]) -> bool
    ensures { result ≡ is_zeros key.now }
{
    is_equal_but_for_parity(key, &[0; 8])
}

/// Whether a key of DES is weak or semi-weak.
fn is_weak(key: &[u8; 8]) -> bool
    ensures { result ≡ is_weak key.now }
{
    WEAK_KEYS
        .iter()
        .any(|weak| is_equal_but_for_parity(key, &weak.to_be_bytes()))
}

/// Whether two keys of DES are equal but for their parity bits.
fn is_equal_but_for_parity(key: &[u8; 8], other: &[u8; 8]) -> bool
    ensures { result ≡ is_equal_but_for_parity key.now other.now }
{
    without_parity(key) == without_parity(other)
}

/// Of each byte of a key the seven bits that are not its parity bit.
fn without_parity(key: &[u8; 8]) -> [u8; 8]
    ensures { result ≡ without_parity key.now }
{
    let mut bits = *key;
    for i in 0..bits.len() {
        bits[i] /= 2;
    }
    bits
}
