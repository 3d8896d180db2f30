//! The command `kcv`: check values of keys, and of the components of a key.

ghost use Rattle.std.specs.Prelude.{◌≡◌, ◌≢◌, ◌<◌, ◌≤◌, ◌+◌, ◌++◌, ◌∷◌, [], true, false, List, Some, None, IfErr, IfNone, IfOk, IfSome, MatchOption, map, length};
ghost use Rattle.arrayvec.specs.ArrayVec.{array_vec_len};
ghost use Rattle.duk_commands.specs.CheckValues.{AreAccepted, IsComponentsText, IsKeysText, IsOfOtherLength, IsSumOf, IsValuesRefused, IsValuesText, component_values, key_values, shown_line};
ghost use Rattle.duk_mac.specs.CheckValue.{check_value_of, cmac_check_value_of};
ghost use Rattle.duk_tdes.specs.Key.{xor_bytes};
ghost use Rattle.duk_tdes.specs.KeyBytes.{bytes_of};
ghost use Rattle.duk_tdes.specs.Tdes.{IsTdesLength};
ghost use Rattle.duk_tdes.specs.declared.key.KeyBytes.{KeyBytes as KeyValue};

use crate::fault::Fault;
use crate::lines::{LINES_ROOM, Lines, push_line};
use crate::weak_keys::push_weakness;
use duk_mac::{check_value, cmac_check_value};
use duk_tdes::{Key, KeyBytes};

/// How many keys may be given.
pub const MOST_KEYS: usize = 16;

/// The lines of the check values of keys, at most 16: for each the check value, that by CMAC (ANSI
/// X9.24-1:2017 annex A) and, of a weak key, why it is weak (NIST SP 800-67 Rev. 2 section 3.3.2). Of
/// components of one key, `components`, the two check values of each, and then the lines of the key,
/// their exclusive or; `show` shows it.
///
/// The fault is `key refused`: a text is not 32 or 48 digits, or components have two lengths.
pub fn values_lines(keys: &[&str], components: bool, show: bool) -> Result<Lines, Fault>
    requires some { 0 < length keys.now }
    requires fits { length keys.now ≤ MOST_KEYS }
    ensures lines { IfOk result (λ lines.
        IsValuesText (map (λ key. key.now) keys.now) components show lines.items) }
    ensures refused { IfErr result (IsValuesRefused (map (λ key. key.now) keys.now) components) }
{
    let lines = if components {
        component_lines(keys, show)
    } else {
        key_lines(keys)
    };
    lines.ok_or(Fault::KeyRefused)
}

/// The lines of the keys that texts write.
fn key_lines(texts: &[&str]) -> Option<Lines>
    requires { length texts.now ≤ MOST_KEYS }
    ensures { MatchOption result (¬ AreAccepted (map (λ text. text.now) texts.now) false)
        (λ lines. IsKeysText (map (λ text. text.now) texts.now) lines.items) }
{
    let mut lines = Lines::new();
    for text in texts {
        let key = KeyBytes::parse(text)?;
        push_key(&mut lines, &key);
    }
    Some(lines)
}

/// The lines of the components that texts write, and of the key that they make.
fn component_lines(texts: &[&str], show: bool) -> Option<Lines>
    requires some { 0 < length texts.now }
    requires fits { length texts.now ≤ MOST_KEYS }
    ensures { MatchOption result (¬ AreAccepted (map (λ text. text.now) texts.now) true)
        (λ lines. IsComponentsText (map (λ text. text.now) texts.now) show lines.items) }
{
    let mut lines = Lines::new();
    let mut sum = None;
    for text in texts {
        let component = KeyBytes::parse(text)?;
        sum = Some(add_component(sum, &component)?);
        push_component(&mut lines, &component);
    }
    let sum = sum?;
    push_shown(&mut lines, show, &sum);
    push_key(&mut lines, &sum);
    Some(lines)
}

/// The sum of components so far and one more, where it has their length.
pub fn add_component(sum: Option<KeyBytes>, component: &KeyBytes) -> Option<KeyBytes>
    ensures added { IfSome result (λ new. (keys : List KeyValue) → IsSumOf keys sum
        → IsSumOf (keys ++ component.now ∷ []) (Some new)) }
    ensures none { IfNone result (IsOfOtherLength sum component.now) }
{
    match sum {
        None => Some(*component),
        Some(sum) => xor_keys(&sum, component),
    }
}

/// The exclusive or of two keys of one length.
fn xor_keys(key: &KeyBytes, component: &KeyBytes) -> Option<KeyBytes>
    ensures { MatchOption result
        (length (bytes_of key.now) ≢ length (bytes_of component.now))
        (λ sum. (bytes_of sum ≡ xor_bytes (bytes_of key.now) (bytes_of component.now))
        × (length (bytes_of key.now) ≡ length (bytes_of component.now))
        × (length (bytes_of sum) ≡ length (bytes_of key.now))) }
{
    match (key, component) {
        (KeyBytes::Double(key), KeyBytes::Double(component)) => {
            Some(KeyBytes::Double(xor(key, component)))
        }
        (KeyBytes::Triple(key), KeyBytes::Triple(component)) => {
            Some(KeyBytes::Triple(xor(key, component)))
        }
        (KeyBytes::Double(key), KeyBytes::Triple(component)) => {
            xor_of_other_lengths(key, component)
        }
        (KeyBytes::Triple(key), KeyBytes::Double(component)) => {
            xor_of_other_lengths(key, component)
        }
    }
}

/// The exclusive or of two keys.
fn xor<const N: usize>(key: &Key<N>, component: &Key<N>) -> Key<N>
    requires { IsTdesLength N }
    ensures sum { result ≡ xor_bytes key.now component.now }
    ensures size { length result ≡ N }
    ensures key_size { length key.now ≡ N }
    ensures component_size { length component.now ≡ N }
{
    let sum = key.xor(&component.bytes());
    duk_tdes::laws::tdes_key(key);
    duk_tdes::laws::tdes_key(component);
    duk_tdes::laws::tdes_key(&sum);
    sum
}

/// There is no exclusive or of keys of two lengths.
fn xor_of_other_lengths<const N: usize, const M: usize>(
    key: &Key<N>,
    component: &Key<M>,
) -> Option<KeyBytes>
    requires key { IsTdesLength N }
    requires component { IsTdesLength M }
    requires other { N ≢ M }
    ensures none { result ≡ None }
    ensures lengths { length key.now ≢ length component.now }
{
    duk_tdes::laws::tdes_key(key);
    duk_tdes::laws::tdes_key(component);
    None
}

/// Appends the line of a key itself, where it is to be shown.
fn push_shown(lines: &mut Lines, show: bool, key: &KeyBytes)
    requires { array_vec_len lines.old + 53 ≤ LINES_ROOM }
    ensures line { lines.new.items ≡ lines.old.items ++ shown_line show (bytes_of key.now) }
    ensures len { array_vec_len lines.new ≤ array_vec_len lines.old + 53 }
{
    if !show {
        return;
    }
    match key {
        KeyBytes::Double(key) => push_line(lines, b"key", &key.bytes()),
        KeyBytes::Triple(key) => push_line(lines, b"key", &key.bytes()),
    }
}

/// Appends the two check values of a key, and why it is weak, where it is.
fn push_key(lines: &mut Lines, key: &KeyBytes)
    requires { array_vec_len lines.old + 39 ≤ LINES_ROOM }
    ensures lines { lines.new.items ≡ lines.old.items ++ key_values (bytes_of key.now) }
    ensures len { array_vec_len lines.new ≤ array_vec_len lines.old + 39 }
{
    let (value, by_cmac) = both_values(key);
    push_line(lines, b"kcv", &value);
    push_line(lines, b"cmac", &by_cmac);
    push_weakness(lines, key);
}

/// Appends the two check values of a component.
fn push_component(lines: &mut Lines, component: &KeyBytes)
    requires { array_vec_len lines.old + 47 ≤ LINES_ROOM }
    ensures lines { lines.new.items
        ≡ lines.old.items ++ component_values (bytes_of component.now) }
    ensures len { array_vec_len lines.new ≡ array_vec_len lines.old + 47 }
{
    let (value, by_cmac) = both_values(component);
    push_line(lines, b"component-kcv", &value);
    push_line(lines, b"component-cmac", &by_cmac);
}

/// The two check values of a key: that of a block of zeros, and that by CMAC.
fn both_values(key: &KeyBytes) -> ([u8; 3], [u8; 5])
    ensures value { result.0 ≡ check_value_of (bytes_of key.now) }
    ensures by_cmac { result.1 ≡ cmac_check_value_of (bytes_of key.now) }
{
    match key {
        KeyBytes::Double(key) => (check_value(key), cmac_check_value(key)),
        KeyBytes::Triple(key) => (check_value(key), cmac_check_value(key)),
    }
}
