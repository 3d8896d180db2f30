//! A new component of a local master key.

ghost use Rattle.std.specs.Prelude.{◌≡◌, ◌++◌, IfErr, IfOk, MatchOption, length, map};
ghost use Rattle.duk_commands.specs.Fault.{line_end};
ghost use Rattle.duk_components.specs.NewComponent.{IsNewRefused, IsNewText, IsRandom, component_text, key_with_odd_parity, with_odd_parity};
ghost use Rattle.duk_tdes.specs.KeyBytes.{bytes_of};
ghost use Rattle.duk_tdes.specs.declared.key.KeyBytes.{KeyBytes as KeyValue};

use crate::components::written_value;
use crate::fault::ComponentFault;
use duk_commands::{Lines, is_weak_key, push_end, push_text};
use duk_io::append_hex;
use duk_tdes::{Key, KeyBytes};

/// The line of a new component, of one text of 32 or 48 random hexadecimal digits: the digits of the
/// same key with odd parity, a space, and its check value. The parity bits are those of the component;
/// in the exclusive or of two components they are zeros, and no cipher reads them.
///
/// The fault is `Random`: there is not one text, it is no such digits, or their key is weak.
pub fn new_component_line(texts: &[&str]) -> Result<Lines, ComponentFault>
    ensures line { IfOk result
        (λ lines. IsNewText (map (λ text. text.now) texts.now) lines.items) }
    ensures refused { IfErr result (IsNewRefused (map (λ text. text.now) texts.now)) }
{
    match random_key(texts) {
        Some(random) => Ok(line_of(&key_with_odd_parity(&random))),
        None => Err(ComponentFault::Random),
    }
}

/// The key that the one text writes, where it is not weak.
fn random_key(texts: &[&str]) -> Option<KeyBytes>
    ensures { MatchOption result
        ((key : KeyValue) → ¬ IsRandom (map (λ text. text.now) texts.now) key)
        (IsRandom (map (λ text. text.now) texts.now)) }
{
    let [text] = texts else {
        return None;
    };
    let key = KeyBytes::parse(text)?;
    if is_weak_key(&key) {
        return None;
    }
    Some(key)
}

/// A key with odd parity, and else the same.
fn key_with_odd_parity(key: &KeyBytes) -> KeyBytes
    ensures { bytes_of result ≡ key_with_odd_parity (bytes_of key.now) }
{
    match key {
        KeyBytes::Double(key) => KeyBytes::Double(Key::new(bytes_with_odd_parity(key.bytes()))),
        KeyBytes::Triple(key) => KeyBytes::Triple(Key::new(bytes_with_odd_parity(key.bytes()))),
    }
}

/// The bytes of a key with odd parity.
fn bytes_with_odd_parity<const N: usize>(key: [u8; N]) -> [u8; N]
    ensures { result ≡ key_with_odd_parity key.entry }
{
    let mut bytes = key;
    for i in 0..bytes.len() {
        bytes[i] = with_odd_parity(bytes[i]);
    }
    bytes
}

/// A byte with odd parity.
fn with_odd_parity(byte: u8) -> u8
    ensures { result ≡ with_odd_parity byte }
{
    let bits = byte / 2;
    let parity = 1 - (bits.count_ones() % 2) as u8;
    bits * 2 + parity
}

/// The line of a component.
fn line_of(component: &KeyBytes) -> Lines
    ensures { result.items ≡ component_text component.now }
{
    let mut line = Lines::new();
    match component {
        KeyBytes::Double(key) => append_hex(&mut line, &key.bytes()),
        KeyBytes::Triple(key) => append_hex(&mut line, &key.bytes()),
    }
    push_text(&mut line, written_value(component).as_slice());
    push_end(&mut line);
    line
}
