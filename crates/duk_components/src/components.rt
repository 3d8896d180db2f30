//! The components of a local master key as lines, and the check values of what they make.

ghost use Rattle.std.specs.Prelude.{◌≡◌, ◌+◌, ◌*◌, ◌++◌, ◌≤◌, List, IfErr, IfOk, length, map};
ghost use Rattle.arrayvec.specs.ArrayVec.{array_vec_len};
ghost use Rattle.duk_commands.specs.CheckValues.{combined};
ghost use Rattle.duk_components.specs.Components.{AreComponents, AreOfLmk, IsFirstRefused, IsLmkRefused, IsLmkText, behind_digits, component_line, component_lines, component_of, lmk_text};
ghost use Rattle.duk_mac.specs.CheckValue.{check_value_of};
ghost use Rattle.duk_tdes.specs.KeyBytes.{bytes_of};
ghost use Rattle.duk_tdes.specs.KeyText.{double_key_of_text, tdes_key_of_text, triple_key_of_text};
ghost use Rattle.duk_tdes.specs.declared.key.KeyBytes.{KeyBytes as KeyValue};

use crate::fault::{ComponentFault, numbered};
use arrayvec::ArrayVec;
use duk_commands::{LINES_ROOM, Lines, add_component, is_weak_key, push_line};
use duk_io::append_hex;
use duk_mac::check_value;
use duk_tdes::{Key, KeyBytes};
use hex::FromHex;

/// The fewest components.
const FEWEST_COMPONENTS: usize = 2;

/// The most components.
pub const MOST_COMPONENTS: usize = 9;

/// How many characters stand behind the digits of a component: a space, and its check value.
const BEHIND_DIGITS: usize = 7;

/// The lines of the check values of components, and of the local master key that they make: for each
/// `component N KCV`, and last `lmk KCV`. The line of a component is its 32 or 48 hexadecimal digits,
/// a space, and its check value in six upper-case digits.
///
/// The faults, in this order: `Number`, `Component` of the first one, `Weak`.
pub fn lmk_lines(texts: &[&str]) -> Result<Lines, ComponentFault>
    ensures lines { IfOk result
        (λ lines. IsLmkText (map (λ text. text.now) texts.now) lines.items) }
    ensures refused { IfErr result (IsLmkRefused (map (λ text. text.now) texts.now)) }
{
    let mut lines = Lines::new();
    match push_values(texts, &mut lines) {
        Ok(_) => Ok(lines),
        Err(why) => Err(why),
    }
}

/// Appends the lines of the check values of components, and of the local master key that they make,
/// and answers that key. The faults are those of `lmk_lines`.
pub(crate) fn push_values(texts: &[&str], lines: &mut Lines) -> Result<KeyBytes, ComponentFault>
    requires empty { array_vec_len lines.old ≡ 0 }
    ensures made { IfOk result (λ lmk. (keys : List KeyValue)
        × AreOfLmk (map (λ text. text.now) texts.now) keys
        × (bytes_of lmk ≡ combined keys)
        × (lines.new.items ≡ lmk_text keys)) }
    ensures len { array_vec_len lines.new ≤ 182 }
    ensures refused { IfErr result (IsLmkRefused (map (λ text. text.now) texts.now)) }
{
    if texts.len() < FEWEST_COMPONENTS || texts.len() > MOST_COMPONENTS {
        return Err(ComponentFault::Number);
    }
    let lmk = match combine(texts, lines) {
        Ok(lmk) => lmk,
        Err(place) => return Err(ComponentFault::Component(place + 1)),
    };
    if is_weak_key(&lmk) {
        return Err(ComponentFault::Weak);
    }
    push_line(lines, b"lmk", &value_of(&lmk));
    Ok(lmk)
}

/// The exclusive or of the components that texts write, and the line of each; or the place of the
/// first that is refused.
fn combine(texts: &[&str], lines: &mut Lines) -> Result<KeyBytes, usize>
    requires some { 1 ≤ length texts.now }
    requires few { length texts.now ≤ MOST_COMPONENTS }
    requires empty { array_vec_len lines.old ≡ 0 }
    ensures combined { IfOk result (λ lmk. (keys : List KeyValue)
        × AreComponents (map (λ text. text.now) texts.now) keys
        × (bytes_of lmk ≡ combined keys)
        × (lines.new.items ≡ component_lines 1 keys)) }
    ensures len { array_vec_len lines.new ≤ 19 * length texts.now }
    ensures refused { IfErr result (IsFirstRefused (map (λ text. text.now) texts.now)) }
{
    let mut sum = None;
    for place in 0..texts.len() {
        let component = match component_of(texts[place]) {
            Some(component) => component,
            None => return Err(place),
        };
        let more = match add_component(sum, &component) {
            Some(more) => more,
            None => return Err(place),
        };
        sum = Some(more);
        push_component(lines, place + 1, &component);
    }
    match sum {
        Some(lmk) => Ok(lmk),
        None => unreachable!(),
    }
}

/// Appends the line of a component's check value.
fn push_component(lines: &mut Lines, place: usize, component: &KeyBytes)
    requires { array_vec_len lines.old + 19 ≤ LINES_ROOM }
    ensures line { lines.new.items ≡ lines.old.items ++ component_line place component.now }
    ensures len { array_vec_len lines.new ≡ array_vec_len lines.old + 19 }
{
    push_line(lines, &numbered(place), &value_of(component));
}

/// The component that a line writes.
fn component_of(line: &str) -> Option<KeyBytes>
    ensures { result ≡ component_of line.now }
{
    let bytes = line.as_bytes();
    let size = bytes.len().saturating_sub(BEHIND_DIGITS);
    let key = key_of(&bytes[..size])?;
    let behind = &bytes[size..];
    if behind == written_value(&key).as_slice() {
        Some(key)
    } else {
        None
    }
}

/// What stands behind the digits of a component.
pub(crate) fn written_value(key: &KeyBytes) -> ArrayVec<u8, BEHIND_DIGITS>
    ensures { result.items ≡ behind_digits key.now }
{
    let mut text = ArrayVec::new();
    text.push(b' ');
    append_hex(&mut text, &value_of(key));
    text
}

/// The check value of a key.
fn value_of(key: &KeyBytes) -> [u8; 3]
    ensures { result ≡ check_value_of (bytes_of key.now) }
{
    match key {
        KeyBytes::Double(key) => check_value(key),
        KeyBytes::Triple(key) => check_value(key),
    }
}

/// The key that 32 or 48 hexadecimal digits of either case write.
fn key_of(digits: &[u8]) -> Option<KeyBytes>
    ensures { result ≡ tdes_key_of_text digits.now }
{
    match double_key(digits) {
        Some(key) => Some(KeyBytes::Double(key)),
        None => match triple_key(digits) {
            Some(key) => Some(KeyBytes::Triple(key)),
            None => None,
        },
    }
}

/// The key that 32 hexadecimal digits write.
fn double_key(digits: &[u8]) -> Option<Key<16>>
    ensures { result ≡ double_key_of_text digits.now }
{
    <[u8; 16] as FromHex>::from_hex(digits).ok().map(Key::new)
}

/// The key that 48 hexadecimal digits write.
fn triple_key(digits: &[u8]) -> Option<Key<24>>
    ensures { result ≡ triple_key_of_text digits.now }
{
    <[u8; 24] as FromHex>::from_hex(digits).ok().map(Key::new)
}
