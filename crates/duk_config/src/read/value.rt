//! What a table of TOML holds at a key.

ghost use Rattle.std.specs.Prelude.{◌≡◌, ◌≤◌, IfSome};
ghost use Rattle.std.specs.Option.{option_and_then, option_copied, option_map};
ghost use Rattle.toml.specs.Data.{as_integer, get_member};
ghost use Rattle.toml.specs.View.{table_view, view};
ghost use Rattle.duk_config.specs.Values.{double_key_at, number_at, number_within, prefix_at, tdes_key_at, text_at};

use duk_tdes::{Key, KeyBytes};
use hex::FromHex;
use toml::{Table, Value};

/// The value at a key.
pub(crate) fn value_at<'a>(table: &'a Table, name: &str) -> Option<&'a Value>
    ensures { option_map (λ value. view value.now) result
        ≡ get_member name.now (table_view table.now) }
{
    table.get(name)
}

/// The text at a key.
pub(crate) fn text_at<'a>(table: &'a Table, name: &str) -> Option<&'a str>
    ensures { option_copied result ≡ text_at name.now (table_view table.now) }
{
    match value_at(table, name) {
        Some(value) => value.as_str(),
        None => None,
    }
}

/// The prefix of key serial numbers that the text at a key writes.
pub(crate) fn prefix_at(table: &Table, name: &str) -> Option<[u8; 5]>
    ensures { result ≡ prefix_at name.now (table_view table.now) }
{
    match text_at(table, name) {
        Some(text) => <[u8; 5] as FromHex>::from_hex(text).ok(),
        None => None,
    }
}

/// The double-length key that the text at a key writes.
pub(crate) fn double_key_at(table: &Table, name: &str) -> Option<Key<16>>
    ensures { result ≡ double_key_at name.now (table_view table.now) }
{
    match text_at(table, name) {
        Some(text) => Key::<16>::parse(text),
        None => None,
    }
}

/// The key of either length that the text at a key writes.
pub(crate) fn tdes_key_at(table: &Table, name: &str) -> Option<KeyBytes>
    ensures { result ≡ tdes_key_at name.now (table_view table.now) }
{
    match text_at(table, name) {
        Some(text) => KeyBytes::parse(text),
        None => None,
    }
}

/// The whole number at a key, where it is at least `least` and at most `most`.
pub(crate) fn number_at(table: &Table, name: &str, least: u32, most: u32) -> Option<u32>
    ensures value { result ≡ number_at least most name.now (table_view table.now) }
    ensures bounds { IfSome result (λ number. (least ≤ number) × (number ≤ most)) }
{
    match value_at(table, name) {
        Some(value) => match value.as_integer() {
            Some(number) => number_within(number, least, most),
            None => None,
        },
        None => None,
    }
}

/// The number, where it is within these bounds.
fn number_within(number: i64, least: u32, most: u32) -> Option<u32>
    ensures value { result ≡ number_within least most number }
    ensures bounds { IfSome result (λ number. (least ≤ number) × (number ≤ most)) }
{
    match u32::try_from(number) {
        Ok(number) if least <= number && number <= most => Some(number),
        _ => None,
    }
}
