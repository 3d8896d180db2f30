//! What a table of TOML holds at `stores`, `bdk` and `card`.

ghost use Rattle.std.specs.Prelude.{◌≡◌, ◌≤◌, IfSome, length, map};
ghost use Rattle.std.specs.Option.{option_map};
ghost use Rattle.toml.specs.Data.{get_member};
ghost use Rattle.toml.specs.View.{table_view, view};
ghost use Rattle.duk_config.specs.ConfigTable.{disk_in, disk_of_text, values_at, values_or_none};

use super::value::value_at;
use toml::{Table, Value};

/// The values of the array at a key, where they are at least and at most so many, and none where
/// the key is not there.
pub(crate) fn values_at<'a>(
    table: &'a Table,
    name: &str,
    least: usize,
    most: usize,
) -> Option<&'a [Value]>
    ensures values { option_map (λ values. map view values.now) result
        ≡ values_at least most name.now (table_view table.now) }
    ensures count { IfSome result
        (λ values. (least ≤ length values.now) × (length values.now ≤ most)) }
{
    let values = values_or_none(table, name)?;
    if least <= values.len() && values.len() <= most {
        Some(values)
    } else {
        None
    }
}

/// The values of the array at a key, and none where the key is not there.
#[tactic(auto, using(crate::proofs::ArrayValues::values_of_items))]
fn values_or_none<'a>(table: &'a Table, name: &str) -> Option<&'a [Value]>
    ensures { option_map (λ values. map view values.now) result
        ≡ values_or_none (get_member name.now (table_view table.now)) }
{
    match value_at(table, name) {
        Some(value) => match value.as_array() {
            Some(array) => Some(array.as_slice()),
            None => None,
        },
        None => Some(&[]),
    }
}

/// Whether the stores are disks.
pub(crate) fn disk_in(table: &Table) -> Option<bool>
    ensures { result ≡ disk_in (table_view table.now) }
{
    match value_at(table, "stores") {
        Some(value) => match value.as_str() {
            Some(text) => disk_of(text),
            None => None,
        },
        None => Some(false),
    }
}

/// Whether stores of this name are disks.
fn disk_of(text: &str) -> Option<bool>
    ensures { result ≡ disk_of_text text.now }
{
    if text == "disk" {
        Some(true)
    } else if text == "memory" {
        Some(false)
    } else {
        None
    }
}
