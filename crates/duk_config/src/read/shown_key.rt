//! How a fault names a key that is none of a configuration's.

ghost use Rattle.std.specs.Prelude.{◌≡◌, IfOk, filter, length, string_bytes};
ghost use Rattle.std.specs.BTreeMap.{keys};
ghost use Rattle.std.specs.List.{list_all};
ghost use Rattle.toml.specs.View.{table_view};
ghost use Rattle.duk_config.specs.ShownKey.{is_plain, is_plain_byte, is_up_to, place_of, shown_key};

use std::alloc::{AllocError, Global};
use std::cmp::Ordering;
use toml::Table;

/// The bytes of the longest name that is shown.
const LONGEST_NAME: usize = 16;

/// How a fault names a key of the table: by its name where that is plain, else by its place, since a
/// secret may stand where a name should, and a line end in a name.
pub(crate) fn shown_key(alloc: Global, table: &Table, name: &str) -> Result<String, AllocError>
    ensures { IfOk result
        (λ text. string_bytes text ≡ shown_key name.now (table_view table.now)) }
{
    if is_plain(name) {
        String::from_str(alloc, name)
    } else {
        let place = place_of(table, name);
        format!(in alloc; "key {place}")
    }
}

/// Whether a name has 1 to 16 bytes, which are small letters, `_` and `-`.
fn is_plain(name: &str) -> bool
    ensures { result ≡ is_plain name.now }
{
    1 <= name.len() && name.len() <= LONGEST_NAME && are_plain(name.as_bytes())
}

fn are_plain(name: &[u8]) -> bool
    ensures { result ≡ list_all is_plain_byte name.now }
{
    name.iter().all(|byte| is_plain_byte(*byte))
}

fn is_plain_byte(byte: u8) -> bool
    ensures { result ≡ is_plain_byte byte }
{
    (97 <= byte && byte <= 122) || byte == 95 || byte == 45
}

/// The place of a name among those of the table in byte order, counted from 1.
#[tactic(auto, using(crate::proofs::NamesOfTables::place_of_keys))]
fn place_of(table: &Table, name: &str) -> usize
    ensures { result ≡ place_of name.now (table_view table.now) }
{
    count_up_to(table, name)
}

/// How many of the table's keys are this name or stand before it.
fn count_up_to(table: &Table, name: &str) -> usize
    ensures { result
        ≡ length (filter (λ other. is_up_to name.now (string_bytes other)) (keys table.now)) }
{
    table
        .keys()
        .filter(|other| is_up_to(name, other.as_str()))
        .count()
}

/// Whether another name is this one, or stands before it in byte order.
fn is_up_to(name: &str, other: &str) -> bool
    ensures { result ≡ is_up_to name.now other.now }
{
    match other.cmp(name) {
        Ordering::Less | Ordering::Equal => true,
        Ordering::Greater => false,
    }
}
