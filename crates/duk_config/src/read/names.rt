//! The names in a table of TOML.

ghost use Rattle.std.specs.Prelude.{◌≡◌, MatchOption, not, string_bytes, true};
ghost use Rattle.std.specs.BTreeMap.{keys};
ghost use Rattle.std.specs.List.{find, list_all};
ghost use Rattle.std.specs.List.Sorted.{IsStrictlySortedBy};
ghost use Rattle.std.specs.Option.{option_copied};
ghost use Rattle.std.specs.String.{string_cmp};
ghost use Rattle.toml.specs.View.{table_view};
ghost use Rattle.duk_config.specs.ConfigKeys.{is_bdk_key, is_card_key, is_config_key};
ghost use Rattle.duk_config.specs.Names.{IsFirstUnknown, has_only};

use toml::Table;

/// The first name, in byte order, that is no key of a configuration.
pub(crate) fn unknown_key(table: &Table) -> Option<&str>
    ensures { MatchOption result (has_only is_config_key (table_view table.now) ≡ true)
        (λ name. IsFirstUnknown is_config_key (table_view table.now) name.now) }
{
    match unknown_string(table) {
        Some(name) => Some(name.as_str()),
        None => None,
    }
}

/// Whether each name is a key of an entry of `bdk`.
#[tactic(auto, using(crate::proofs::NamesOfTables::has_only_keys))]
pub(crate) fn has_only_bdk_keys(table: &Table) -> bool
    ensures { result ≡ has_only is_bdk_key (table_view table.now) }
{
    are_bdk_keys(table)
}

/// Whether each name is a key of an entry of `card`.
#[tactic(auto, using(crate::proofs::NamesOfTables::has_only_keys))]
pub(crate) fn has_only_card_keys(table: &Table) -> bool
    ensures { result ≡ has_only is_card_key (table_view table.now) }
{
    are_card_keys(table)
}

/// The first string among the table's keys that is no key of a configuration.
fn unknown_string(table: &Table) -> Option<&String>
    ensures found { option_copied result
        ≡ find (λ name. not (is_config_key (string_bytes name))) (keys table.now) }
    ensures order { IsStrictlySortedBy string_cmp (keys table.now) }
{
    table.keys().find(|name| !is_config_key(name.as_str()))
}

/// Whether each string among the table's keys is a key of an entry of `bdk`.
fn are_bdk_keys(table: &Table) -> bool
    ensures { result ≡ list_all (λ name. is_bdk_key (string_bytes name)) (keys table.now) }
{
    table.keys().all(|name| is_bdk_key(name.as_str()))
}

/// Whether each string among the table's keys is a key of an entry of `card`.
fn are_card_keys(table: &Table) -> bool
    ensures { result ≡ list_all (λ name. is_card_key (string_bytes name)) (keys table.now) }
{
    table.keys().all(|name| is_card_key(name.as_str()))
}

fn is_config_key(name: &str) -> bool
    ensures { result ≡ is_config_key name.now }
{
    name == "lmk"
        || name == "zone"
        || name == "loading"
        || name == "terminals"
        || name == "log"
        || name == "stores"
        || name == "bdk"
        || name == "card"
}

fn is_bdk_key(name: &str) -> bool
    ensures { result ≡ is_bdk_key name.now }
{
    name == "prefix" || name == "key"
}

fn is_card_key(name: &str) -> bool
    ensures { result ≡ is_card_key name.now }
{
    name == "pan" || name == "pin" || name == "limit"
}
