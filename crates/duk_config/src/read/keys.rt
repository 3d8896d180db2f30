//! The keys of a configuration in the order in which their faults are reported, each read where
//! those before it are right.

ghost use Rattle.std.specs.Prelude.{◌≡◌, ◌≤◌, Some, true, IfOk, IfErr, OnOk, codes, length, map};
ghost use Rattle.toml.specs.View.{table_view, view};
ghost use Rattle.duk_config.specs.ConfigFaults.{IsFirstTableFault, IsRightBefore};
ghost use Rattle.duk_config.specs.ConfigTable.{HasBaseKeys, HasCards, bdk_values, card_values, disk_in};
ghost use Rattle.duk_config.specs.ConfigKeys.{is_config_key};
ghost use Rattle.duk_config.specs.Names.{has_only};
ghost use Rattle.duk_config.specs.Values.{double_key_at, number_at, tdes_key_at};

use super::arrays::{disk_in, values_at};
use super::entries::read_entries;
use super::names::unknown_key;
use super::shown_key::shown_key;
use super::value::{double_key_at, number_at, tdes_key_at};
use crate::fault::{ConfigKey, ScriptFault};
use duk_pin::Card;
use duk_tdes::{Key, KeyBytes};
use std::alloc::Global;
use toml::{Table, Value};

/// Refuses a table with a key that is no key of a configuration.
pub(crate) fn refuse_unknown(alloc: Global, table: &Table) -> Result<(), ScriptFault>
    ensures known { OnOk result (has_only is_config_key (table_view table.now) ≡ true) }
    ensures right { OnOk result (IsRightBefore (table_view table.now) ConfigKey.Lmk) }
    ensures refused { IfErr result (IsFirstTableFault (table_view table.now)) }
{
    let Some(name) = unknown_key(table) else {
        return Ok(());
    };
    Err(ScriptFault::UnknownKey(shown_key(alloc, table, name)?))
}

/// The local master key.
pub(crate) fn read_lmk(table: &Table) -> Result<KeyBytes, ScriptFault>
    requires { IsRightBefore (table_view table.now) ConfigKey.Lmk }
    ensures value { IfOk result
        (λ key. tdes_key_at (codes "lmk") (table_view table.now) ≡ Some key) }
    ensures right { OnOk result (IsRightBefore (table_view table.now) ConfigKey.Zone) }
    ensures fault { IfErr result (λ why. why ≡ ScriptFault.BadKey ConfigKey.Lmk) }
    ensures refused { IfErr result (IsFirstTableFault (table_view table.now)) }
{
    tdes_key_at(table, "lmk").ok_or(ScriptFault::BadKey(ConfigKey::Lmk))
}

/// The zone key.
pub(crate) fn read_zone(table: &Table) -> Result<KeyBytes, ScriptFault>
    requires { IsRightBefore (table_view table.now) ConfigKey.Zone }
    ensures value { IfOk result
        (λ key. tdes_key_at (codes "zone") (table_view table.now) ≡ Some key) }
    ensures right { OnOk result (IsRightBefore (table_view table.now) ConfigKey.Loading) }
    ensures fault { IfErr result (λ why. why ≡ ScriptFault.BadKey ConfigKey.Zone) }
    ensures refused { IfErr result (IsFirstTableFault (table_view table.now)) }
{
    tdes_key_at(table, "zone").ok_or(ScriptFault::BadKey(ConfigKey::Zone))
}

/// The loading key.
pub(crate) fn read_loading(table: &Table) -> Result<Key<16>, ScriptFault>
    requires { IsRightBefore (table_view table.now) ConfigKey.Loading }
    ensures value { IfOk result
        (λ key. double_key_at (codes "loading") (table_view table.now) ≡ Some key) }
    ensures right { OnOk result (IsRightBefore (table_view table.now) ConfigKey.Terminals) }
    ensures fault { IfErr result (λ why. why ≡ ScriptFault.BadKey ConfigKey.Loading) }
    ensures refused { IfErr result (IsFirstTableFault (table_view table.now)) }
{
    double_key_at(table, "loading").ok_or(ScriptFault::BadKey(ConfigKey::Loading))
}

/// The number of terminals.
pub(crate) fn read_terminals(table: &Table) -> Result<u32, ScriptFault>
    requires { IsRightBefore (table_view table.now) ConfigKey.Terminals }
    ensures value { IfOk result
        (λ number. number_at 1 16 (codes "terminals") (table_view table.now) ≡ Some number) }
    ensures bounds { IfOk result (λ number. (1 ≤ number) × (number ≤ 16)) }
    ensures right { OnOk result (IsRightBefore (table_view table.now) ConfigKey.Log) }
    ensures fault { IfErr result (λ why. why ≡ ScriptFault.BadKey ConfigKey.Terminals) }
    ensures refused { IfErr result (IsFirstTableFault (table_view table.now)) }
{
    number_at(table, "terminals", 1, 16).ok_or(ScriptFault::BadKey(ConfigKey::Terminals))
}

/// The room of the log.
pub(crate) fn read_log(table: &Table) -> Result<u32, ScriptFault>
    requires { IsRightBefore (table_view table.now) ConfigKey.Log }
    ensures value { IfOk result
        (λ number. number_at 1 100000 (codes "log") (table_view table.now) ≡ Some number) }
    ensures bounds { IfOk result (λ number. (1 ≤ number) × (number ≤ 100000)) }
    ensures right { OnOk result (IsRightBefore (table_view table.now) ConfigKey.Stores) }
    ensures fault { IfErr result (λ why. why ≡ ScriptFault.BadKey ConfigKey.Log) }
    ensures refused { IfErr result (IsFirstTableFault (table_view table.now)) }
{
    number_at(table, "log", 1, 100_000).ok_or(ScriptFault::BadKey(ConfigKey::Log))
}

/// Whether the stores are disks.
pub(crate) fn read_stores(table: &Table) -> Result<bool, ScriptFault>
    requires { IsRightBefore (table_view table.now) ConfigKey.Stores }
    ensures value { IfOk result
        (λ disk. disk_in (table_view table.now) ≡ Some disk) }
    ensures right { OnOk result (IsRightBefore (table_view table.now) ConfigKey.Bdk) }
    ensures fault { IfErr result (λ why. why ≡ ScriptFault.BadKey ConfigKey.Stores) }
    ensures refused { IfErr result (IsFirstTableFault (table_view table.now)) }
{
    disk_in(table).ok_or(ScriptFault::BadKey(ConfigKey::Stores))
}

/// The base derivation keys.
pub(crate) fn read_bdk(alloc: Global, table: &Table) -> Result<Vec<([u8; 5], Key<16>)>, ScriptFault>
    requires { IsRightBefore (table_view table.now) ConfigKey.Bdk }
    ensures value { IfOk result (λ bdks. HasBaseKeys (table_view table.now) bdks.items) }
    ensures count { IfOk result (λ bdks. (1 ≤ length bdks.items) × (length bdks.items ≤ 8)) }
    ensures right { OnOk result (IsRightBefore (table_view table.now) ConfigKey.Card) }
    ensures refused { IfErr result (IsFirstTableFault (table_view table.now)) }
{
    let values = bdk_values(table)?;
    read_entries(alloc, ConfigKey::Bdk, values)
}

/// The values at `bdk`, where their number is right.
fn bdk_values(table: &Table) -> Result<&[Value], ScriptFault>
    requires { IsRightBefore (table_view table.now) ConfigKey.Bdk }
    ensures values { IfOk result
        (λ values. Some (map view values.now) ≡ bdk_values (table_view table.now)) }
    ensures count { IfOk result (λ values. (1 ≤ length values.now) × (length values.now ≤ 8)) }
    ensures fault { IfErr result (λ why. why ≡ ScriptFault.BadKey ConfigKey.Bdk) }
    ensures refused { IfErr result (IsFirstTableFault (table_view table.now)) }
{
    values_at(table, "bdk", 1, 8).ok_or(ScriptFault::BadKey(ConfigKey::Bdk))
}

/// The cards.
pub(crate) fn read_card(alloc: Global, table: &Table) -> Result<Vec<Card>, ScriptFault>
    requires { IsRightBefore (table_view table.now) ConfigKey.Card }
    ensures value { IfOk result (λ cards. HasCards (table_view table.now) cards.items) }
    ensures count { IfOk result (λ cards. length cards.items ≤ 1000) }
    ensures refused { IfErr result (IsFirstTableFault (table_view table.now)) }
{
    let values = card_values(table)?;
    read_entries(alloc, ConfigKey::Card, values)
}

/// The values at `card`, where their number is right.
fn card_values(table: &Table) -> Result<&[Value], ScriptFault>
    requires { IsRightBefore (table_view table.now) ConfigKey.Card }
    ensures values { IfOk result
        (λ values. Some (map view values.now) ≡ card_values (table_view table.now)) }
    ensures count { IfOk result (λ values. length values.now ≤ 1000) }
    ensures fault { IfErr result (λ why. why ≡ ScriptFault.BadKey ConfigKey.Card) }
    ensures refused { IfErr result (IsFirstTableFault (table_view table.now)) }
{
    values_at(table, "card", 0, 1000).ok_or(ScriptFault::BadKey(ConfigKey::Card))
}
