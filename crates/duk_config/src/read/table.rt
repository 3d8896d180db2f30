//! The configuration that a table of TOML states.

ghost use Rattle.std.specs.Prelude.{IfOk, IfErr};
ghost use Rattle.toml.specs.View.{table_view};
ghost use Rattle.duk_config.specs.ConfigFaults.{IsFirstTableFault};
ghost use Rattle.duk_config.specs.ConfigTable.{IsConfigOf};

use super::keys::{
    read_bdk, read_card, read_lmk, read_loading, read_log, read_stores, read_terminals, read_zone,
    refuse_unknown,
};
use crate::config::Config;
use crate::fault::ScriptFault;
use std::alloc::Global;
use toml::Table;

/// The configuration that the table states.
pub(crate) fn read_table(alloc: Global, table: &Table) -> Result<Config, ScriptFault>
    ensures read { IfOk result (IsConfigOf (table_view table.now)) }
    ensures refused { IfErr result (IsFirstTableFault (table_view table.now)) }
{
    refuse_unknown(alloc, table)?;
    let lmk = read_lmk(table)?;
    let zone = read_zone(table)?;
    let loading = read_loading(table)?;
    let terminals = read_terminals(table)?;
    let log = read_log(table)?;
    let disk = read_stores(table)?;
    let bdks = read_bdk(alloc, table)?;
    let cards = read_card(alloc, table)?;
    Ok(Config {
        lmk,
        loading,
        zone,
        terminals,
        log,
        disk,
        bdks,
        cards,
    })
}
