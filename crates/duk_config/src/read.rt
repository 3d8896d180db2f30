//! Reading a configuration.

ghost use Rattle.std.specs.Prelude.{◌≡◌, IfOk, IfErr};
ghost use Rattle.toml.specs.View.{table_view};
ghost use Rattle.duk_config.specs.ConfigFile.{IsConfigFault, IsConfigFile, IsToml};
ghost use Rattle.duk_config.specs.inner.ConfigFile.{NoTable};

mod arrays;
mod entries;
mod entry;
mod keys;
mod names;
mod shown_key;
mod table;
mod value;

use crate::config::Config;
use crate::fault::ScriptFault;
use std::alloc::Global;
use table::read_table;
use toml::Table;

/// The bytes of the longest file that is read, a configuration or a script.
pub const LONGEST_FILE: usize = 1_048_576;

/// Reads a configuration.
///
/// Refused with the first of these: `ConfigTooLong`, above 1,048,576 bytes; `NotToml`, for what is
/// no UTF-8 or no TOML; `UnknownKey`, the first in byte order, by its name where that has at most
/// 16 bytes of `a` to `z`, `_` and `-`, else as `key` and its place among the keys in byte order; then, in the order lmk, zone,
/// loading, terminals, log, stores, bdk, card, `BadKey` for a key that is missing or has a wrong
/// value or a wrong number of entries, and `BadEntry` for its first entry, counted from 1, with a
/// missing, unknown, wrong or repeated value. `stores` and `card` may be missing. `NoMemory` where
/// memory was refused.
pub fn read_config(alloc: Global, bytes: &[u8]) -> Result<Config, ScriptFault>
    ensures read { IfOk result (IsConfigFile bytes.now) }
    ensures refused { IfErr result (IsConfigFault bytes.now) }
{
    if bytes.len() > LONGEST_FILE {
        return Err(ScriptFault::ConfigTooLong);
    }
    let table = parse_table(alloc, bytes)?;
    read_table(alloc, &table)
}

/// The table of a text of TOML.
fn parse_table(alloc: Global, bytes: &[u8]) -> Result<Table, ScriptFault>
    ensures read { IfOk result (λ table. IsToml bytes.now (table_view table)) }
    ensures refused { IfErr result (NoTable bytes.now) }
{
    match toml::table_from_slice(alloc, bytes) {
        Ok(table) => Ok(table),
        Err(error) if error.is_memory() => Err(ScriptFault::NoMemory),
        Err(_) => Err(ScriptFault::NotToml),
    }
}
