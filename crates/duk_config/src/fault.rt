//! Why a configuration or a script is refused.

ghost use Rattle.std.specs.Prelude.{◌≡◌};
ghost use Rattle.duk_config.specs.ConfigKeys.{key_name};
ghost use Rattle.duk_config.specs.declared.fault.ScriptFault.TheVariants.{NoMemory};

use std::alloc::{AllocError, AllocFailed};
use std::error::Error;
use std::fmt;

/// A key of a configuration. `Display` writes it as it stands in the file.
#[derive(Debug, Clone, Copy, PartialEq, Eq)]
pub enum ConfigKey {
    /// The local master key of the security module.
    Lmk,
    /// The zone key, under which PIN blocks go to the issuer.
    Zone,
    /// The key under which terminals are loaded.
    Loading,
    /// How many terminals there are.
    Terminals,
    /// How many numbers the log of used numbers has room for.
    Log,
    /// What the stores are.
    Stores,
    /// The base derivation keys.
    Bdk,
    /// The cards that the issuer knows.
    Card,
}

impl ConfigKey {
    /// The key as it stands in the file.
    pub fn name(self) -> &'static str
        ensures { result.now ≡ key_name self }
    {
        match self {
            ConfigKey::Lmk => "lmk",
            ConfigKey::Zone => "zone",
            ConfigKey::Loading => "loading",
            ConfigKey::Terminals => "terminals",
            ConfigKey::Log => "log",
            ConfigKey::Stores => "stores",
            ConfigKey::Bdk => "bdk",
            ConfigKey::Card => "card",
        }
    }
}

impl fmt::Display for ConfigKey {
    ghost use Rattle.std.specs.Prelude.{Some};

    ghost output = { λ key. Some (key_name key) };

    fn fmt<W: fmt::Write>(&self, f: &mut fmt::Formatter<W>) -> fmt::Result {
        f.write_str(self.name())
    }
}

/// Why a configuration or a script is refused, or its outcomes are not written. `Display` writes
/// the fault's line, without its LF.
#[derive(Debug, PartialEq, Eq, Drop)]
pub enum ScriptFault {
    /// The configuration has more than 1,048,576 bytes.
    ConfigTooLong,
    /// The configuration is no UTF-8 or no TOML.
    NotToml,
    /// The configuration has a key that is none of its keys: the first such key in byte order, by
    /// its name where that is plain, else by its place.
    UnknownKey(String),
    /// The value of a key is missing or wrong, or has a wrong number of entries.
    BadKey(ConfigKey),
    /// An entry of a key has a missing, unknown, wrong or repeated value. Entries are counted from
    /// 1.
    BadEntry(ConfigKey, u64),
    /// The script's file cannot be opened, or a read of it failed.
    CannotRead,
    /// The script has more than 1,048,576 bytes.
    TooLong,
    /// A line of the script is no event. Lines are counted from 1.
    NotAnEvent(u64),
    /// An outcome could not be written.
    WriteFailed,
    /// Memory was refused.
    NoMemory,
}

impl fmt::Display for ScriptFault {
    ghost use Rattle.std.specs.Prelude.{Some};
    ghost use Rattle.duk_config.specs.FaultText.{script_fault_text};

    ghost output = { λ fault. Some (script_fault_text fault) };

    fn fmt<W: fmt::Write>(&self, f: &mut fmt::Formatter<W>) -> fmt::Result {
        match self {
            ScriptFault::ConfigTooLong => f.write_str("config: too long"),
            ScriptFault::NotToml => f.write_str("config: not TOML"),
            ScriptFault::UnknownKey(name) => write!(f, "config: unknown {name}"),
            ScriptFault::BadKey(key) => write!(f, "config: bad {key}"),
            ScriptFault::BadEntry(key, place) => write!(f, "config: bad {key} {place}"),
            ScriptFault::CannotRead => f.write_str("script: cannot read"),
            ScriptFault::TooLong => f.write_str("script: too long"),
            ScriptFault::NotAnEvent(line) => write!(f, "line {line}: not an event"),
            ScriptFault::WriteFailed => f.write_str("script: write failed"),
            ScriptFault::NoMemory => f.write_str("out of memory"),
        }
    }
}

impl Error for ScriptFault {}

impl From<AllocError> for ScriptFault {
    ghost from_gives = { λ _ fault. fault ≡ NoMemory };

    fn from(_: AllocError) -> ScriptFault {
        ScriptFault::NoMemory
    }
}

impl<T: Drop> From<AllocFailed<T>> for ScriptFault {
    ghost from_gives = { λ _ fault. fault ≡ NoMemory };

    fn from(_: AllocFailed<T>) -> ScriptFault {
        ScriptFault::NoMemory
    }
}
