//! A law of configurations, the contract of a function that does nothing.

ghost use Rattle.std.specs.Prelude.{◌≡◌, ◌≢◌, ℕ, List};
ghost use Rattle.duk_config.specs.declared.fault.ScriptFault.{ScriptFault};
ghost use Rattle.duk_config.specs.declared.fault.ScriptFault.TheVariants.{NoMemory};
ghost use Rattle.duk_config.specs.ConfigFaults.{AreOneFault};
ghost use Rattle.duk_config.specs.ConfigFile.{IsConfigFault, IsConfigFile};
ghost use Rattle.duk_config.specs.Settings.{Settings};

/// A file states at most one configuration, and one that does has no fault. So `read_config` gives
/// the configuration of each file that states one, unless memory is refused. A file has at most one
/// fault, but that memory may be refused in place of it.
pub fn one_configuration()
    ensures one { (bytes : List ℕ) (config other : Settings) → IsConfigFile bytes config
        → IsConfigFile bytes other → config ≡ other }
    ensures no_fault { (bytes : List ℕ) (config : Settings) (why : ScriptFault)
        → IsConfigFile bytes config → IsConfigFault bytes why → why ≡ NoMemory }
    ensures one_fault { (bytes : List ℕ) (why other : ScriptFault) → IsConfigFault bytes why
        → IsConfigFault bytes other → why ≢ NoMemory → other ≢ NoMemory → AreOneFault why other }
{}
