//! What is read in a configuration and a script, what the script writes, and the lines of faults.

use duk_config::{Config, ConfigKey, ScriptFault, read_config};
use duk_script::{parse_script, run_script};
use duk_tdes::KeyBytes;
use duk_tests_support::files::{BANK, LINES, SCRIPT};
use duk_tests_support::printed::misprinted;
use duk_tests_support::sample::{LMK, LOADING, ZONE};
use std::alloc::Global;
use std::test::Fail;

/// The number that a key of 16 bytes makes.
fn number_of(key: &KeyBytes) -> Option<u128> {
    match key {
        KeyBytes::Double(key) => Some(u128::from_be_bytes(key.bytes())),
        KeyBytes::Triple(_) => None,
    }
}

/// Whether a configuration has the sample keys.
fn has_sample_keys(config: &Config) -> bool {
    number_of(&config.lmk) == Some(LMK)
        && number_of(&config.zone) == Some(ZONE)
        && u128::from_be_bytes(config.loading.bytes()) == LOADING
}

/// Whether the configuration has the sample keys; and its terminals, the room of its log, and how
/// many base derivation keys and cards it has.
fn of_bank(alloc: Global) -> Option<(bool, [u32; 2], [usize; 2])> {
    let config = read_config(alloc, BANK.as_bytes()).ok()?;
    Some((
        has_sample_keys(&config) && !config.disk,
        [config.terminals, config.log],
        [config.bdks.len(), config.cards.len()],
    ))
}

#[test]
fn a_configuration(rt: HostRuntime) {
    assert_eq!(rt; of_bank(rt.alloc()), Some((true, [2, 100], [1, 1])));
}

/// How many events the script has.
fn events_of_script(alloc: Global) -> Option<usize> {
    Some(parse_script(alloc, SCRIPT.as_bytes()).ok()?.len())
}

/// Whether it writes its lines.
fn writes_its_lines(alloc: Global) -> bool {
    let mut written = Vec::new(alloc);
    let reported = run_script(alloc, BANK.as_bytes(), &mut SCRIPT.as_bytes(), &mut written);
    reported == Ok(()) && written.as_slice() == LINES.as_bytes()
}

#[test]
fn a_script(rt: HostRuntime) {
    assert_eq!(rt; events_of_script(rt.alloc()), Some(14));
    assert!(rt; writes_its_lines(rt.alloc()));
}

#[test]
fn lines_of_faults(rt: HostRuntime) -> Result<(), Fail> {
    let name = String::from_str(rt.alloc(), "port")?;
    let table = [
        (ScriptFault::ConfigTooLong, "config: too long"),
        (ScriptFault::NotToml, "config: not TOML"),
        (ScriptFault::UnknownKey(name), "config: unknown port"),
        (ScriptFault::BadKey(ConfigKey::Lmk), "config: bad lmk"),
        (
            ScriptFault::BadEntry(ConfigKey::Card, 1000),
            "config: bad card 1000",
        ),
        (ScriptFault::CannotRead, "script: cannot read"),
        (ScriptFault::TooLong, "script: too long"),
        (
            ScriptFault::NotAnEvent(524_288),
            "line 524288: not an event",
        ),
        (ScriptFault::WriteFailed, "script: write failed"),
        (ScriptFault::NoMemory, "out of memory"),
    ];
    assert_eq!(rt; misprinted(rt.alloc(), &table), Ok(None));
    Ok(())
}
