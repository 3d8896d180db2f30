//! What a configuration says.

use duk_pin::Card;
use duk_tdes::{Key, KeyBytes};
use std::marker::Model;

/// The configuration of a payment network. It has no `Debug`, so that no key and no PIN is printed
/// by chance.
#[derive(Drop)]
pub struct Config {
    /// The local master key of the security module.
    pub lmk: KeyBytes,
    /// The key under which terminals are loaded.
    pub loading: Key<16>,
    /// The zone key, under which PIN blocks go to the issuer.
    pub zone: KeyBytes,
    /// How many terminals there are: 1 to 16.
    pub terminals: u32,
    /// How many numbers the log of used numbers has room for: 1 to 100,000.
    pub log: u32,
    /// Whether the terminals' cells and the host's log are on disks, or in memory.
    pub disk: bool,
    /// The base derivation keys, 1 to 8, each after the first five bytes of the key serial numbers
    /// that it is for, which differ.
    pub bdks: Vec<([u8; 5], Key<16>)>,
    /// The cards that the issuer knows, at most 1,000, with account numbers that differ.
    pub cards: Vec<Card>,
}

impl Model for Config {
    ghost use Rattle.duk_config.specs.Settings.{AreSettings, Settings, settings};

    ghost Value = { Settings };

    ghost view = { λ config. settings config.lmk config.loading config.zone config.terminals
        config.log config.disk config.bdks.items config.cards.items };

    ghost invariant = { λ config. AreSettings (settings config.lmk config.loading config.zone
        config.terminals config.log config.disk config.bdks.items config.cards.items) };
}
