//! The entries of an array of tables.

ghost use Rattle.std.specs.Prelude.{◌≡◌, ◌↔◌, IsTrue, MatchOption};
ghost use Rattle.toml.specs.Data.{Data};
ghost use Rattle.toml.specs.View.{view};
ghost use Rattle.duk_config.specs.Entries.{HaveOnePan, HaveOnePrefix, StatesBaseKey, StatesCard};

use super::names::{has_only_bdk_keys, has_only_card_keys};
use super::value::{double_key_at, number_at, prefix_at, text_at};
use duk_pin::{Card, Pan, Pin};
use duk_tdes::Key;
use toml::Value;

/// What a value of an array states.
pub(crate) trait Entry: Copy {
    ghost States: { Data → Self → Type 0 };

    ghost Repeats: { Self → Self → Type 0 };

    /// What the value states.
    fn read(value: &Value) -> Option<Self>
        ensures { MatchOption result ((entry : Self) → ¬ States (view value.now) entry)
            (States (view value.now)) };

    /// Whether this may not stand after the other.
    fn repeats(&self, other: &Self) -> bool
        ensures { IsTrue result ↔ Repeats other.now self.now };
}

/// A base derivation key, after the prefix of the key serial numbers that it is for.
impl Entry for ([u8; 5], Key<16>) {
    ghost States = { StatesBaseKey };

    ghost Repeats = { HaveOnePrefix };

    fn read(value: &Value) -> Option<([u8; 5], Key<16>)> {
        let table = value.as_table()?;
        if !has_only_bdk_keys(table) {
            return None;
        }
        let prefix = prefix_at(table, "prefix")?;
        let key = double_key_at(table, "key")?;
        Some((prefix, key))
    }

    fn repeats(&self, other: &([u8; 5], Key<16>)) -> bool {
        other.0 == self.0
    }
}

impl Entry for Card {
    ghost States = { StatesCard };

    ghost Repeats = { HaveOnePan };

    fn read(value: &Value) -> Option<Card> {
        let table = value.as_table()?;
        if !has_only_card_keys(table) {
            return None;
        }
        let pan = Pan::parse(text_at(table, "pan")?).ok()?;
        let pin = Pin::parse(text_at(table, "pin")?).ok()?;
        let limit = number_at(table, "limit", 0, u32::MAX)?;
        Some(Card { pan, pin, limit })
    }

    fn repeats(&self, other: &Card) -> bool {
        other.pan == self.pan
    }
}
