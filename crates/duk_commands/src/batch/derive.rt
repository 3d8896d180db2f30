//! `derive` of the key serial numbers of an input.

ghost use Rattle.std.specs.Prelude.{IfErr, IfOk, IfSome, OnOk};
ghost use Rattle.duk_commands.specs.KeyArgument.{MeetsKey, key_argument};
ghost use Rattle.duk_commands.specs.Keys.{IsDerivedText};
ghost use Rattle.duk_commands.specs.Ready.{AreNotReady, AreReady};
ghost use Rattle.duk_commands.specs.Start.{IsStartRefused};

use crate::batch::group::usable_number;
use crate::batch::kept::Kept;
use crate::fault::Fault;
use crate::key_argument::KeyArgument;
use crate::keys::{derived_lines, lines_of_derived};
use crate::lines::Lines;

/// `derive`, whose items are key serial numbers of 20 hexadecimal digits.
#[derive(Clone, Copy)]
pub struct DeriveItems<'a> {
    /// The base derivation key, or the initial key of one terminal.
    pub bdk: &'a str,
    /// Whether it is an initial key.
    pub initial: bool,
    /// Whether the keys on the way to each number are printed.
    pub trace: bool,
    /// Whether the keys of the two MACs are printed.
    pub all: bool,
}

impl DeriveItems<'_> {
    /// Whether the key is one, before there is any item. Refused with `BdkRefused`, or with
    /// `InitialRefused` where it is to be an initial key, as each item would be.
    pub fn ready(&self) -> Result<(), Fault>
        ensures ready { OnOk result
            (AreReady (MeetsKey (key_argument self.now.bdk self.now.initial))) }
        ensures refused { IfErr result (AreNotReady
            (MeetsKey (key_argument self.now.bdk self.now.initial))) }
    {
        KeyArgument::new(self.bdk, self.initial).read()?;
        Ok(())
    }

    /// The lines of an item, or why it is refused, as of `derived_lines` of this item alone. `ahead`
    /// are the bytes behind its line, as far as they have come, and `kept` is what earlier items have
    /// left: numbers that come together are derived together.
    pub fn lines(&self, item: &str, ahead: &[u8], kept: &mut Kept) -> Result<Lines, Fault>
        ensures lines { IfOk result (λ lines. IsDerivedText
            (key_argument self.now.bdk self.now.initial) item.now self.now.trace self.now.all
            lines.items) }
        ensures refused { IfErr result
            (IsStartRefused (key_argument self.now.bdk self.now.initial) item.now) }
    {
        if let Some(lines) = self.kept_lines(item, ahead, kept) {
            return Ok(lines);
        }
        let given = KeyArgument::new(self.bdk, self.initial);
        derived_lines(given, item, self.trace, self.all)
    }

    /// The lines of an item by keys that are made of many numbers at once. None: it has none.
    fn kept_lines(&self, item: &str, ahead: &[u8], kept: &mut Kept) -> Option<Lines>
        ensures { IfSome result (λ lines. IsDerivedText (key_argument self.now.bdk self.now.initial)
            item.now self.now.trace self.now.all lines.items) }
    {
        let number = usable_number(item)?;
        let derived = kept.keys(self.bdk, self.initial, number, ahead)?;
        Some(lines_of_derived(&derived.initial, &derived.key, number, self.trace, self.all))
    }
}
