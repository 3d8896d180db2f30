//! What a customer pays.

use duk_pin::{Pan, Pin};

/// A card, its PIN and an amount. It has no `Debug`, so that no PIN is printed by chance.
#[derive(Clone, Copy, PartialEq, Eq)]
pub struct Purchase {
    /// The card.
    pub pan: Pan,
    /// The PIN that was entered.
    pub pin: Pin,
    /// The amount, in the smallest unit of the currency.
    pub amount: u32,
}
