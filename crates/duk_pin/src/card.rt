//! Cards.

use crate::pan::Pan;
use crate::pin::Pin;

/// A card, as its issuer knows it. It has no `Debug`, so that no PIN is printed by chance.
#[derive(Clone, Copy)]
pub struct Card {
    /// Its account number.
    pub pan: Pan,
    /// Its PIN.
    pub pin: Pin,
    /// The greatest amount of a payment, in the smallest unit of the currency.
    pub limit: u32,
}
