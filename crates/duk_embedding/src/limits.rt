//! An issuer of one's own.

ghost use Rattle.std.specs.Prelude.{◌≡◌};
ghost use Rattle.duk_embedding.specs.Limits.{limited_card_of, limited_code, limit_decision};

use duk_frame::Code;
use duk_host::Issuer;
use duk_pin::Pan;
use std::marker::Model;

/// A card, and the greatest amount of a payment with it.
#[derive(Clone, Copy)]
pub struct LimitedCard {
    /// Its account number.
    pub pan: Pan,
    /// The greatest amount, in the smallest unit of the currency.
    pub limit: u32,
}

/// An issuer of cards for small amounts, which looks at no PIN. One that does holds the zone key,
/// as `TableIssuer` of `duk_host`, or sends PAN, amount and PIN block to where the cards are.
#[derive(Drop)]
pub struct LimitIssuer {
    cards: Vec<LimitedCard>,
}

impl Model for LimitIssuer {
    ghost use Rattle.std.specs.Prelude.{List};
    ghost use Rattle.duk_embedding.specs.declared.limits.LimitedCard.{LimitedCard};

    ghost Value = { List LimitedCard };

    ghost view = { λ issuer. issuer.cards.items };
}

impl LimitIssuer {
    /// An issuer of these cards. Of two cards with one PAN the first counts.
    pub fn new(cards: Vec<LimitedCard>) -> Self
        ensures { result ≡ cards.items }
    {
        LimitIssuer { cards }
    }
}

impl Issuer for LimitIssuer {
    // What this issuer decides, as a function. The laws of the host speak of it.
    ghost decides = { limit_decision };

    fn decide(&self, pan: &Pan, amount: u32, _block: [u8; 8]) -> Code {
        code_for(limited_card_of(self.cards.as_slice(), pan), amount)
    }
}

/// The first of these cards with a PAN.
fn limited_card_of(cards: &[LimitedCard], pan: &Pan) -> Option<LimitedCard>
    ensures { result ≡ limited_card_of pan.now cards.now }
{
    cards.iter().find(|card| card.pan == *pan).copied()
}

/// The code for the card that was found and an amount.
fn code_for(card: Option<LimitedCard>, amount: u32) -> Code
    ensures { result ≡ limited_code card amount }
{
    match card {
        None => Code::NoCard,
        Some(card) if amount > card.limit => Code::OverLimit,
        Some(_) => Code::Approved,
    }
}
