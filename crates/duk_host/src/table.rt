//! An issuer that knows its cards by a table.

ghost use Rattle.std.specs.Prelude.{◌≡◌};
ghost use Rattle.duk_tdes.specs.KeyBytes.{bytes_of};
ghost use Rattle.duk_host.specs.Table.{card_code, card_of, table_decision};

use crate::issuer::Issuer;
use duk_frame::Code;
use duk_pin::{Card, Pan, Pin, decode};
use duk_tdes::KeyBytes;
use std::marker::Model;

/// An issuer with a table of cards, to which PIN blocks come under a zone key.
#[derive(Drop)]
pub struct TableIssuer {
    zone: KeyBytes,
    cards: Vec<Card>,
}

impl Model for TableIssuer {
    ghost use Rattle.duk_tdes.specs.KeyBytes.{bytes_of};
    ghost use Rattle.duk_host.specs.Table.{CardTable};

    ghost Value = { CardTable };

    ghost view = { λ issuer. record { zone = bytes_of issuer.zone; cards = issuer.cards.items } };
}

impl TableIssuer {
    /// An issuer of these cards. Of two cards with one PAN the first counts.
    pub fn new(zone: KeyBytes, cards: Vec<Card>) -> Self
        ensures { result ≡ record { zone = bytes_of zone; cards = cards.items } }
    {
        TableIssuer { zone, cards }
    }
}

/// The first of these cards with a PAN.
fn card_of(cards: &[Card], pan: &Pan) -> Option<Card>
    ensures { result ≡ card_of pan.now cards.now }
{
    cards.iter().find(|card| card.pan == *pan).copied()
}

impl Issuer for TableIssuer {
    ghost decides = { table_decision };

    fn decide(&self, pan: &Pan, amount: u32, block: [u8; 8]) -> Code {
        let Some(card) = card_of(self.cards.as_slice(), pan) else {
            return Code::NoCard;
        };
        match decode(self.zone.decrypt(block), pan) {
            Some(pin) => code_of(&card, &pin, amount),
            None => Code::Unreadable,
        }
    }
}

/// The code of a card for a PIN that was entered and an amount.
fn code_of(card: &Card, pin: &Pin, amount: u32) -> Code
    ensures { result ≡ card_code card.now pin.now amount }
{
    if card.pin != *pin {
        Code::WrongPin
    } else if amount > card.limit {
        Code::OverLimit
    } else {
        Code::Approved
    }
}
