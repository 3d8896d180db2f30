//! An issuer whose cards stand in a slice.

ghost use Rattle.std.specs.Prelude.{◌≡◌, ◌<◌, ◌/◌, ◌%◌, ℕ, Some, None, IsTrue, ◌↔◌, MatchOption, length};
ghost use Rattle.duk_host.specs.Table.{card_code, card_of};
ghost use Rattle.duk_tdes.specs.KeyBytes.{bytes_of};
ghost use Rattle.duk_calls.specs.Answer.{part_at};
ghost use Rattle.duk_calls.specs.Hosts.{AreCards, IsCard, card_in, cards_in};

use crate::pins::{pan_of_digits, pin_of_digits};
use byteorder::{BigEndian, ByteOrder};
use duk_frame::Code;
use duk_host::Issuer;
use duk_pin::{Pan, Pin, decode};
use duk_tdes::KeyBytes;
use std::marker::Model;

/// The bytes of a card, and where its PAN, PIN and limit stand in them. A number of digits stands in
/// front of PAN and PIN.
pub(crate) const CARD: usize = 37;

const PAN_AT: usize = 1;

const PIN_AT: usize = 21;

const LIMIT_AT: usize = 33;

/// An issuer of the cards in a slice, to which PIN blocks come under a zone key. Of two cards with
/// one PAN the first counts.
#[derive(Drop)]
pub(crate) struct Cards<'a> {
    /// The zone key.
    pub(crate) zone: KeyBytes,
    /// The cards, `CARD` bytes each.
    pub(crate) cards: &'a [u8],
}

impl<'a> Model for Cards<'a> {
    ghost use Rattle.duk_host.specs.Table.{CardTable};
    ghost use Rattle.duk_tdes.specs.KeyBytes.{bytes_of};
    ghost use Rattle.duk_calls.specs.Hosts.{cards_in};

    ghost Value = { CardTable };

    ghost view = { λ table. record {
      zone = bytes_of table.zone;
      cards = cards_in table.cards.now;
    } };
}

impl<'a> Cards<'a> {
    /// An issuer of these cards.
    pub(crate) fn new(zone: KeyBytes, cards: &'a [u8]) -> Self
        ensures { result ≡ record { zone = bytes_of zone; cards = cards_in cards.now } }
    {
        Cards { zone, cards }
    }
}

impl<'a> Issuer for Cards<'a> {
    ghost use Rattle.duk_host.specs.Table.{table_decision};

    ghost decides = { table_decision };

    fn decide(&self, pan: &Pan, amount: u32, block: [u8; 8]) -> Code {
        let Some(place) = place_of(self.cards, pan) else {
            return Code::NoCard;
        };
        let card = &self.cards[CARD * place..CARD * place + CARD];
        match decode(self.zone.decrypt(block), pan) {
            Some(pin) => code_of(card, &pin, amount),
            None => Code::Unreadable,
        }
    }
}

/// The place of the first card with a PAN.
fn place_of(cards: &[u8], pan: &Pan) -> Option<usize>
    ensures { MatchOption result (card_of pan.now (cards_in cards.now) ≡ None)
        (λ place. (place < length cards.now / 37)
        × (card_of pan.now (cards_in cards.now) ≡ Some (card_in (part_at 37 cards.now place)))) }
{
    for place in 0..cards.len() / CARD {
        if has_pan(&cards[CARD * place..CARD * place + CARD], pan) {
            return Some(place);
        }
    }
    None
}

/// Whether a card has this PAN.
fn has_pan(card: &[u8], pan: &Pan) -> bool
    requires { length card.now ≡ 37 }
    ensures { IsTrue result ↔ ((card_in card.now).pan ≡ pan.now) }
{
    pan_in(card) == pan.digits().as_bytes()
}

/// The code of a card for a PIN that was entered and an amount.
fn code_of(card: &[u8], pin: &Pin, amount: u32) -> Code
    requires { length card.now ≡ 37 }
    ensures { result ≡ card_code (card_in card.now) pin.now amount }
{
    if !same_digits(pin_in(card), pin.digits().as_bytes()) {
        Code::WrongPin
    } else if amount > limit_in(card) {
        Code::OverLimit
    } else {
        Code::Approved
    }
}

/// The amount up to which a card is approved.
fn limit_in(card: &[u8]) -> u32
    requires { length card.now ≡ 37 }
    ensures { result ≡ (card_in card.now).limit }
{
    BigEndian::read_u32(&card[LIMIT_AT..])
}

/// Whether two PINs are the same. Of two with as many digits all are looked at, so that the time does
/// not tell where they differ.
fn same_digits(one: &[u8], other: &[u8]) -> bool
    ensures { IsTrue result ↔ (one.now ≡ other.now) }
{
    if one.len() != other.len() {
        return false;
    }
    let mut differ = false;
    for i in 0..one.len() {
        differ |= one[i] != other[i];
    }
    !differ
}

/// Whether each place has a card.
pub(crate) fn are_cards(cards: &[u8]) -> bool
    ensures { IsTrue result ↔ AreCards cards.now }
{
    for place in 0..cards.len() / CARD {
        if !is_card(&cards[CARD * place..CARD * place + CARD]) {
            return false;
        }
    }
    true
}

/// Whether a place has a card.
fn is_card(card: &[u8]) -> bool
    requires { length card.now ≡ 37 }
    ensures { IsTrue result ↔ IsCard (card_in card.now) }
{
    pan_of_digits(pan_in(card)).is_some() && pin_of_digits(pin_in(card)).is_some()
}

/// The digits of a card's PAN, where it has one.
fn pan_in(card: &[u8]) -> &[u8]
    requires { length card.now ≡ 37 }
    ensures { result.now ≡ (card_in card.now).pan }
{
    let end = PAN_AT + usize::from(card[0]);
    &card[PAN_AT..end.min(card.len())]
}

/// The digits of a card's PIN, where it has one.
fn pin_in(card: &[u8]) -> &[u8]
    requires { length card.now ≡ 37 }
    ensures { result.now ≡ (card_in card.now).pin }
{
    let end = PIN_AT + usize::from(card[PIN_AT - 1]);
    &card[PIN_AT..end.min(card.len())]
}
