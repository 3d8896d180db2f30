//! What is opened together.

ghost use Rattle.std.specs.Prelude.{◌≡◌, ◌<◌, ◌≤◌, None, Some, [], IfSome, length};
ghost use Rattle.duk_des.specs.Block.{IsBlock};

use crate::pin_block::PinBlock;
use crate::text::ShortText;
use duk_pin::Pan;
use duk_tdes::array_of;
use duk_tree::Ksn;
use std::marker::Model;

/// A key serial number that is opened together with others, and what its transaction is going to be
/// asked first.
#[derive(Clone, Copy)]
pub struct Asked {
    ksn: Ksn,
    text: ShortText,
    pin: Option<PinBlock>,
}

impl Model for Asked {
    ghost use Rattle.std.specs.Prelude.{IfSome};
    ghost use Rattle.duk_des.specs.Block.{IsBlock};
    ghost use Rattle.duk_hsm.specs.Group.{AskedNumber};

    ghost Value = { AskedNumber };

    ghost view = { λ asked. record { ksn = asked.ksn; text = asked.text; pin = asked.pin } };

    ghost invariant = { λ asked. IfSome asked.pin (λ pin. IsBlock pin.block) };

    ghost inverse = { λ asked. record { ksn = asked.ksn; text = asked.text; pin = asked.pin } };
}

impl Asked {
    /// The key serial number of a request, with the text whose MAC is going to be verified, and the
    /// PIN block that is going to be translated, with its PAN. Where the text has more than 64
    /// bytes, its MAC is not made beforehand.
    pub fn request(ksn: Ksn, text: &[u8], block: [u8; 8], pan: &Pan) -> Self
        ensures ksn { result.ksn ≡ ksn }
        ensures text { length text.now ≤ 64 → result.text ≡ text.now }
        ensures long { 64 < length text.now → result.text ≡ [] }
        ensures pin { result.pin ≡ Some (record { block = block; pan = pan.now }) }
    {
        Asked {
            ksn,
            text: ShortText::new(text),
            pin: Some(PinBlock {
                block: array_of(&block),
                pan: *pan,
            }),
        }
    }

    /// The key serial number of a reversal, with the text whose MAC is going to be verified. There
    /// is nothing to translate.
    pub fn reversal(ksn: Ksn, text: &[u8]) -> Self
        ensures ksn { result.ksn ≡ ksn }
        ensures text { length text.now ≤ 64 → result.text ≡ text.now }
        ensures long { 64 < length text.now → result.text ≡ [] }
        ensures pin { result.pin ≡ None }
    {
        Asked {
            ksn,
            text: ShortText::new(text),
            pin: None,
        }
    }

    /// The key serial number.
    pub fn ksn(&self) -> Ksn
        ensures { result ≡ self.now.ksn }
    {
        self.ksn
    }

    /// The text.
    pub(crate) fn text(&self) -> ShortText
        ensures { result ≡ self.now.text }
    {
        self.text
    }

    /// The bytes of the text.
    pub(crate) fn text_bytes(&self) -> &[u8]
        ensures { result.now ≡ self.now.text }
    {
        self.text.bytes()
    }

    /// The PIN block, where one is going to be translated.
    pub(crate) fn pin(&self) -> Option<PinBlock>
        ensures value { result ≡ self.now.pin }
        ensures block { IfSome result (λ pin. IsBlock pin.block) }
    {
        self.pin
    }

    /// The bytes of the PIN block, and zeros where none is going to be translated.
    pub(crate) fn block(&self) -> [u8; 8]
        ensures value { IfSome self.now.pin (λ pin. result ≡ pin.block) }
        ensures block { IsBlock result }
    {
        match self.pin {
            Some(pin) => pin.block,
            None => array_of(&[0; 8]),
        }
    }
}
