//! What `find` looks for, as its arguments write it.

ghost use Rattle.std.specs.Prelude.{◌≡◌, ◌⊎◌, ◌<◌, ◌≤◌, ℕ, List, IfErr, IfNone, IfOk, IfSome, MatchResult, length};
ghost use Rattle.duk_block.specs.Hexadecimal.{IsHexadecimal};
ghost use Rattle.duk_frame.specs.Frame.{mac_text_of};
ghost use Rattle.duk_pin.specs.Pan.{IsPan};
ghost use Rattle.duk_commands.specs.Frames.{number_of};
ghost use Rattle.duk_commands.specs.Mac.{IsMessage};
ghost use Rattle.duk_commands.specs.Sought.{HasMac, IsSought, IsToldWith, mac_of_asked};
ghost use Rattle.duk_commands.specs.inner.Sought.{HasMessage, IsMessageRefused, IsSoughtRefused};
ghost use Rattle.duk_commands.specs.declared.find_fault.FindFault.TheVariants.{OutOfMemory, PanRefused};
ghost use Rattle.duk_tree.specs.Serial.{Serial};

use crate::asked::{Asked, read_asked};
use crate::fault::Fault;
use crate::find_fault::FindFault;
use crate::hexadecimal::decode;
use crate::pin_blocks::read_block;
use crate::told::{Told, read_told};
use duk_frame::AnswerFrame;
use duk_pin::Pan;
use duk_tree::Ksn;
use std::alloc::Global;

/// What is known of what `find` looks for.
#[derive(Clone, Copy)]
pub enum Clue<'a> {
    /// It is a frame with a MAC, in hexadecimal.
    Frame,
    /// It is the MAC of this text, or with `hex` of the bytes that the text writes.
    Mac {
        /// The text.
        text: &'a [u8],
        /// Whether it is in hexadecimal.
        hex: bool,
    },
    /// It is an enciphered PIN block of this card.
    PinBlock {
        /// The digits of the card's number.
        pan: &'a str,
    },
    /// It is this block, enciphered.
    Ciphertext {
        /// The block in clear, in hexadecimal.
        clear: &'a str,
    },
}

/// What is looked for.
#[derive(Drop)]
pub(crate) enum Sought {
    /// The MAC of a frame.
    Frame {
        /// The frame.
        bytes: Vec<u8>,
        /// Its number.
        ksn: Ksn,
        /// Its MAC.
        mac: [u8; 8],
    },
    /// The MAC of a message.
    Mac {
        /// The message.
        message: Vec<u8>,
        /// The MAC.
        mac: [u8; 8],
    },
    /// A PIN block.
    PinBlock {
        /// The card's number.
        pan: Pan,
        /// The block, enciphered.
        block: [u8; 8],
    },
    /// A block of ciphertext.
    Ciphertext {
        /// The block in clear.
        clear: [u8; 8],
        /// The block, enciphered.
        block: [u8; 8],
    },
}

/// The MAC that stands in a frame, and the frame's number.
struct FrameMac {
    ksn: Ksn,
    mac: [u8; 8],
}

/// What the arguments write. Refused with, in this order: `WhatRefused`; `TextRefused`,
/// `PanRefused` or `BlockRefused`, of the clue. Memory for bytes in hexadecimal, or for a copy of
/// the text, may be refused.
pub(crate) fn read_sought(alloc: Global, what: &str, clue: Clue<'_>) -> Result<Sought, FindFault>
    ensures read { IfOk result (IsSought what.now clue.entry) }
    ensures message { IfOk result HasMessage }
    ensures refused { IfErr result (IsSoughtRefused what.now clue.entry) }
{
    match clue {
        Clue::Frame => read_frame(alloc, what),
        Clue::Mac { text, hex } => {
            let mac = read_block(what).ok_or(FindFault::WhatRefused)?;
            let message = read_message(alloc, text, hex)?;
            Ok(Sought::Mac { message, mac })
        }
        Clue::PinBlock { pan } => {
            let block = read_block(what).ok_or(FindFault::WhatRefused)?;
            let pan = read_pan(pan)?;
            Ok(Sought::PinBlock { pan, block })
        }
        Clue::Ciphertext { clear } => {
            let block = read_block(what).ok_or(FindFault::WhatRefused)?;
            let clear = read_block(clear).ok_or(FindFault::BlockRefused)?;
            Ok(Sought::Ciphertext { clear, block })
        }
    }
}

/// The frame that a text writes in hexadecimal.
fn read_frame(alloc: Global, what: &str) -> Result<Sought, FindFault>
    ensures read { IfOk result (IsSought what.now Clue.Frame) }
    ensures message { IfOk result HasMessage }
    ensures refused { IfErr result (IsSoughtRefused what.now Clue.Frame) }
{
    let bytes = bytes_in(alloc, what.as_bytes(), FindFault::WhatRefused)?;
    let FrameMac { ksn, mac } = mac_in(bytes.as_slice()).ok_or(FindFault::WhatRefused)?;
    Ok(Sought::Frame { bytes, ksn, mac })
}

/// The number and the MAC of a frame, or `None` where the bytes are no frame that has a MAC.
fn mac_in(bytes: &[u8]) -> Option<FrameMac>
    ensures found { IfSome result (λ found. HasMac bytes.now found.ksn found.mac) }
    ensures long { IfSome result (λ _. (10 ≤ length bytes.now)
        × (0 < length (mac_text_of bytes.now))) }
    ensures none { IfNone result ((ksn : Serial) (mac : List ℕ) → ¬ HasMac bytes.now ksn mac) }
{
    duk_frame::laws::mac_texts();
    duk_reversal::laws::mac_texts();
    if let Some(asked) = read_asked(bytes) {
        return Some(mac_of_asked(&asked));
    }
    match read_told(bytes) {
        Some(told) => mac_of_told(&told),
        None => None,
    }
}

/// Those of a frame of a terminal.
fn mac_of_asked(asked: &Asked) -> FrameMac
    ensures ksn { result.ksn ≡ number_of asked.now }
    ensures mac { result.mac ≡ mac_of_asked asked.now }
{
    match asked {
        Asked::Payment(request) => FrameMac {
            ksn: request.ksn,
            mac: request.mac,
        },
        Asked::Reversal(reversal) => FrameMac {
            ksn: reversal.numbers.ksn(),
            mac: reversal.mac,
        },
    }
}

/// Those of a frame of the host; a refusal has no MAC.
fn mac_of_told(told: &Told) -> Option<FrameMac>
    ensures found { IfSome result (λ found. IsToldWith told.now found.ksn found.mac) }
    ensures none { IfNone result ((ksn : Serial) (mac : List ℕ) → ¬ IsToldWith told.now ksn mac) }
{
    match told {
        Told::Answer(AnswerFrame::Reply { ksn, mac, .. }) => Some(FrameMac {
            ksn: *ksn,
            mac: *mac,
        }),
        Told::Answer(AnswerFrame::Refusal { .. }) => None,
        Told::Undoing(reply) => Some(FrameMac {
            ksn: reply.numbers.ksn(),
            mac: reply.mac,
        }),
    }
}

/// The bytes whose MAC is known: those of the text, or with `hex` those that it writes, one at
/// least.
fn read_message(alloc: Global, text: &[u8], hex: bool) -> Result<Vec<u8>, FindFault>
    ensures read { IfOk result (λ message. IsMessage hex text.now message.items) }
    ensures some { IfOk result (λ message. 0 < length message.items) }
    ensures refused { IfErr result (IsMessageRefused hex text.now) }
{
    let message = if hex {
        bytes_in(alloc, text, FindFault::TextRefused)?
    } else {
        copied(alloc, text)?
    };
    if message.is_empty() {
        return Err(FindFault::TextRefused);
    }
    Ok(message)
}

/// The bytes of a text.
fn copied(alloc: Global, text: &[u8]) -> Result<Vec<u8>, FindFault>
    ensures copied { IfOk result (λ bytes. bytes.items ≡ text.now) }
    ensures refused { IfErr result (λ why. why ≡ OutOfMemory) }
{
    Vec::from_slice(alloc, text).map_err(|_| FindFault::OutOfMemory)
}

/// The bytes that a text writes in hexadecimal. Refused with `wrong` where it writes none, and else
/// with `OutOfMemory`.
fn bytes_in(alloc: Global, text: &[u8], wrong: FindFault) -> Result<Vec<u8>, FindFault>
    ensures read { IfOk result (λ bytes. IsHexadecimal text.now bytes.items) }
    ensures refused { IfErr result (λ why. (why ≡ OutOfMemory)
        ⊎ ((why ≡ wrong) × ((bytes : List ℕ) → ¬ IsHexadecimal text.now bytes))) }
{
    match decode(alloc, text, Fault::TextRefused) {
        Ok(bytes) => Ok(bytes),
        Err(Fault::OutOfMemory) => Err(FindFault::OutOfMemory),
        Err(_) => Err(wrong),
    }
}

/// The PAN that a text writes.
fn read_pan(text: &str) -> Result<Pan, FindFault>
    ensures { MatchResult result (λ pan. IsPan text.now × (pan ≡ text.now))
        (λ why. (¬ IsPan text.now) × (why ≡ PanRefused)) }
{
    match Pan::parse(text) {
        Ok(pan) => Ok(pan),
        Err(_) => Err(FindFault::PanRefused),
    }
}
