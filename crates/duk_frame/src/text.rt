//! The text that the MAC of a frame is made over.

ghost use Rattle.std.specs.Prelude.{◌≡◌, ◌≤◌, ◌++◌, drop, length};
ghost use Rattle.duk_des.specs.Block.{IsBlock};
ghost use Rattle.duk_frame.specs.Frame.{framed, mac_text_of};
ghost use Rattle.duk_frame.specs.inner.Frame.{LacksMac};

use crate::frame::{Frame, append};
use duk_tdes::array_of;
use std::marker::Model;

/// The bytes of a MAC.
pub(crate) const MAC_LENGTH: usize = 8;

/// The text that the MAC of a frame is made over: all of its contents but the MAC. It stands in the
/// frame that it is a part of, after the length and before the MAC's place.
#[derive(Drop)]
pub struct MacText {
    frame: Frame,
}

impl Model for MacText {
    ghost use Rattle.std.specs.Prelude.{ℕ, List, drop};
    ghost use Rattle.duk_frame.specs.inner.Frame.{LacksMac};

    ghost Value = { List ℕ };

    ghost view = { λ text. drop 2 text.frame.items };

    ghost invariant = { λ text. LacksMac text.frame.items };
}

impl MacText {
    /// The text in a frame that lacks its MAC alone.
    pub(crate) fn new(frame: Frame) -> Self
        requires { LacksMac frame.items }
        ensures { result ≡ drop 2 frame.items }
    {
        MacText { frame }
    }

    /// The bytes of the text.
    pub fn bytes(&self) -> &[u8]
        ensures { result.now ≡ self.now }
    {
        &self.frame.as_slice()[2..]
    }

    /// The frame with this text and this MAC.
    pub fn with_mac(self, mac: [u8; MAC_LENGTH]) -> Frame
        ensures frame { result.items ≡ framed (self ++ mac) }
        ensures mac { IsBlock mac }
        ensures mac_text { mac_text_of result.items ≡ self }
        ensures least { 10 ≤ length result.items }
    {
        let mut frame = self.frame;
        append(&mut frame, &array_of::<MAC_LENGTH>(&mac));
        frame
    }
}
