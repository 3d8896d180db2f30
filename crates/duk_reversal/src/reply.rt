//! Replies to reversals, which the host sends back.

ghost use Rattle.std.specs.Prelude.{◌≡◌, ◌≤◌, ◌++◌, IfSome, Some, List, ℕ, length};
ghost use Rattle.duk_des.specs.Block.{IsBlock};
ghost use Rattle.duk_frame.specs.Frame.{framed, mac_text_of};
ghost use Rattle.duk_reversal.specs.Reply.{IsReversalReply, reversal_reply_text};

use crate::numbers::ReversalNumbers;
use crate::state::ReversalState;
use crate::text::{AFTER_NUMBERS, ReversalText, append, begin_text, numbers_at, with_mac};
use duk_frame::Frame;
use duk_tdes::array_of;

/// The kind of a reversal's reply, in the second byte of its contents.
const KIND: u8 = 5;

/// The bytes of its frame.
const LENGTH: usize = 33;

/// The fields of a reversal's reply.
#[derive(Clone, Copy)]
pub struct ReversalReply {
    /// The numbers of the reversal.
    pub numbers: ReversalNumbers,
    /// Whether a payment of the reversed number stood.
    pub state: ReversalState,
    /// The MAC.
    pub mac: [u8; 8],
}

impl ReversalReply {
    /// The text of the MAC of a reply with these numbers and this state: version 1, kind 5, the
    /// numbers in 10 bytes each, and the state.
    pub fn text(numbers: ReversalNumbers, state: ReversalState) -> ReversalText
        ensures text { result.items ≡ reversal_reply_text numbers state }
        ensures reply { (mac : List ℕ) → IsBlock mac
            → IsReversalReply (framed (reversal_reply_text numbers state ++ mac))
            (record { numbers = numbers; state = state; mac = mac }) }
    {
        let mut text = begin_text(KIND, numbers);
        append(&mut text, &[state.byte()]);
        text
    }

    /// The frame of a reply: its text, and the MAC.
    pub fn bytes(&self) -> Frame
        ensures reply { IsReversalReply result.items self.now }
        ensures mac_text { mac_text_of result.items
            ≡ reversal_reply_text self.now.numbers self.now.state }
        ensures least { 10 ≤ length result.items }
    {
        crate::laws::mac_texts();
        with_mac(&ReversalReply::text(self.numbers, self.state), self.mac)
    }
}

/// The fields of a reversal's reply, or `None` where the bytes are no such frame.
pub fn read_reversal_reply(bytes: &[u8]) -> Option<ReversalReply>
    ensures found { IfSome result (IsReversalReply bytes.now) }
    ensures every { (reply : ReversalReply) → IsReversalReply bytes.now reply
        → result ≡ Some reply }
{
    duk_tree::laws::serials();
    if bytes.len() != LENGTH {
        return None;
    }
    let numbers = numbers_at(bytes)?;
    let state = ReversalState::from_byte(bytes[AFTER_NUMBERS])?;
    let mac = array_of(&bytes[AFTER_NUMBERS + 1..]);
    let reply = ReversalReply {
        numbers,
        state,
        mac,
    };
    if reply.bytes().as_slice() == bytes {
        Some(reply)
    } else {
        None
    }
}
