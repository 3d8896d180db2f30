//! Answers whose MACs are made together.

ghost use Rattle.std.specs.Prelude.{◌≡◌, ◌≤◌, ◌<◌, ◌+◌, ◌++◌, ℕ, List, length, map};
ghost use Rattle.duk_frame.specs.Frame.{framed};
ghost use Rattle.duk_group.specs.Numbers.{bytes_at, message_at};
ghost use Rattle.duk_host.specs.Judgement.{IsReplyWith};
ghost use Rattle.duk_hsm.specs.Commands.{HasTransactionKey};
ghost use Rattle.duk_hsm.specs.Group.{AreOpened};
ghost use Rattle.duk_hsm.specs.Keys.{HsmKeys};
ghost use Rattle.duk_tree.specs.Serial.{Serial};
ghost use Rattle.duk_journal_host.specs.Group.{most_frames};
ghost use Rattle.duk_journal_host.specs.Judgement.{IsReversalReplyWith};
ghost use Rattle.duk_journal_host.specs.inner.Draft.{AreDraftsUnder, IsDraftUnder, frame_of, frame_with, text_in};

use crate::group::Group;
use byteorder::{BigEndian, ByteOrder};
use duk_frame::{Code, Frame, reply_text};
use duk_group::WIDTH;
use duk_hsm::OpenedGroup;
use duk_reversal::{ReversalNumbers, ReversalReply, ReversalState, ReversalText};
use duk_tree::Ksn;

/// The bytes of a MAC.
const MAC_LENGTH: usize = 8;

/// An answer, perhaps without its MAC.
#[derive(Drop)]
pub(crate) enum Draft {
    /// The whole answer: a refusal.
    Whole(Frame),
    /// A reply, whose MAC is still to be made.
    Reply {
        /// The number under whose transaction key the MAC is made.
        number: Ksn,
        /// The text that it is made over. The longest is that of a reversal's reply.
        text: ReversalText,
    },
}

/// What stands where there is no answer.
impl Default for Draft {
    fn default() -> Self {
        Draft::Whole(Frame::new())
    }
}

impl Draft {
    /// The accepted reply to a request with this number and this code.
    pub(crate) fn payment_reply(ksn: Ksn, code: Code) -> Self
        ensures reply { (keys : HsmKeys) → HasTransactionKey keys ksn
            → IsReplyWith keys ksn code (frame_of keys result) }
        ensures under { (keys : HsmKeys) → HasTransactionKey keys ksn
            → IsDraftUnder keys ksn result }
    {
        duk_tree::laws::serials();
        let mut text = ReversalText::new();
        text.try_extend_from_slice(reply_text(ksn, code).bytes())
            .unwrap();
        Draft::Reply { number: ksn, text }
    }

    /// The reply to a reversal with these numbers and this state.
    pub(crate) fn reversal_reply(numbers: ReversalNumbers, state: ReversalState) -> Self
        ensures reply { (keys : HsmKeys) → HasTransactionKey keys numbers.ksn
            → IsReversalReplyWith keys numbers state (frame_of keys result) }
        ensures under { (keys : HsmKeys) → HasTransactionKey keys numbers.ksn
            → IsDraftUnder keys numbers.ksn result }
    {
        Draft::Reply {
            number: numbers.ksn(),
            text: ReversalReply::text(numbers, state),
        }
    }

    /// The text that a MAC is made over, and none where the answer is whole.
    fn text(&self) -> &[u8]
        ensures { result.now ≡ text_in self.now }
    {
        match self {
            Draft::Whole(_) => &[],
            Draft::Reply { text, .. } => text.as_slice(),
        }
    }

    /// The answer, with this MAC where it lacks one.
    pub(crate) fn with_mac(&self, mac: [u8; MAC_LENGTH]) -> Frame
        ensures { result.items ≡ frame_with self.now mac }
    {
        match self {
            Draft::Whole(frame) => copy_of(frame),
            Draft::Reply { text, .. } => reply_of(text, mac),
        }
    }
}

/// A copy of a frame.
fn copy_of(frame: &Frame) -> Frame
    ensures { result.items ≡ frame.now.items }
{
    let mut copy = Frame::new();
    copy.try_extend_from_slice(frame.as_slice()).unwrap();
    copy
}

/// The frame of a text and its MAC.
fn reply_of(text: &ReversalText, mac: [u8; MAC_LENGTH]) -> Frame
    ensures { result.items ≡ framed (text.now.items ++ mac) }
{
    let mut length = [0; 2];
    BigEndian::write_u16(&mut length, (text.len() + MAC_LENGTH) as u16);
    let mut frame = Frame::new();
    frame.try_extend_from_slice(&length).unwrap();
    frame.try_extend_from_slice(text.as_slice()).unwrap();
    frame.try_extend_from_slice(&mac).unwrap();
    frame
}

/// Makes the MACs of replies together, and adds the answers to the group in their order. They are
/// those to the frames whose numbers were opened together, as far as these are judged.
pub(crate) fn complete(opened: &OpenedGroup, drafts: &[Draft], group: &mut Group)
    requires few { length drafts.now ≤ WIDTH }
    requires room { length group.old.answers + length drafts.now ≤ most_frames }
    ensures answers { (keys : HsmKeys) (numbers : List Serial)
        → AreOpened keys numbers opened.now → AreDraftsUnder keys numbers drafts.now
        → group.new.answers ≡ group.old.answers ++ map (frame_of keys) drafts.now }
    ensures entries { group.new.entries ≡ group.old.entries }
{
    let macs = opened.reply_macs(&texts_of(drafts)[..drafts.len()]);
    for (place, draft) in drafts.iter().enumerate() {
        group.push_answer(draft.with_mac(macs[place]));
    }
}

/// The texts of the MACs that are to be made, each at the place of its answer.
pub(crate) fn texts_of<'a>(drafts: &'a [Draft]) -> [&'a [u8]; WIDTH]
    requires few { length drafts.now ≤ WIDTH }
    ensures { (place : ℕ) → place < length drafts.now
        → message_at result place ≡ bytes_at (map text_in drafts.now) place }
{
    let mut texts: [&'a [u8]; WIDTH] = [&[]; WIDTH];
    for (place, draft) in drafts.iter().enumerate() {
        texts[place] = draft.text();
    }
    texts
}
