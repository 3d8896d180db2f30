//! Frames that are judged for a book elsewhere: by the keys and the issuer alone, whatever that book
//! keeps.

ghost use Rattle.std.specs.Prelude.{◌≤◌, IsSome, length, map};
ghost use Rattle.duk_hsm.specs.Keys.{HsmKeys};
ghost use Rattle.duk_journal_host.specs.Candidate.{ArePaired, IsJudgedTo};
ghost use Rattle.duk_journal_host.specs.inner.Judged.{OpensFrame};

use crate::authentic::{Authentic, Purchase, authenticate};
use crate::opening::open_frames;
use arrayvec::ArrayVec;
use duk_frame::{Code, Frame};
use duk_group::WIDTH;
use duk_host::{Issuer, code_for};
use duk_hsm::{Hsm, HsmFault, Transaction};
use duk_reversal::Reversal;

/// An authentic frame, as a book settles it. It has no PAN and no PIN block.
#[derive(Clone, Copy)]
pub enum Candidate {
    /// A payment, with the code that it has where it is accepted.
    Payment(Purchase, Code),
    /// A reversal.
    Reversal(Reversal),
}

/// What a frame is judged to be, whatever is kept.
#[derive(Drop)]
pub enum Judgement {
    /// It is refused with this frame, whose reason is one of 1 to 4.
    Refused(Frame),
    /// It is authentic: what is kept settles whether it is accepted.
    Candidate(Candidate),
}

/// What stands where nothing was judged.
impl Default for Judgement {
    fn default() -> Self {
        Judgement::Refused(Frame::new())
    }
}

/// Judges at most `WIDTH` frames, in their order. Their numbers are opened together. The issuer is
/// asked for each authentic request, whether or not it is accepted later.
pub fn judge_together<const N: usize, I: Issuer>(
    hsm: &Hsm<N>,
    issuer: &I,
    frames: &[Frame],
) -> ArrayVec<Judgement, WIDTH>
    requires few { length frames.now ≤ WIDTH }
    requires zone { IsSome hsm.now.zone }
    ensures { ArePaired (IsJudgedTo hsm.now (I.decides issuer.now))
        (map (λ frame. frame.items) frames.now) result.items }
{
    let opened = open_frames(hsm, frames);
    let mut judgements = ArrayVec::new();
    for place in 0..frames.len() {
        let frame = frames[place].as_slice();
        judgements.push(judge_one(opened.transaction(place), issuer, frame));
    }
    judgements
}

/// Judges a frame, whose number was opened to this.
fn judge_one<I: Issuer>(
    opened: Result<Transaction, HsmFault>,
    issuer: &I,
    frame: &[u8],
) -> Judgement
    requires opened { (keys : HsmKeys) × IsSome keys.zone × OpensFrame keys frame.now opened }
    ensures { (keys : HsmKeys) → OpensFrame keys frame.now opened
        → IsJudgedTo keys (I.decides issuer.now) frame.now result }
{
    duk_frame::laws::one_reading();
    match authenticate(opened, frame) {
        Ok(Authentic::Payment(payment)) => {
            let code = code_for(&payment, issuer);
            Judgement::Candidate(Candidate::Payment(Purchase::of(&payment.request), code))
        }
        Ok(Authentic::Reversal(reversal)) => { Judgement::Candidate(Candidate::Reversal(reversal)) }
        Err(refusal) => Judgement::Refused(refusal),
    }
}
