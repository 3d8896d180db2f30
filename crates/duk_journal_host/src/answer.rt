//! The answers to what a book elsewhere settled.

ghost use Rattle.std.specs.Prelude.{◌≡◌, ◌≤◌, [], IfErr, IfOk, length, map, take};
ghost use Rattle.duk_hsm.specs.Group.{numbers_of};
ghost use Rattle.duk_journal_host.specs.Candidate.{ArePaired, IsAnswered};
ghost use Rattle.duk_journal_host.specs.Steps.{number_in};
ghost use Rattle.duk_journal_host.specs.inner.Draft.{IsDraftOf, frame_with};

use crate::draft::{Draft, texts_of};
use crate::settlement::Settled;
use arrayvec::ArrayVec;
use duk_frame::Frame;
use duk_group::WIDTH;
use duk_hsm::{Asked, Hsm, HsmFault, Transaction};
use duk_tree::Ksn;

/// Answers at most `WIDTH` settlements, in their order: each with its reply, or with the refusal for
/// reason 5 or 6. The MACs of the replies are made together.
///
/// A frame of no bytes stands at the place of what uses a number that has no transaction key: no frame
/// was judged to be that.
pub fn answer_together<const N: usize>(hsm: &Hsm<N>, settled: &[Settled]) -> ArrayVec<Frame, WIDTH>
    requires few { length settled.now ≤ WIDTH }
    ensures { ArePaired (IsAnswered hsm.now) settled.now result.items }
{
    let opened = hsm.open_group(&asked_for(settled)[..settled.len()]);
    let drafts = drafts_of(settled);
    let macs = opened.reply_macs(&texts_of(drafts.as_slice())[..settled.len()]);
    let mut answers = ArrayVec::new();
    for place in 0..settled.len() {
        let transaction = opened.transaction(place);
        answers.push(completed(transaction, &drafts[place], macs[place]));
    }
    answers
}

/// The answer that a draft becomes with this MAC, or no bytes where its number was not opened.
fn completed(opened: Result<Transaction, HsmFault>, draft: &Draft, mac: [u8; 8]) -> Frame
    ensures opened { IfOk opened (λ _. result.items ≡ frame_with draft.now mac) }
    ensures refused { IfErr opened (λ _. result.items ≡ []) }
{
    match opened {
        Ok(_) => draft.with_mac(mac),
        Err(_) => Frame::new(),
    }
}

/// The numbers that settlements use, to be opened together, and nothing at the places that are left.
fn asked_for(settled: &[Settled]) -> [Asked; WIDTH]
    requires few { length settled.now ≤ WIDTH }
    ensures { numbers_of (take (length settled.now) result) ≡ map number_in settled.now }
{
    let mut asked = [Asked::reversal(Ksn::from_bytes([0; 10]), &[]); WIDTH];
    for (place, one) in settled.iter().enumerate() {
        asked[place] = Asked::reversal(one.number(), &[]);
    }
    asked
}

/// The answers to settlements, without their MACs.
fn drafts_of(settled: &[Settled]) -> ArrayVec<Draft, WIDTH>
    requires few { length settled.now ≤ WIDTH }
    ensures { ArePaired IsDraftOf settled.now result.items }
{
    let mut drafts = ArrayVec::new();
    for one in settled {
        drafts.push(one.answer());
    }
    drafts
}
