//! Frames that a host judges, a group of them in lanes.

ghost use Rattle.std.specs.Prelude.{◌≡◌, ◌<◌, ◌≤◌, ◌/◌, ◌%◌, ℕ, IsSome, drop, length, map};
ghost use Rattle.duk_host.specs.Table.{table_decision};
ghost use Rattle.duk_tdes.specs.KeyBytes.{bytes_of as key_bytes_of};
ghost use Rattle.duk_tdes.specs.Tdes.{IsTdesLength};
ghost use Rattle.duk_calls.specs.Answer.{part_at};
ghost use Rattle.duk_calls.specs.Hosts.{FitJudging, HostJudgeAnswers, SaysJudgement, candidate_bytes, judgement_bytes, padded};
ghost use Rattle.duk_calls.specs.Modules.{lmk_in};
ghost use Rattle.duk_calls.specs.Requests.{front_frame};
ghost use Rattle.duk_calls.specs.inner.Hosts.{frames_at};

use crate::arguments::write_front;
use crate::cards::{CARD, Cards, are_cards};
use crate::fault::Fault;
use crate::many_requests::front_frame;
use crate::module_keys::{Held, MODULE, held_in, lmk_in};
use arrayvec::ArrayVec;
use byteorder::{BigEndian, ByteOrder};
use duk_frame::Frame;
use duk_group::WIDTH;
use duk_hsm::Hsm;
use duk_journal_host::{Candidate, Judgement, judge_together};
use duk_tdes::{Key, KeyBytes};

/// The bytes in which a judgement, a settlement and an answer stand.
pub(crate) const PLACE: usize = 64;

/// What is judged to be a payment, or a reversal.
pub(crate) const PAYMENT: u8 = 1;

pub(crate) const REVERSAL: u8 = 2;

/// Writes what frames are judged to be by the keys of a module and an issuer's cards, whatever a book
/// keeps, each in 64 bytes, in the front of a slice of at least so many for each of them: the frame
/// of a refusal; or 1, a zero, key serial number, amount, code and MAC of a payment; or 2, a zero,
/// the two key serial numbers and the MAC of a reversal; and zeros behind. Each frame stands at the
/// begin of 64 bytes, and each card in 37.
///
/// Refused with, in this order: `Length`; `NotAModule`; `NoZone`; `NotACard`.
pub fn host_judge(image: &[u8], cards: &[u8], frames: &[u8], judged: &mut [u8]) -> Result<(), Fault>
    ensures { HostJudgeAnswers image.now cards.now frames.now judged.old judged.new result }
{
    if image.len() != MODULE
        || cards.len() % CARD != 0
        || frames.len() % PLACE != 0
        || judged.len() < frames.len()
    {
        return Err(Fault::Length);
    }
    let Some(lmk) = lmk_in(image) else {
        return Err(Fault::NotAModule);
    };
    judge_by(&lmk, image, cards, frames, judged)
}

/// Judges frames by the keys of a module, whose local master key is of either length.
fn judge_by(
    lmk: &KeyBytes,
    image: &[u8],
    cards: &[u8],
    frames: &[u8],
    judged: &mut [u8],
) -> Result<(), Fault>
    requires fit { FitJudging image.now cards.now frames.now judged.old }
    requires lmk { key_bytes_of lmk.now ≡ lmk_in image.now }
    ensures { HostJudgeAnswers image.now cards.now frames.now judged.old judged.new result }
{
    match lmk {
        KeyBytes::Double(lmk) => judge_under(lmk, image, cards, frames, judged),
        KeyBytes::Triple(lmk) => judge_under(lmk, image, cards, frames, judged),
    }
}

/// Judges frames by the keys of a module with this local master key.
fn judge_under<const N: usize>(
    lmk: &Key<N>,
    image: &[u8],
    cards: &[u8],
    frames: &[u8],
    judged: &mut [u8],
) -> Result<(), Fault>
    requires fit { FitJudging image.now cards.now frames.now judged.old }
    requires lmk { lmk.now ≡ lmk_in image.now }
    requires tdes { IsTdesLength N }
    ensures { HostJudgeAnswers image.now cards.now frames.now judged.old judged.new result }
{
    let Some(held) = held_in(lmk, image) else {
        return Err(Fault::NotAModule);
    };
    let Held { hsm, zone } = held;
    let Some(zone) = zone else {
        return Err(Fault::NoZone);
    };
    if !are_cards(cards) {
        return Err(Fault::NotACard);
    }
    let issuer = Cards::new(zone, cards);
    judge_all(&hsm, &issuer, frames, judged);
    Ok(())
}

/// Judges frames, a group of them after the other.
fn judge_all<const N: usize>(hsm: &Hsm<N>, issuer: &Cards, frames: &[u8], judged: &mut [u8])
    requires whole { length frames.now % 64 ≡ 0 }
    requires room { length frames.now ≤ length judged.old }
    requires zone { IsSome hsm.now.zone }
    ensures each { (i : ℕ) → i < length frames.now / 64
        → SaysJudgement hsm.now (table_decision issuer.now)
        (front_frame (part_at 64 frames.now i)) (part_at 64 judged.new i) }
    ensures behind { drop (length frames.now) judged.new
        ≡ drop (length frames.now) judged.old }
{
    let count = frames.len() / PLACE;
    let mut done = 0;
    while done < count {
        let end = done + (count - done).min(WIDTH);
        let group = &frames[PLACE * done..PLACE * end];
        judge_group(hsm, issuer, group, &mut judged[PLACE * done..PLACE * end]);
        done = end;
    }
}

/// Judges at most as many frames as there are lanes.
fn judge_group<const N: usize>(hsm: &Hsm<N>, issuer: &Cards, frames: &[u8], judged: &mut [u8])
    requires whole { length frames.now % 64 ≡ 0 }
    requires few { length frames.now / 64 ≤ WIDTH }
    requires room { length judged.old ≡ length frames.now }
    requires zone { IsSome hsm.now.zone }
    ensures size { length judged.new ≡ length judged.old }
    ensures each { (i : ℕ) → i < length frames.now / 64
        → SaysJudgement hsm.now (table_decision issuer.now)
        (front_frame (part_at 64 frames.now i)) (part_at 64 judged.new i) }
{
    let all = frames_in(frames);
    let judgements = judge_together(hsm, issuer, all.as_slice());
    for i in 0..frames.len() / PLACE {
        judged[PLACE * i..PLACE * i + PLACE].copy_from_slice(&place_of(&judgements[i]));
    }
}

/// The frames at places of 64 bytes, at most as many as there are lanes.
fn frames_in(bytes: &[u8]) -> ArrayVec<Frame, WIDTH>
    requires whole { length bytes.now % 64 ≡ 0 }
    requires few { length bytes.now / 64 ≤ WIDTH }
    ensures { map (λ frame. frame.items) result.items
        ≡ frames_at bytes.now (length bytes.now / 64) }
{
    let mut frames = ArrayVec::new();
    for i in 0..bytes.len() / PLACE {
        frames.push(frame_in(&bytes[PLACE * i..PLACE * i + PLACE]));
    }
    frames
}

/// The frame with which 64 bytes begin.
fn frame_in(bytes: &[u8]) -> Frame
    requires { length bytes.now ≡ 64 }
    ensures { result.items ≡ front_frame bytes.now }
{
    let mut frame = Frame::new();
    frame.try_extend_from_slice(front_frame(bytes)).unwrap();
    frame
}

/// A judgement in 64 bytes.
fn place_of(judgement: &Judgement) -> [u8; PLACE]
    ensures { result ≡ padded (judgement_bytes judgement.now) }
{
    match judgement {
        Judgement::Refused(frame) => padded(frame.as_slice()),
        Judgement::Candidate(candidate) => padded(bytes_of(candidate).as_slice()),
    }
}

/// A candidate in bytes.
fn bytes_of(candidate: &Candidate) -> ArrayVec<u8, PLACE>
    ensures { result.items ≡ candidate_bytes candidate.now }
{
    let mut bytes = ArrayVec::new();
    match candidate {
        Candidate::Payment(purchase, code) => {
            let mut amount = [0; 4];
            BigEndian::write_u32(&mut amount, purchase.amount);
            bytes.try_extend_from_slice(&[PAYMENT, 0]).unwrap();
            bytes
                .try_extend_from_slice(&purchase.number.bytes())
                .unwrap();
            bytes.try_extend_from_slice(&amount).unwrap();
            bytes.try_extend_from_slice(&code.text()).unwrap();
            bytes.try_extend_from_slice(&purchase.mac).unwrap();
        }
        Candidate::Reversal(reversal) => {
            let numbers = reversal.numbers;
            bytes.try_extend_from_slice(&[REVERSAL, 0]).unwrap();
            bytes.try_extend_from_slice(&numbers.ksn().bytes()).unwrap();
            bytes
                .try_extend_from_slice(&numbers.reversed().bytes())
                .unwrap();
            bytes.try_extend_from_slice(&reversal.mac).unwrap();
        }
    }
    bytes
}

/// Bytes in front of zeros.
pub(crate) fn padded(bytes: &[u8]) -> [u8; PLACE]
    requires { length bytes.now ≤ 64 }
    ensures { result ≡ padded bytes.now }
{
    let mut place = [0; PLACE];
    write_front(bytes, &mut place);
    place
}
