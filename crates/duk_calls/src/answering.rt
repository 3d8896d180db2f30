//! Answers to what a book settled, a group of them in lanes.

ghost use Rattle.std.specs.Prelude.{◌≡◌, ◌<◌, ◌≤◌, ◌/◌, ◌%◌, ℕ, [], ◌∷◌, MatchOption, drop, length, slice_index_or};
ghost use Rattle.duk_frame.specs.declared.code.Code.{Code as CodeValue};
ghost use Rattle.duk_journal_host.specs.Candidate.{IsAnswered};
ghost use Rattle.duk_journal_host.specs.Steps.{number_in};
ghost use Rattle.duk_journal_host.specs.declared.settlement.Settled.{Settled as SettledValue};
ghost use Rattle.duk_journal_host.specs.declared.settlement.Settlement.{Settlement as SettlementValue};
ghost use Rattle.duk_reversal.specs.declared.state.ReversalState.{ReversalState as StateValue};
ghost use Rattle.duk_tdes.specs.KeyBytes.{bytes_of};
ghost use Rattle.duk_tdes.specs.Tdes.{IsTdesLength};
ghost use Rattle.duk_calls.specs.Answer.{part_at};
ghost use Rattle.duk_calls.specs.Hosts.{FitAnswering, HasAnswer, HostAnswerAnswers, IsPaymentSaid, IsReversalSaid, SaysAnswer, SaysNothing, SaysSettled, padded};
ghost use Rattle.duk_calls.specs.Fault.{fault_number};
ghost use Rattle.duk_calls.specs.Modules.{lmk_in};
ghost use Rattle.duk_calls.specs.inner.Hosts.{AreRead};

use crate::arguments::serial_number;
use crate::fault::Fault;
use crate::judging::{PAYMENT, PLACE, REVERSAL, padded};
use crate::module_keys::{MODULE, held_in, lmk_in};
use crate::replies::read_code;
use crate::reversals::numbers_of;
use byteorder::{BigEndian, ByteOrder};
use duk_frame::{Code, Frame};
use duk_group::WIDTH;
use duk_hsm::Hsm;
use duk_journal_host::{Purchase, Settled, Settlement, answer_together};
use duk_reversal::{Reversal, ReversalState};
use duk_tdes::{Key, KeyBytes, array_of};
use duk_tree::{Ksn, usable};

/// How what is settled is said.
const KEPT: u8 = 1;

const KNOWN_AGAIN: u8 = 2;

const USED: u8 = 3;

const FULL: u8 = 4;

/// Writes the answers to what was settled, each in 64 bytes, in the front of a slice of at least so
/// many for each of them: the frame, with zeros behind it; or the number of a fault, with zeros
/// behind it: `NotSettled`, `NoKeySet` or `NotUsable`, none of which comes where `host_judge` wrote
/// what was settled. What was settled stands in 64 bytes each, as `host_judge` writes it, with 1 to 4
/// in the second byte: 1 where it is kept from now on, 2 where it was kept before, 3 where its number
/// is used, and 4 where there is no room for it.
///
/// Refused with, in this order: `Length`; `NotAModule`.
pub fn host_answer(image: &[u8], settled: &[u8], answers: &mut [u8]) -> Result<(), Fault>
    ensures { HostAnswerAnswers image.now settled.now answers.old answers.new result }
{
    if image.len() != MODULE || settled.len() % PLACE != 0 || answers.len() < settled.len() {
        return Err(Fault::Length);
    }
    let Some(lmk) = lmk_in(image) else {
        return Err(Fault::NotAModule);
    };
    answer_by(&lmk, image, settled, answers)
}

/// Answers what was settled by the keys of a module, whose local master key is of either length.
fn answer_by(lmk: &KeyBytes, image: &[u8], settled: &[u8], answers: &mut [u8]) -> Result<(), Fault>
    requires fit { FitAnswering image.now settled.now answers.old }
    requires lmk { bytes_of lmk.now ≡ lmk_in image.now }
    ensures { HostAnswerAnswers image.now settled.now answers.old answers.new result }
{
    match lmk {
        KeyBytes::Double(lmk) => answer_under(lmk, image, settled, answers),
        KeyBytes::Triple(lmk) => answer_under(lmk, image, settled, answers),
    }
}

/// Answers what was settled by the keys of a module with this local master key.
fn answer_under<const N: usize>(
    lmk: &Key<N>,
    image: &[u8],
    settled: &[u8],
    answers: &mut [u8],
) -> Result<(), Fault>
    requires fit { FitAnswering image.now settled.now answers.old }
    requires lmk { lmk.now ≡ lmk_in image.now }
    requires tdes { IsTdesLength N }
    ensures { HostAnswerAnswers image.now settled.now answers.old answers.new result }
{
    let Some(held) = held_in(lmk, image) else {
        return Err(Fault::NotAModule);
    };
    let hsm = held.hsm;
    answer_all(&hsm, settled, answers);
    Ok(())
}

/// Answers what was settled, a group of it after the other.
fn answer_all<const N: usize>(hsm: &Hsm<N>, settled: &[u8], answers: &mut [u8])
    requires whole { length settled.now % 64 ≡ 0 }
    requires room { length settled.now ≤ length answers.old }
    ensures each { (i : ℕ) → i < length settled.now / 64
        → SaysAnswer hsm.now (part_at 64 settled.now i) (part_at 64 answers.new i) }
    ensures behind { drop (length settled.now) answers.new
        ≡ drop (length settled.now) answers.old }
{
    let count = settled.len() / PLACE;
    let mut done = 0;
    while done < count {
        let end = done + (count - done).min(WIDTH);
        let group = &settled[PLACE * done..PLACE * end];
        answer_group(hsm, group, &mut answers[PLACE * done..PLACE * end]);
        done = end;
    }
}

/// Answers at most as many settlements as there are lanes.
fn answer_group<const N: usize>(hsm: &Hsm<N>, settled: &[u8], answers: &mut [u8])
    requires whole { length settled.now % 64 ≡ 0 }
    requires few { length settled.now / 64 ≤ WIDTH }
    requires room { length answers.old ≡ length settled.now }
    ensures size { length answers.new ≡ length answers.old }
    ensures each { (i : ℕ) → i < length settled.now / 64
        → SaysAnswer hsm.now (part_at 64 settled.now i) (part_at 64 answers.new i) }
{
    let all = settled_in(settled);
    let found = answer_together(hsm, &all[..settled.len() / PLACE]);
    for i in 0..settled.len() / PLACE {
        let said = &settled[PLACE * i..PLACE * i + PLACE];
        let place = place_for(hsm, said, &all[i], &found[i]);
        answers[PLACE * i..PLACE * i + PLACE].copy_from_slice(&place);
    }
}

/// The answer to what 64 bytes say, where this is what they say, if they do, and its frame.
fn place_for<const N: usize>(
    hsm: &Hsm<N>,
    said: &[u8],
    settled: &Settled,
    frame: &Frame,
) -> [u8; PLACE]
    requires size { length said.now ≡ 64 }
    requires read { (one : SettledValue) → SaysSettled said.now one
        → SaysSettled said.now settled.now }
    requires answered { IsAnswered hsm.now settled.now frame.now }
    ensures { SaysAnswer hsm.now said.now result }
{
    match read_settled(said) {
        Some(_) => place_of(hsm, settled, frame),
        None => place_of_fault(Fault::NotSettled),
    }
}

/// What was settled at places of 64 bytes, at most as many as there are lanes, and anything at the
/// places that say nothing.
fn settled_in(bytes: &[u8]) -> [Settled; WIDTH]
    requires whole { length bytes.now % 64 ≡ 0 }
    requires few { length bytes.now / 64 ≤ WIDTH }
    ensures size { length result ≡ WIDTH }
    ensures read { AreRead bytes.now (length bytes.now / 64) result }
{
    let mut settled = [nothing(); WIDTH];
    for i in 0..bytes.len() / PLACE {
        settled[i] = settled_or_nothing(&bytes[PLACE * i..PLACE * i + PLACE]);
    }
    settled
}

/// What 64 bytes say that was settled, and anything where they say nothing.
fn settled_or_nothing(said: &[u8]) -> Settled
    requires { length said.now ≡ 64 }
    ensures { (one : SettledValue) → SaysSettled said.now one → SaysSettled said.now result }
{
    match read_settled(said) {
        Some(settled) => settled,
        None => nothing(),
    }
}

/// Anything that may have been settled.
fn nothing() -> Settled {
    let purchase = Purchase {
        number: Ksn::from_bytes([0; 10]),
        amount: 0,
        mac: [0; 8],
    };
    Settled::Payment(purchase, Settlement::Full)
}

/// What 64 bytes say that was settled.
fn read_settled(said: &[u8]) -> Option<Settled>
    requires { length said.now ≡ 64 }
    ensures { MatchOption result (SaysNothing said.now) (SaysSettled said.now) }
{
    match said[0] {
        PAYMENT => read_payment(said),
        REVERSAL => read_reversal(said),
        _ => None,
    }
}

/// The payment that 64 bytes say.
fn read_payment(said: &[u8]) -> Option<Settled>
    requires size { length said.now ≡ 64 }
    requires kind { slice_index_or said.now 0 0 ≡ 1 }
    ensures { MatchOption result (SaysNothing said.now) (SaysSettled said.now) }
{
    let Some(settlement) = settlement_of_payment(said) else {
        return None;
    };
    let purchase = Purchase {
        number: serial_number(&said[2..12]),
        amount: BigEndian::read_u32(&said[12..]),
        mac: array_of(&said[18..26]),
    };
    Some(Settled::Payment(purchase, settlement))
}

/// What became of a payment.
fn settlement_of_payment(said: &[u8]) -> Option<Settlement<Code>>
    requires { length said.now ≡ 64 }
    ensures { MatchOption result ((one : SettlementValue CodeValue) → ¬ IsPaymentSaid said.now one)
        (IsPaymentSaid said.now) }
{
    let code = read_code(array_of(&said[16..18]));
    match said[1] {
        KEPT => code.map(Settlement::Kept),
        KNOWN_AGAIN => code.map(Settlement::KnownAgain),
        USED => Some(Settlement::Used),
        FULL => Some(Settlement::Full),
        _ => None,
    }
}

/// The reversal that 64 bytes say.
fn read_reversal(said: &[u8]) -> Option<Settled>
    requires size { length said.now ≡ 64 }
    requires kind { slice_index_or said.now 0 0 ≡ 2 }
    ensures { MatchOption result (SaysNothing said.now) (SaysSettled said.now) }
{
    let Some(settlement) = settlement_of_reversal(said) else {
        return None;
    };
    let Some(numbers) = numbers_of(&said[2..12], &said[12..22]) else {
        return None;
    };
    let mac = array_of(&said[22..30]);
    Some(Settled::Reversal(Reversal { numbers, mac }, settlement))
}

/// What became of a reversal.
fn settlement_of_reversal(said: &[u8]) -> Option<Settlement<ReversalState>>
    requires { length said.now ≡ 64 }
    ensures { MatchOption result
        ((one : SettlementValue StateValue) → ¬ IsReversalSaid said.now one)
        (IsReversalSaid said.now) }
{
    let state = ReversalState::from_byte(said[30]);
    match said[1] {
        KEPT => state.map(Settlement::Kept),
        KNOWN_AGAIN => state.map(Settlement::KnownAgain),
        USED => Some(Settlement::Used),
        FULL => Some(Settlement::Full),
        _ => None,
    }
}

/// The answer to what was settled in 64 bytes, where this is its frame.
fn place_of<const N: usize>(hsm: &Hsm<N>, settled: &Settled, frame: &Frame) -> [u8; PLACE]
    requires { IsAnswered hsm.now settled.now frame.now }
    ensures { HasAnswer hsm.now settled.now result }
{
    let number = number_in(settled);
    if !hsm.has_key_set(&number.prefix()) {
        return place_of_fault(Fault::NoKeySet);
    }
    if usable(number.counter()) {
        padded(frame.as_slice())
    } else {
        place_of_fault(Fault::NotUsable)
    }
}

/// The number of a fault in 64 bytes.
fn place_of_fault(fault: Fault) -> [u8; PLACE]
    ensures { result ≡ padded (fault_number fault ∷ []) }
{
    padded(&[fault.number() as u8])
}

/// The key serial number that was used.
fn number_in(settled: &Settled) -> Ksn
    ensures { result ≡ number_in settled.now }
{
    match settled {
        Settled::Payment(purchase, _) => purchase.number,
        Settled::Reversal(reversal, _) => reversal.numbers.ksn(),
    }
}
