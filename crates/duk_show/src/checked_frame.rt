//! The command `show frame` with a key.

ghost use Rattle.std.specs.Prelude.{◌≡◌, ◌≤◌, ◌<◌, ◌+◌, ◌++◌, ℕ, Bool, List, IfErr, IfOk, MatchResult, Some, length};
ghost use Rattle.arrayvec.specs.ArrayVec.{array_vec_len};
ghost use Rattle.duk_commands.specs.KeyArgument.{key_in};
ghost use Rattle.duk_frame.specs.Answer.{IsAnswer};
ghost use Rattle.duk_frame.specs.Frame.{mac_text_of};
ghost use Rattle.duk_frame.specs.Request.{IsRequest};
ghost use Rattle.duk_reversal.specs.Reply.{IsReversalReply};
ghost use Rattle.duk_reversal.specs.Reversal.{IsReversal};
ghost use Rattle.duk_show.specs.CheckedFrame.{IsBytesChecked, IsCheck, IsCheckRefused, IsCheckedText, IsNoKey, IsVerdict, clear_lines, number_key, show_key_fault};
ghost use Rattle.duk_show.specs.declared.fault.ShowFault.TheVariants.{KsnRefused};
ghost use Rattle.duk_show.specs.inner.CheckedFrame.{IsBytesRefused};
ghost use Rattle.duk_tree.specs.Path.{IsUsable};

use crate::fault::ShowFault;
use crate::frame::{
    first_wrong, frame_bytes, lines_of_answer, lines_of_request, lines_of_reversal,
    lines_of_reversal_reply, refused_by,
};
use duk_commands::{KeyArgument, LINES_ROOM, Lines, push_line, push_text_line};
use duk_frame::{AnswerFrame, Request, mac_text, read_answer, read_request};
use duk_mac::{retail, same_mac};
use duk_reversal::{Reversal, ReversalReply, read_reversal, read_reversal_reply};
use duk_tdes::{Key, tdes_decrypt};
use duk_tree::{Ksn, pin_key, request_key, response_key, transaction_key, usable};
use std::alloc::Global;

/// The key that is given, as written and as read.
#[derive(Clone, Copy)]
struct GivenKey<'a> {
    given: KeyArgument<'a>,
    key: Key<16>,
}

/// The lines of a frame in hexadecimal, as without a key, and behind them, where it has a MAC, the
/// MAC that it should have under the key of its own number, and whether that is its MAC: of a request
/// and a reversal under the variant for requests, of a reply and a reversal's reply under that for
/// responses. With `show` the PIN block of a request follows, deciphered, whatever it is.
///
/// Refused with, in this order: `BdkRefused`, or `InitialRefused` of an initial key; `FrameRefused`,
/// as without a key; `KsnRefused`, where the counter of a frame that has a MAC numbers no
/// transaction. Memory for the bytes may be refused.
pub fn checked_frame_lines(
    alloc: Global,
    given: KeyArgument<'_>,
    text: &str,
    show: bool,
) -> Result<Lines, ShowFault>
    ensures lines { IfOk result (λ lines. IsCheckedText given.entry text.now show lines.items) }
    ensures refused { IfErr result (IsCheckRefused given.entry text.now) }
{
    let key = read_key(given)?;
    let bytes = frame_bytes(alloc, text)?;
    lines_of_checked(&GivenKey { given, key }, bytes.as_slice(), show)
}

/// The key that is given.
fn read_key(given: KeyArgument<'_>) -> Result<Key<16>, ShowFault>
    ensures { MatchResult result (λ key. key_in given.entry ≡ Some key) (IsNoKey given.entry) }
{
    match given.read() {
        Ok(key) => Ok(key),
        Err(_) => Err(fault_of_key(given)),
    }
}

/// The fault of an argument that writes no key.
fn fault_of_key(given: KeyArgument<'_>) -> ShowFault
    ensures { result ≡ show_key_fault given.entry }
{
    match given {
        KeyArgument::Base(_) => ShowFault::BdkRefused,
        KeyArgument::Initial(_) => ShowFault::InitialRefused,
    }
}

/// The lines of the frame that the bytes are, with the check of its MAC.
fn lines_of_checked(key: &GivenKey<'_>, bytes: &[u8], show: bool) -> Result<Lines, ShowFault>
    ensures lines { IfOk result (λ lines.
        IsBytesChecked (number_key key.now.given key.now.key) show bytes.now lines.items) }
    ensures refused { IfErr result (IsBytesRefused bytes.now) }
{
    if let Some(request) = read_request(bytes) {
        return lines_of_checked_request(key, bytes, &request, show);
    }
    if let Some(answer) = read_answer(bytes) {
        return lines_of_checked_answer(key, bytes, &answer);
    }
    if let Some(reversal) = read_reversal(bytes) {
        return lines_of_checked_reversal(key, bytes, &reversal);
    }
    match read_reversal_reply(bytes) {
        Some(reply) => lines_of_checked_reply(key, bytes, &reply),
        None => Err(refused_by(first_wrong(bytes))),
    }
}

/// The lines of a request, with the check of its MAC and, with `show`, its PIN block.
fn lines_of_checked_request(
    key: &GivenKey<'_>,
    bytes: &[u8],
    request: &Request,
    show: bool,
) -> Result<Lines, ShowFault>
    requires { IsRequest bytes.now request.now }
    ensures lines { IfOk result (λ lines.
        IsBytesChecked (number_key key.now.given key.now.key) show bytes.now lines.items) }
    ensures refused { IfErr result (IsBytesRefused bytes.now) }
{
    duk_frame::laws::mac_texts();
    let key = key_of_number(key, request.ksn)?;
    let mut lines = lines_of_request(request);
    push_check(&mut lines, &request_key(&key), bytes, request.mac);
    push_clear(&mut lines, &key, request.block, show);
    Ok(lines)
}

/// The lines of an answer, with the check of the MAC of a reply.
fn lines_of_checked_answer(
    key: &GivenKey<'_>,
    bytes: &[u8],
    answer: &AnswerFrame,
) -> Result<Lines, ShowFault>
    requires { IsAnswer bytes.now answer.now }
    ensures lines { (show : Bool) → IfOk result (λ lines.
        IsBytesChecked (number_key key.now.given key.now.key) show bytes.now lines.items) }
    ensures refused { IfErr result (IsBytesRefused bytes.now) }
{
    duk_frame::laws::mac_texts();
    match answer {
        AnswerFrame::Reply { ksn, mac, .. } => {
            let key = key_of_number(key, *ksn)?;
            let mut lines = lines_of_answer(answer);
            push_check(&mut lines, &response_key(&key), bytes, *mac);
            Ok(lines)
        }
        AnswerFrame::Refusal { .. } => Ok(lines_of_answer(answer)),
    }
}

/// The lines of a reversal, with the check of its MAC.
fn lines_of_checked_reversal(
    key: &GivenKey<'_>,
    bytes: &[u8],
    reversal: &Reversal,
) -> Result<Lines, ShowFault>
    requires { IsReversal bytes.now reversal.now }
    ensures lines { (show : Bool) → IfOk result (λ lines.
        IsBytesChecked (number_key key.now.given key.now.key) show bytes.now lines.items) }
    ensures refused { IfErr result (IsBytesRefused bytes.now) }
{
    duk_reversal::laws::mac_texts();
    let key = key_of_number(key, reversal.numbers.ksn())?;
    let mut lines = lines_of_reversal(reversal);
    push_check(&mut lines, &request_key(&key), bytes, reversal.mac);
    Ok(lines)
}

/// The lines of a reversal's reply, with the check of its MAC.
fn lines_of_checked_reply(
    key: &GivenKey<'_>,
    bytes: &[u8],
    reply: &ReversalReply,
) -> Result<Lines, ShowFault>
    requires { IsReversalReply bytes.now reply.now }
    ensures lines { (show : Bool) → IfOk result (λ lines.
        IsBytesChecked (number_key key.now.given key.now.key) show bytes.now lines.items) }
    ensures refused { IfErr result (IsBytesRefused bytes.now) }
{
    duk_reversal::laws::mac_texts();
    let key = key_of_number(key, reply.numbers.ksn())?;
    let mut lines = lines_of_reversal_reply(reply);
    push_check(&mut lines, &response_key(&key), bytes, reply.mac);
    Ok(lines)
}

/// The transaction key of a number. Refused with `KsnRefused`, where its counter numbers no
/// transaction.
fn key_of_number(key: &GivenKey<'_>, ksn: Ksn) -> Result<Key<16>, ShowFault>
    ensures { MatchResult result
        (λ found. IsUsable ksn.counter × (found ≡ number_key key.now.given key.now.key ksn))
        (λ why. (¬ IsUsable ksn.counter) × (why ≡ KsnRefused)) }
{
    if !usable(ksn.counter()) {
        return Err(ShowFault::KsnRefused);
    }
    let initial = key.given.initial_key(&key.key, ksn.iksn());
    Ok(transaction_key(&initial, ksn))
}

/// Appends the lines of the check of a frame's MAC.
fn push_check(lines: &mut Lines, key: &Key<16>, bytes: &[u8], mac: [u8; 8])
    requires room { array_vec_len lines.old + 46 ≤ LINES_ROOM }
    requires long { 10 ≤ length bytes.now }
    requires text { 0 < length (mac_text_of bytes.now) }
    ensures check { (check : List ℕ) × IsCheck key.now bytes.now mac check
        × (lines.new.items ≡ lines.old.items ++ check) }
    ensures len { array_vec_len lines.new ≤ array_vec_len lines.old + 46 }
{
    let expected = retail(key, mac_text(bytes));
    push_line(lines, b"mac-expected", &expected);
    let verdict = verdict_on(expected, mac);
    push_text_line(lines, b"mac-check", verdict.as_bytes());
}

/// Whether a MAC is the one that is expected, in a word.
fn verdict_on(expected: [u8; 8], mac: [u8; 8]) -> &'static str
    ensures verdict { IsVerdict expected mac result.now }
    ensures short { length result.now ≤ 5 }
{
    if same_mac(&expected, &mac) {
        "right"
    } else {
        "wrong"
    }
}

/// Appends the line of a PIN block in clear, where it is to be shown.
fn push_clear(lines: &mut Lines, key: &Key<16>, block: [u8; 8], show: bool)
    requires { array_vec_len lines.old + 33 ≤ LINES_ROOM }
    ensures { lines.new.items ≡ lines.old.items ++ clear_lines show key.now block }
{
    if show {
        let clear = tdes_decrypt(&pin_key(key), block);
        push_line(lines, b"clear-pin-block", &clear);
    }
}
